//! Tasks on a folder: their words.

ghost use Rattle.std.specs.Prelude.{◌≡◌, IfNone, IfSome};
ghost use Rattle.zarguments.specs.Asked.{texts_of};
ghost use Rattle.zdaemon.specs.Tasks.{IsTask, task_named};

use crate::words::last_of;
use zdurable::ServerId;

/// A task on a folder. All but one are for a folder that no server has open.
#[derive(Clone, Copy, Debug, PartialEq, Eq)]
pub enum Task {
    /// Its journal is compacted.
    Compact,
    /// All parts of its journal but the last one are compacted. A server may have it open.
    Beginning,
    /// Its tree is written as lines.
    Export,
    /// Its size is printed.
    Stat,
}

/// Reads `NAME FOLDER compact|beginning|export|stat SERVERS`: a task on a folder, with this number in
/// the head of its journal. `None` for all other words.
pub(crate) fn task_of(words: &[&str]) -> Option<(Task, ServerId)>
    ensures { IfSome result (IsTask (texts_of words.now)) }
{
    let [_, _, task, servers] = words else {
        return None;
    };
    match (task_named(task), last_of(servers)) {
        (Some(task), Some(last)) => Some((task, last)),
        _ => None,
    }
}

// The task that a word names.
fn task_named(word: &str) -> Option<Task>
    ensures { result ≡ task_named word.now }
{
    match word {
        "compact" => Some(Task::Compact),
        "beginning" => Some(Task::Beginning),
        "export" => Some(Task::Export),
        "stat" => Some(Task::Stat),
        _ => None,
    }
}
