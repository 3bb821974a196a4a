//! The words of a server. Its host writes them.

ghost use Rattle.std.specs.Prelude.{◌≡◌, IfErr, IfOk, IfSome};
ghost use Rattle.ztree.specs.Limits.{AreLimits};
ghost use Rattle.zarguments.specs.Asked.{texts_of};
ghost use Rattle.zdaemon.specs.Asked.{AreShared, IsAsked, IsAskedInFolder, IsAskedInMemory};
ghost use Rattle.zdaemon.specs.Asked.{is_dash, mode_of, Spells, SpellsBytes};
ghost use Rattle.zdaemon.specs.Asked.{SpellFolder, SpellLimits, SpellTerms, SpellTree};

use zarguments::WordsFault;
use zdurable::{ServerId, Terms, TickLength, TreeLimits, WatchLimits};
use zjournal::file::SyncMode;

/// What the words ask for.
#[derive(Clone, Copy, Debug, PartialEq, Eq)]
pub struct HostedSettings {
    /// What it accepts in requests, and how long a tick takes.
    pub terms: Terms,
    /// The time, in milliseconds since 1970.
    pub now: u64,
    /// How many watches there may be.
    pub limits: WatchLimits,
    /// The limits of the tree.
    pub tree: TreeLimits,
    /// The settings of a folder, if there is one.
    pub folder: Option<FolderSettings>,
}

/// The settings of a folder.
#[derive(Clone, Copy, Debug, PartialEq, Eq)]
pub struct FolderSettings {
    /// Whether it waits for the disk.
    pub mode: SyncMode,
    /// The number in the head of its journal.
    pub last: ServerId,
    /// Once the journal has grown by this many bytes, a new part of it is begun.
    pub long: usize,
}

/// Reads `NAME - SHARED`, for a server in memory. Or reads
/// `NAME FOLDER batch|never SERVERS JOURNAL SHARED`: also the number in the head of the folder's
/// journal, and by how many MiB it grows before a new part of it is begun. Shared are the words
/// `TICK TIME WATCHES EACH NODES SESSIONS TIMEOUT BYTES PARTS`. The first two are the milliseconds
/// of a tick, and the time. The next two say how many watches there may be, of all connections
/// together and of each. Then come the limits of the tree, the bytes of a node's data, and the parts
/// of a multi. All else is `BadWords`.
pub fn hosted_settings(words: &[&str]) -> Result<HostedSettings, WordsFault>
    ensures ok { IfOk result (IsAsked (texts_of words.now)) }
    ensures tree { IfOk result (λ asked. AreLimits asked.tree) }
    ensures err { IfErr result (λ fault. fault ≡ WordsFault.BadWords) }
{
    if let Some(asked) = in_memory(words) {
        return Ok(asked);
    }
    match with_folder(words) {
        Some(asked) => Ok(asked),
        None => Err(WordsFault::BadWords),
    }
}

// Reads the words of a server in memory.
fn in_memory(words: &[&str]) -> Option<HostedSettings>
    ensures asked { IfSome result (IsAskedInMemory (texts_of words.now)) }
    ensures tree { IfSome result (λ asked. AreLimits asked.tree) }
{
    let [_, dash, shared @ ..] = words else {
        return None;
    };
    if !is_dash(dash) {
        return None;
    }
    settings_of(shared, None)
}

// Reads the words of a server with a folder, which may be any word.
fn with_folder(words: &[&str]) -> Option<HostedSettings>
    ensures asked { IfSome result (IsAskedInFolder (texts_of words.now)) }
    ensures tree { IfSome result (λ asked. AreLimits asked.tree) }
{
    let [_, _, mode, servers, journal, shared @ ..] = words else {
        return None;
    };
    let Some(folder) = folder_of(mode, servers, journal) else {
        return None;
    };
    settings_of(shared, Some(folder))
}

// Reads the words that both have.
fn settings_of(shared: &[&str], folder: Option<FolderSettings>) -> Option<HostedSettings>
    ensures shared { IfSome result (AreShared (texts_of shared.now)) }
    ensures folder { IfSome result (λ asked. asked.folder ≡ folder) }
    ensures tree { IfSome result (λ asked. AreLimits asked.tree) }
{
    let [
        tick,
        now,
        most,
        each,
        nodes,
        sessions,
        timeout,
        bytes,
        parts,
    ] = shared
    else {
        return None;
    };
    match (
        terms_of(tick, bytes, parts),
        number_of(now),
        limits_of(most, each),
        tree_of(nodes, sessions, timeout),
    ) {
        (Some(terms), Some(now), Some(limits), Some(tree)) => Some(HostedSettings {
            terms,
            now,
            limits,
            tree,
            folder,
        }),
        _ => None,
    }
}

// Reads the words of a folder alone.
fn folder_of(mode: &str, servers: &str, journal: &str) -> Option<FolderSettings>
    ensures { IfSome result (SpellFolder mode.now servers.now journal.now) }
{
    match (mode_of(mode), last_of(servers), bytes_of(journal)) {
        (Some(mode), Some(last), Some(long)) => Some(FolderSettings { mode, last, long }),
        _ => None,
    }
}

// Whether the word means memory, instead of a folder.
fn is_dash(word: &str) -> bool
    ensures { result ≡ is_dash word.now }
{
    word == "-"
}

// Whether the word asks to wait for the disk.
fn mode_of(word: &str) -> Option<SyncMode>
    ensures { result ≡ mode_of word.now }
{
    match word {
        "batch" => Some(SyncMode::Batch),
        "never" => Some(SyncMode::Never),
        _ => None,
    }
}

/// The number in the head of a journal.
pub(crate) fn last_of(word: &str) -> Option<ServerId>
    ensures { IfSome result (Spells 8 word.now) }
{
    match word.parse::<u8>() {
        Ok(count) => ServerId::new(count),
        Err(_) => None,
    }
}

// A tick of this many milliseconds, and what is accepted in requests: this many bytes of data, and
// this many parts.
fn terms_of(tick: &str, bytes: &str, parts: &str) -> Option<Terms>
    ensures { IfSome result (SpellTerms tick.now bytes.now parts.now) }
{
    match (tick_of(tick), count_of(bytes), count_of(parts)) {
        (Some(tick), Some(bytes), Some(parts)) => Terms::new(tick, bytes, parts),
        _ => None,
    }
}

// A tick of this many milliseconds.
fn tick_of(word: &str) -> Option<TickLength>
    ensures { IfSome result (Spells 32 word.now) }
{
    match word.parse::<u32>() {
        Ok(millis) => TickLength::new(millis),
        Err(_) => None,
    }
}

// The limits of a tree, if it can have them: nodes, sessions, and the ticks of a timeout.
fn tree_of(nodes: &str, sessions: &str, timeout: &str) -> Option<TreeLimits>
    ensures { IfSome result (SpellTree nodes.now sessions.now timeout.now) }
{
    match (count_of(nodes), count_of(sessions), number_of(timeout)) {
        (Some(nodes), Some(sessions), Some(timeout)) => {
            let limits = TreeLimits {
                nodes,
                sessions,
                timeout,
            };
            if limits.is_allowed() {
                Some(limits)
            } else {
                None
            }
        }
        _ => None,
    }
}

// The number, of at most 32 bits.
fn count_of(word: &str) -> Option<usize>
    ensures { IfSome result (Spells 32 word.now) }
{
    match word.parse::<u32>() {
        Ok(count) => Some(count as usize),
        Err(_) => None,
    }
}

// The bytes of this many MiB.
fn bytes_of(word: &str) -> Option<usize>
    ensures { IfSome result (SpellsBytes word.now) }
{
    match word.parse::<u32>() {
        Ok(count) => Some(count as usize * 1_048_576),
        Err(_) => None,
    }
}

// How many watches there may be, of all connections together and of each.
fn limits_of(most: &str, each: &str) -> Option<WatchLimits>
    ensures { IfSome result (SpellLimits most.now each.now) }
{
    match (most.parse::<u32>(), each.parse::<u32>()) {
        (Ok(most), Ok(each)) => Some(WatchLimits {
            most: most as usize,
            each: each as usize,
        }),
        _ => None,
    }
}

// The number.
fn number_of(word: &str) -> Option<u64>
    ensures { IfSome result (Spells 64 word.now) }
{
    match word.parse::<u64>() {
        Ok(number) => Some(number),
        Err(_) => None,
    }
}
