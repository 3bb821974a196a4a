//! The words of a node. Its host writes them.

ghost use Rattle.std.specs.Prelude.{◌≡◌, None, Some, true, false, IfErr, IfOk};
ghost use Rattle.zarguments.specs.Asked.{texts_of};
ghost use Rattle.zmaster_log.specs.Nodes.{is_node_name};
ghost use Rattle.znode.specs.Running.{asked_by};

use std::alloc::Global;
use zarguments::WordsFault;
use zmaster_log::NodeName;

/// What the words ask for.
#[derive(Drop)]
pub struct NodeSettings {
    /// The name of the node.
    pub name: NodeName,
    /// Whether it may open an empty log.
    pub opens: bool,
}

/// Reads `PROGRAM NODE` or `PROGRAM NODE --opens`. All else is `BadWords`.
pub fn node_settings(alloc: Global, words: &[&str]) -> Result<NodeSettings, WordsFault>
    ensures ok { IfOk result (λ asked. asked_by (texts_of words.now)
        ≡ Some (asked.name, asked.opens)) }
    ensures bad { IfErr result (λ fault. fault ≡ WordsFault.BadWords
        → asked_by (texts_of words.now) ≡ None) }
{
    let (name, opens) = match words {
        [_, name] => (name, false),
        [_, name, option] => {
            if *option != "--opens" {
                return Err(WordsFault::BadWords);
            }
            (name, true)
        }
        _ => return Err(WordsFault::BadWords),
    };
    let name = name_of(alloc, name)?;
    Ok(NodeSettings { name, opens })
}

// Returns the name of a node that is this word.
fn name_of(alloc: Global, word: &str) -> Result<NodeName, WordsFault>
    ensures ok { IfOk result (λ name. name ≡ word.now) }
    ensures name { IfOk result (λ _. is_node_name word.now ≡ true) }
    ensures bad { IfErr result (λ fault. fault ≡ WordsFault.BadWords
        → is_node_name word.now ≡ false) }
{
    match NodeName::new(Vec::from_slice(alloc, word.as_bytes())?) {
        Some(name) => Ok(name),
        None => Err(WordsFault::BadWords),
    }
}
