//! A program's words.

ghost use Rattle.std.specs.Prelude.{◌≡◌, IfErr, IfOk, Ok, Some};
ghost use Rattle.zarguments.specs.Asked.{texts_of};
ghost use Rattle.zscript.specs.Servers.{IsServers};
ghost use Rattle.zcommand.specs.Asked.{settings_asked, settings_of, IsFaultOf};

use std::alloc::Global;
use zarguments::{NumberOption, WordsFault, numbers_asked};
use zprotocol::ServerId;

// The option of a script.
static SCRIPT_OPTIONS: [NumberOption; 1] = [NumberOption {
    name: "servers",
    default: "1",
}];

/// Reads `NAME script [--servers N]`, where N is 1 to `MAX_SERVERS`, and 1 if it is not given.
/// Returns the last server of such a chain.
///
/// Everything else is `BadWords`, also a request for help. `Memory` means out of memory, and
/// nothing else.
pub fn settings<'a>(alloc: Global, words: &'a [&'a str]) -> Result<ServerId, WordsFault>
    ensures ok { IfOk result (λ last. settings_asked (texts_of words.now) ≡ Ok last) }
    ensures err { IfErr result (IsFaultOf (texts_of words.now)) }
    ensures few { IfOk result IsServers }
{
    match numbers_asked(alloc, "script", SCRIPT_OPTIONS.as_slice(), words)? {
        Some(numbers) => asked(&numbers),
        None => Err(WordsFault::BadWords),
    }
}

// Returns the last server of the chain that these numbers ask for.
fn asked(numbers: &[u16]) -> Result<ServerId, WordsFault>
    ensures exact { result ≡ settings_of (Some numbers.now) }
    ensures few { IfOk result IsServers }
{
    let [number] = numbers else {
        return Err(WordsFault::BadWords);
    };
    let Ok(number) = u8::try_from(*number) else {
        return Err(WordsFault::BadWords);
    };
    let Some(last) = ServerId::new(number) else {
        return Err(WordsFault::BadWords);
    };
    last.keeps_in_range();
    Ok(last)
}
