//! The codes of refusals.

ghost use Rattle.std.specs.Prelude.{◌≡◌};
ghost use Rattle.zrequests.specs.Codes as table;

use zcalls::Refusal;
use zjute::Code;

/// Returns the error code for a refusal of the service.
pub fn code_of(refusal: Refusal) -> Code
    ensures { result ≡ table.code_of refusal }
{
    match refusal {
        Refusal::NoNode => Code::NoNode,
        Refusal::NodeExists => Code::NodeExists,
        Refusal::NotEmpty => Code::NotEmpty,
        Refusal::BadVersion => Code::BadVersion,
        Refusal::NoChildrenForEphemerals => Code::NoChildrenForEphemerals,
        Refusal::SessionGone => Code::SessionExpired,
        Refusal::PathLimit | Refusal::RootFixed => Code::BadArguments,
        Refusal::SequenceFull | Refusal::Full | Refusal::TooManySessions | Refusal::Exhausted =>
            Code::SystemError,
    }
}
