//! What became of a client's inputs, as returned to its caller.

ghost use Rattle.std.specs.Prelude.{◌≡◌};
ghost use Rattle.zactor.specs.declared.done.Done.TheVariants.{Began};
ghost use Rattle.zthreads.specs.Standings.{begin_fault_of, HasBegun};

use zactor::{ActFault, Done, Refusal};
use zcalls::CallNumber;
use zclient::BeginFault;

/// Returns the number of a call that was invoked.
pub(crate) fn number_of(done: Done) -> CallNumber
    requires { HasBegun done }
    ensures { done ≡ Began result }
{
    let Done::Began(number) = done else {
        // `HasBegun` excludes everything else.
        unreachable!();
    };
    number
}

/// Returns why a call wasn't invoked.
pub(crate) fn begin_fault_of(fault: ActFault) -> BeginFault
    ensures { result ≡ begin_fault_of fault }
{
    match fault {
        ActFault::Refused(Refusal::Begin(why)) => why,
        ActFault::Refused(_) | ActFault::Memory => BeginFault::Memory,
    }
}
