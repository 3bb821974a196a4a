//! The inputs of a front end whose changes are made durable.

ghost use Rattle.std.specs.Prelude.{◌≡◌, List, ℕ, IfErr, IsErrOf, OnErr, OnOk};
ghost use Rattle.ztree.specs.Tree.{Tree};
ghost use Rattle.zconnections.specs.buffers.Inputs.{input_of};
ghost use Rattle.zfront.specs.Inputs.{Does};
ghost use Rattle.zdurable.specs.Faults.{IsOfInput};
ghost use Rattle.zdurable.specs.DurableFront.{front_in, IsOpen, IsSameFile, IsServing, IsSound};

use crate::DurableFront;
use crate::fault::DurableFault;
use zfront::Input;
use zjournal::Device;

impl<D: Device> DurableFront<D> {
    /// Takes an input (`Front::take`). The file isn't touched.
    pub fn take(&mut self, input: Input<'_>) -> Result<(), DurableFault>
        requires { IsSound D.seen D.may_leave self.old }
        ensures does { OnOk result
            (Does (input_of input.entry) (front_in self.old) (front_in self.new)) }
        ensures kept { (servers : ℕ) (batches : List (List ℕ)) (t : Tree)
            → IsServing D.seen D.may_leave servers batches t self.old
            → OnOk result (IsServing D.seen D.may_leave servers batches t self.new) }
        ensures same { IsSameFile self.old self.new }
        ensures sound { IsSound D.seen D.may_leave self.new }
        ensures open { OnOk result (IsOpen self.old × IsOpen self.new) }
        ensures left { OnErr result (IsOpen self.new → ⊥) }
        ensures ended { (IsOpen self.old → ⊥)
            → IsErrOf result DurableFault.Ended × (self.new ≡ self.old) }
        ensures only { IsErrOf result DurableFault.Ended → IsOpen self.old → ⊥ }
        ensures fault { IfErr result IsOfInput }
    {
        if !self.is_open {
            return Err(DurableFault::Ended);
        }
        self.is_open = false;
        self.front.take(input)?;
        self.is_open = true;
        Ok(())
    }
}
