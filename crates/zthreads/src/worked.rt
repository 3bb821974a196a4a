//! Worked examples of the definitions. Each clause is one; the bodies do nothing.

ghost use Rattle.std.specs.Prelude.{◌≡◌};
ghost use Rattle.zprotocol.specs.declared.master.order.Order.TheVariants.{Join, Retire};
ghost use Rattle.zprotocol.specs.declared.master.order_fault.OrderFault.TheVariants.{Used, NotMember};
ghost use Rattle.zprotocol.specs.declared.master.order_fault.OrderFault.TheVariants.{Last};
ghost use Rattle.zprotocol.specs.master.View.{opening_master};
ghost use Rattle.zchannels.specs.declared.outcome.OrderOutcome.TheVariants.{Obeyed, Refused};
ghost use Rattle.zthreads.specs.Outcomes.{outcome_at};

/// The outcome of an order, where the chain is servers 1 and 2, and once where it is server 1.
pub fn orders_have_outcomes()
    ensures joins { outcome_at (opening_master 2 1) (Join 3) ≡ Obeyed (Join 3) }
    ensures used { outcome_at (opening_master 2 1) (Join 2) ≡ Refused (Join 2) Used }
    ensures leaves { outcome_at (opening_master 2 1) (Retire 1) ≡ Obeyed (Retire 1) }
    ensures stranger { outcome_at (opening_master 2 1) (Retire 3)
        ≡ Refused (Retire 3) NotMember }
    ensures last { outcome_at (opening_master 1 1) (Retire 1)
        ≡ Refused (Retire 1) Last }
{}
