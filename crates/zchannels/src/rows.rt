//! Worked examples of the definitions. Each clause is one; the bodies do nothing.

ghost use Rattle.std.specs.Prelude.{◌≡◌};
ghost use Rattle.zprotocol.specs.declared.master.order.Order.TheVariants.{Join, Retire};
ghost use Rattle.zprotocol.specs.declared.master.order_fault.OrderFault.TheVariants.{Used, Last};
ghost use Rattle.zchannels.specs.declared.console.TheConstants.{ROOM};
ghost use Rattle.zchannels.specs.declared.outcome.OrderOutcome.TheVariants.{Obeyed, Refused};
ghost use Rattle.zchannels.specs.Outcomes.{order_of};

/// The limits, as numbers.
pub fn limits_are_numbers()
    ensures { ROOM ≡ 32 }
{}

/// The order of an outcome.
pub fn outcomes_are_of_orders()
    ensures joins { order_of (Obeyed (Join 3)) ≡ Join 3 }
    ensures join_refused { order_of (Refused (Join 3) Used) ≡ Join 3 }
    ensures leaves { order_of (Obeyed (Retire 3)) ≡ Retire 3 }
    ensures retire_refused { order_of (Refused (Retire 3) Last) ≡ Retire 3 }
{}
