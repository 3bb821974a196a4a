//! Worked runs in which a server joins.

ghost use Rattle.std.specs.Prelude.{◌≡◌, [], ◌∷◌, None, Some, take};
ghost use Rattle.zprotocol.specs.declared.master.order_fault.OrderFault.TheVariants.{Joining, Lost};
ghost use Rattle.zprotocol.specs.declared.master.order.Order.TheVariants as order;
ghost use Rattle.zprotocol.specs.master.Table.{order_fault};
ghost use Rattle.zprotocol.specs.world.Orders.{Join};
ghost use Rattle.zprotocol.specs.declared.world.history.CallEvent.TheVariants as saw;
ghost use Rattle.zprotocol.specs.world.support.Counter.{exists};
ghost use Rattle.zprotocol.specs.world.support.RunRows.{after, seen, link, view, m, s1, s2, s3, c1};
ghost use Rattle.zprotocol.specs.world.support.JoinRows.{state_is_handed_over, snapshot_is_stale};
ghost use Rattle.zprotocol.specs.world.support.JoinRows.{state_is_lost};
ghost use Rattle.zprotocol.specs.world.support.RunRows.{CannotHappen, create_and_exists, config};

/// A server joins after the tail. Once the old tail has sent its snapshot, it answers no one. The
/// new tail answers once it has the state.
pub fn joining_server_is_handed_the_state()
    ensures one_joins { order_fault (after 1 (take 4 state_is_handed_over)).master (order.Join 3)
        ≡ Some Joining }
    ensures silent { link 1 (take 9 state_is_handed_over) s1 c1 ≡ [] }
    ensures reported { link 1 (take 11 state_is_handed_over) m c1 ≡ config 2 1 2 }
    ensures handed_over { (view 1 (take 10 state_is_handed_over) 2).last ≡ 1 }
    ensures seen { seen 1 state_is_handed_over ≡ create_and_exists }
{}

/// The snapshot of a failed predecessor is ignored: it lacks what the new predecessor has accepted.
pub fn stale_snapshot_is_ignored()
    ensures no_state { (view 2 (take 14 snapshot_is_stale) 3).machine ≡ None }
    ensures taken { link 2 (take 14 snapshot_is_stale) s2 s3 ≡ [] }
    ensures whole_state { (view 2 snapshot_is_stale 3).last ≡ 2 }
{}

/// The state is lost with the only server that had it: no call is answered, and no server can join.
pub fn state_is_lost_with_its_only_server()
    ensures silent { link 1 state_is_lost s2 c1 ≡ [] }
    ensures unanswered { seen 1 state_is_lost ≡ saw.Begin 1 1 exists ∷ [] }
    ensures refused { order_fault (after 1 state_is_lost).master (order.Join 3) ≡ Some Lost }
    ensures not_enabled { CannotHappen 1 state_is_lost (Join 3) }
{}
