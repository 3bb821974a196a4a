//! Worked scenarios of failures and joins.

ghost use Rattle.std.specs.Prelude.{◌≡◌, [], ◌∷◌, Some};
ghost use Rattle.zprotocol.specs.declared.master.order_fault.OrderFault.TheVariants.{Used, NoChain};
ghost use Rattle.zprotocol.specs.declared.master.order.Order.TheVariants as order;
ghost use Rattle.zprotocol.specs.master.Table.{order_fault};
ghost use Rattle.zprotocol.specs.world.support.ScenarioRows.{two_fail, both_middle_servers_fail};
ghost use Rattle.zprotocol.specs.world.support.ScenarioRows.{head_fails_in_a_repair, state_moves_on};
ghost use Rattle.zprotocol.specs.world.support.ScenarioRows.{tail_fails_in_a_join, joining_server_fails};
ghost use Rattle.zprotocol.specs.world.support.ScenarioRows.{failed_spare_joins, chain_is_empty};
ghost use Rattle.zprotocol.specs.world.support.RunRows.{one_create, two_creates, create_and_exists};
ghost use Rattle.zprotocol.specs.world.support.ScenarioRows.{scenes_master, scenes_history, scenes_chain};

/// Servers fail, one after the other and in the middle of a repair. The outstanding call is
/// answered once.
pub fn answers_survive_failures()
    ensures two_fail { scenes_history 3 two_fail ≡ two_creates }
    ensures both_middle_servers_fail { scenes_history 4 both_middle_servers_fail ≡ one_create }
    ensures head_fails_in_a_repair { scenes_history 3 head_fails_in_a_repair ≡ one_create }
{}

/// The state moves to servers that joined, and outlives all servers that it began with.
pub fn state_outlives_its_first_server()
    ensures seen { scenes_history 1 state_moves_on ≡ create_and_exists }
    ensures chain { scenes_chain 1 state_moves_on ≡ (3, 3) ∷ [] }
{}

/// Failures during a join. The predecessor of the failed tail hands the state over, and a tail
/// whose joining successor failed answers again.
pub fn joins_survive_failures()
    ensures tail_fails { scenes_history 3 tail_fails_in_a_join ≡ two_creates }
    ensures new_tail { scenes_chain 3 tail_fails_in_a_join ≡ (1, 0) ∷ (2, 0) ∷ (4, 2) ∷ [] }
    ensures joining_fails { scenes_history 3 joining_server_fails ≡ two_creates }
    ensures old_tail { scenes_chain 3 joining_server_fails ≡ (1, 0) ∷ (2, 0) ∷ (3, 0) ∷ [] }
{}

/// A spare server that failed leaves the chain again when the master learns of it, and its number
/// is used up.
pub fn failed_spare_leaves_again()
    ensures seen { scenes_history 1 failed_spare_joins ≡ one_create }
    ensures used { order_fault (scenes_master 1 failed_spare_joins) (order.Join 2) ≡ Some Used }
{}

/// Without a chain no server can join.
pub fn empty_chain_takes_nobody()
    ensures no_chain { order_fault (scenes_master 1 chain_is_empty) (order.Join 2) ≡ Some NoChain }
    ensures used { order_fault (scenes_master 1 chain_is_empty) (order.Join 1) ≡ Some Used }
{}
