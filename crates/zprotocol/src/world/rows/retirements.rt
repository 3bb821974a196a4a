//! Worked runs in which a member is ordered to leave.

ghost use Rattle.std.specs.Prelude.{◌≡◌, [], ◌∷◌, ◌++◌, None, Some, true, false, take};
ghost use Rattle.zprotocol.specs.declared.message.Message.TheVariants as message;
ghost use Rattle.zprotocol.specs.declared.master.order_fault.OrderFault.TheVariants.{Used, NotMember};
ghost use Rattle.zprotocol.specs.declared.master.order_fault.OrderFault.TheVariants.{Joining, Last};
ghost use Rattle.zprotocol.specs.declared.master.order_fault.OrderFault.TheVariants.{Retiring};
ghost use Rattle.zprotocol.specs.declared.master.order.Order.TheVariants as order;
ghost use Rattle.zprotocol.specs.master.Table.{order_fault};
ghost use Rattle.zprotocol.specs.declared.world.event.Event.TheVariants.{Retry, Take, Fail};
ghost use Rattle.zprotocol.specs.world.Orders.{Retire};
ghost use Rattle.zprotocol.specs.declared.world.outcome.Outcome.TheVariants.{Acted, Stopped};
ghost use Rattle.zprotocol.specs.world.Events.{is_enabled};
ghost use Rattle.zprotocol.specs.world.support.RunRows.{after, seen, link, view, m, s1, s2, s3, c1};
ghost use Rattle.zprotocol.specs.world.support.RunRows.{CanHappen, CannotHappen, first_entry};
ghost use Rattle.zprotocol.specs.world.support.RunRows.{one_create, two_creates, create_and_exists};
ghost use Rattle.zprotocol.specs.world.support.ScenarioRows.{scenes_end, scenes_master};
ghost use Rattle.zprotocol.specs.world.support.ScenarioRows.{scenes_history, scenes_chain};
ghost use Rattle.zprotocol.specs.world.support.SettleRows.{StayThemselves};
ghost use Rattle.zprotocol.specs.world.support.RetireRows.{head_retires, middle_retires, tail_retires};
ghost use Rattle.zprotocol.specs.world.support.RetireRows.{order_taken, two_retire, one_is_replaced};
ghost use Rattle.zprotocol.specs.world.support.RetireRows.{both_are_replaced, another_fails};
ghost use Rattle.zprotocol.specs.world.support.RetireRows.{retiring_server_fails};

/// The head is ordered to leave. It serves until it receives the order. From then on it receives
/// nothing more, and its successor becomes the head.
pub fn head_retires_after_it_forwarded()
    ensures ordered { link 3 (take 2 head_retires) m s1 ≡ message.Retire ∷ [] }
    ensures serves { link 3 (take 3 head_retires) s1 s2 ≡ message.Update 0 1 first_entry ∷ [] }
    ensures gone { link 3 (take 5 head_retires) s1 m ≡ message.Gone ∷ [] }
    ensures failed { (after 3 (take 5 head_retires)).failed 1 ≡ true }
    ensures takes_nothing_more { CannotHappen 3 (take 5 head_retires ++ Retry 1 ∷ []) (Take c1 s1) }
    ensures fails_no_more { CannotHappen 3 (take 5 head_retires) (Fail 1) }
    ensures reported { link 3 (take 6 head_retires) m s2 ≡ message.BecomeHead 1 ∷ [] }
    ensures head { (view 3 (take 7 head_retires) 2).pred ≡ None }
    ensures seen { seen 3 head_retires ≡ one_create }
{}

/// The middle is ordered to leave: what it hadn't forwarded, the head sends to the tail.
pub fn middle_retires_before_it_forwarded()
    ensures unsent { link 3 (take 3 middle_retires) s1 s2 ≡ message.Update 0 1 first_entry ∷ [] }
    ensures lost { link 3 (take 4 middle_retires) s1 s2 ≡ [] }
    ensures new_pred { link 3 (take 5 middle_retires) m s3 ≡ message.NewPred 1 1 ∷ [] }
    ensures sent_again { link 3 (take 8 middle_retires) s1 s3
        ≡ message.Update 1 1 first_entry ∷ [] }
    ensures seen { seen 3 middle_retires ≡ one_create }
{}

/// The tail is ordered to leave: its predecessor becomes the tail, and the call is answered once.
pub fn tail_retires_before_it_answered()
    ensures reported { link 3 (take 6 tail_retires) m s2 ≡ message.BecomeTail 1 ∷ [] }
    ensures tail { (view 3 (take 7 tail_retires) 2).succ ≡ None }
    ensures acted_once { (view 3 (take 10 tail_retires) 2).last ≡ 2 }
    ensures seen { seen 3 tail_retires ≡ one_create }
{}

/// Which members can be ordered to leave, and that no server can run out of memory at the order.
pub fn members_are_ordered_to_leave()
    ensures member { CanHappen 3 [] (Retire 3) }
    ensures spare { CannotHappen 3 [] (Retire 4) }
    ensures only_one { CannotHappen 1 [] (Retire 1) }
    ensures second { CannotHappen 3 (Retire 1 ∷ []) (Retire 2) }
    ensures failed_one { CanHappen 3 (Fail 1 ∷ []) (Retire 1) }
    ensures wants_no_memory { StayThemselves 3 order_taken (Acted ∷ Stopped ∷ []) }
{}

/// Members leave one at a time, and the last one remains.
pub fn members_leave_in_turn()
    ensures second { order_fault (scenes_master 3 (take 2 two_retire)) (order.Retire 2)
        ≡ Some Retiring }
    ensures first_left { scenes_chain 3 (take 3 two_retire) ≡ (2, 0) ∷ (3, 0) ∷ [] }
    ensures last { order_fault (scenes_master 3 two_retire) (order.Retire 3) ≡ Some Last }
    ensures not_member { order_fault (scenes_master 3 two_retire) (order.Retire 1)
        ≡ Some NotMember }
    ensures seen { scenes_history 3 two_retire ≡ create_and_exists }
{}

/// No member is ordered to leave while a server joins, and no server joins while a member leaves.
/// So servers can be replaced one by one.
pub fn servers_are_replaced()
    ensures joining { order_fault (scenes_master 2 (take 1 one_is_replaced)) (order.Retire 1)
        ≡ Some Joining }
    ensures retiring { order_fault (scenes_master 2 (take 3 one_is_replaced)) (order.Join 4)
        ≡ Some Retiring }
    ensures free { order_fault (scenes_master 2 one_is_replaced) (order.Join 4) ≡ None }
    ensures gone_one { order_fault (scenes_master 2 one_is_replaced) (order.Join 1) ≡ Some Used }
    ensures chain { scenes_chain 2 both_are_replaced ≡ (3, 1) ∷ (4, 4) ∷ [] }
    ensures seen { scenes_history 2 both_are_replaced ≡ create_and_exists }
{}

/// An order to leave remains while another server fails.
pub fn another_fails_meanwhile()
    ensures stands { (scenes_master 3 (take 2 another_fails)).retiring ≡ Some 1 }
    ensures chain { scenes_chain 3 another_fails ≡ (3, 1) ∷ [] }
    ensures done { (scenes_master 3 another_fails).retiring ≡ None }
    ensures seen { scenes_history 3 another_fails ≡ two_creates }
{}

/// A server that fails before it receives the order never receives it. It is gone once, and with
/// that the order is done.
pub fn retiring_server_fails_first()
    ensures not_taken { is_enabled (scenes_end 3 (take 2 retiring_server_fails)) (Take m s1)
        ≡ false }
    ensures stands { (scenes_master 3 (take 2 retiring_server_fails)).retiring ≡ Some 1 }
    ensures gone { (scenes_end 3 (take 2 retiring_server_fails)).links s1 m ≡ message.Gone ∷ [] }
    ensures done { (scenes_master 3 retiring_server_fails).retiring ≡ None }
    ensures next { order_fault (scenes_master 3 retiring_server_fails) (order.Retire 2) ≡ None }
    ensures seen { scenes_history 3 retiring_server_fails ≡ two_creates }
{}
