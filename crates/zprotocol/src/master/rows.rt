//! Worked examples of the master table. Each clause is one; the bodies do nothing. The chains are
//! those of `specs/support/Rows.antt`. The machine of the servers in the messages is a number.

ghost use Rattle.std.specs.Prelude.{◌≡◌, None, Some, [], ◌∷◌};
ghost use Rattle.zprotocol.specs.declared.message.Message.TheVariants as message;
ghost use Rattle.zprotocol.specs.declared.process.Process.TheVariants.{Server, Client};
ghost use Rattle.zprotocol.specs.declared.master.order.Order.TheVariants.{Join, Retire};
ghost use Rattle.zprotocol.specs.declared.master.order_fault.OrderFault.TheVariants.{Used, NotMember};
ghost use Rattle.zprotocol.specs.declared.master.order_fault.OrderFault.TheVariants.{Joining, NoChain};
ghost use Rattle.zprotocol.specs.declared.master.order_fault.OrderFault.TheVariants.{Lost, Last, Retiring};
ghost use Rattle.zprotocol.specs.master.View.{opening_master, with_number, head_of, tail_of};
ghost use Rattle.zprotocol.specs.master.Table.{order_fault};
ghost use Rattle.zprotocol.specs.master.support.Rows.{opening_of_two, three, four, growing, one};
ghost use Rattle.zprotocol.specs.master.support.Rows.{lost, empty, with_fifth, retiring, with_chain};
ghost use Rattle.zprotocol.specs.master.support.Rows.{three_without_1, three_without_2, three_without_4};
ghost use Rattle.zprotocol.specs.master.support.Rows.{four_without_2, four_without_3, growing_without_2};
ghost use Rattle.zprotocol.specs.master.support.Rows.{without_joining, reports, reports_of_none, passed_on};
ghost use Rattle.zprotocol.specs.master.support.Rows.{new_head, new_tail, new_pred, Ignores, after_order};
ghost use Rattle.zprotocol.specs.master.support.Rows.{after_have, after_joined, after_gone};

/// What the master does with a server's Have, and with the Joined of a new server.
pub fn reports_are_passed_on()
    ensures have { after_have three (Some 9) ≡ (three, passed_on (Some 9) ∷ []) }
    ensures have_no_state { after_have growing None ≡ (growing, passed_on None ∷ []) }
    ensures have_of_old_epoch { Ignores three (Server 4) (message.Have 3 (Some 9)) }
    ensures have_of_the_head { Ignores three (Server 1) (message.Have 0 (Some 9)) }
    ensures have_of_a_stranger { Ignores three (Server 3) (message.Have 5 (Some 9)) }
    ensures have_of_a_client { Ignores three (Client 4) (message.Have 5 (Some 9)) }
    ensures joined { after_joined growing ≡ (without_joining growing, reports 1 4) }
    ensures joined_of_another { Ignores growing (Server 2) (message.Joined 5) }
    ensures joined_again { Ignores three (Server 4) (message.Joined 5) }
    ensures order_of_a_server { Ignores three (Server 1) (message.BecomeTail 7) }
{}

/// How the master repairs the chain when a server has failed, and to whom it sends messages.
pub fn chain_is_mended()
    ensures first { after_gone three 1 ≡ (three_without_1, new_head 2 4) }
    ensures last { after_gone three 4 ≡ (three_without_4, new_tail 1 2) }
    ensures middle { after_gone three 2 ≡ (three_without_2, new_pred 4 1 1 4) }
    ensures middle_of_four { after_gone four 3 ≡ (four_without_3, new_pred 4 2 1 4) }
    ensures second_of_four { after_gone four 2 ≡ (four_without_2, new_pred 3 1 1 4) }
    ensures joining { after_gone growing 4 ≡ (three_without_4, new_tail 1 2) }
    ensures beneath_one_that_joins { after_gone growing 2 ≡ (growing_without_2, new_pred 4 1 1 1) }
    ensures only { after_gone one 2 ≡ (with_chain [] one, reports_of_none) }
    ensures outside { Ignores three (Server 3) message.Gone }
    ensures spare { after_gone three 5 ≡ (record three { used = 1 ∷ 2 ∷ 3 ∷ 4 ∷ 5 ∷ [] }, []) }
{}

/// How a server joins, and why a join is refused.
pub fn servers_join()
    ensures joins { after_order three (Join 5)
        ≡ (with_fifth, (Server 5, message.NewPred 7 4) ∷ []) }
    ensures allowed { order_fault three (Join 5) ≡ None }
    ensures used { order_fault three (Join 3) ≡ Some Used }
    ensures used_before_all { order_fault growing (Join 4) ≡ Some Used }
    ensures joining { order_fault growing (Join 5) ≡ Some Joining }
    ensures no_chain { order_fault empty (Join 5) ≡ Some NoChain }
    ensures lost { order_fault lost (Join 5) ≡ Some Lost }
    ensures one_with_state { order_fault one (Join 5) ≡ None }
    ensures retiring { order_fault (retiring 2 three) (Join 5) ≡ Some Retiring }
    ensures used_before_retiring { order_fault (retiring 2 three) (Join 3) ≡ Some Used }
    ensures joining_before_retiring { order_fault (retiring 2 growing) (Join 5) ≡ Some Joining }
    ensures lost_before_retiring { order_fault (retiring 4 lost) (Join 5) ≡ Some Lost }
{}

/// How a member is ordered to leave, and why an order is refused.
pub fn servers_retire()
    ensures head { after_order three (Retire 1)
        ≡ (retiring 1 three, (Server 1, message.Retire) ∷ []) }
    ensures middle { after_order three (Retire 2)
        ≡ (retiring 2 three, (Server 2, message.Retire) ∷ []) }
    ensures tail { after_order three (Retire 4)
        ≡ (retiring 4 three, (Server 4, message.Retire) ∷ []) }
    ensures allowed { order_fault three (Retire 1) ≡ None }
    ensures not_member { order_fault three (Retire 3) ≡ Some NotMember }
    ensures not_member_before_all { order_fault lost (Retire 3) ≡ Some NotMember }
    ensures empty_chain { order_fault empty (Retire 1) ≡ Some NotMember }
    ensures joining { order_fault growing (Retire 1) ≡ Some Joining }
    ensures joining_itself { order_fault growing (Retire 4) ≡ Some Joining }
    ensures joining_before_last { order_fault lost (Retire 4) ≡ Some Joining }
    ensures last { order_fault one (Retire 2) ≡ Some Last }
    ensures last_before_retiring { order_fault (retiring 2 one) (Retire 2) ≡ Some Last }
    ensures retiring { order_fault (retiring 1 three) (Retire 2) ≡ Some Retiring }
    ensures retiring_itself { order_fault (retiring 1 three) (Retire 1) ≡ Some Retiring }
{}

/// When the member ordered to leave is gone, the chain is repaired as for any other. Then another
/// may be ordered to leave, or join. When another member is gone, the order remains.
pub fn retired_servers_are_gone()
    ensures head { after_gone (retiring 1 three) 1 ≡ (three_without_1, new_head 2 4) }
    ensures middle { after_gone (retiring 2 three) 2 ≡ (three_without_2, new_pred 4 1 1 4) }
    ensures tail { after_gone (retiring 4 three) 4 ≡ (three_without_4, new_tail 1 2) }
    ensures another { after_gone (retiring 1 three) 4 ≡ (retiring 1 three_without_4, new_tail 1 2) }
    ensures outside { Ignores (retiring 1 three) (Server 3) message.Gone }
    ensures next { order_fault (after_gone (retiring 1 three) 1).0 (Retire 2) ≡ None }
    ensures next_joins { order_fault (after_gone (retiring 1 three) 1).0 (Join 5) ≡ None }
    ensures gone_one { order_fault (after_gone (retiring 1 three) 1).0 (Retire 1) ≡ Some NotMember }
    ensures gone_one_joins { order_fault (after_gone (retiring 1 three) 1).0 (Join 1) ≡ Some Used }
{}

/// The initial view of two servers and three clients, the head and tail in the configuration, and
/// the used numbers with one more.
pub fn opening_and_ends()
    ensures opening { opening_master 2 3 ≡ opening_of_two }
    ensures head { head_of three ≡ Some 1 }
    ensures tail { tail_of three ≡ Some 4 }
    ensures tail_is_joining { tail_of growing ≡ Some 2 }
    ensures tail_of_one { tail_of one ≡ Some 2 }
    ensures tail_without_state { tail_of lost ≡ Some 4 }
    ensures no_head { head_of empty ≡ None }
    ensures no_tail { tail_of empty ≡ None }
    ensures number_in_its_place { with_number 3 (1 ∷ 2 ∷ 4 ∷ []) ≡ 1 ∷ 2 ∷ 3 ∷ 4 ∷ [] }
    ensures number_once { with_number 2 (1 ∷ 2 ∷ 4 ∷ []) ≡ 1 ∷ 2 ∷ 4 ∷ [] }
{}
