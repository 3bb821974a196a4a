//! Worked examples of the definitions. Each function's contract has some; its body does nothing.

ghost use Rattle.std.specs.Prelude.{◌≡◌, ℕ, [], ◌∷◌, true, false, None, Ok, Err};
ghost use Rattle.std.specs.FinMap.{get};
ghost use Rattle.ztree.specs.support.Samples.{at_a, some_node};
ghost use Rattle.ztree.specs.declared.term.Term.TheVariants.{Unlimited, Timed, Container as AsContainer};
ghost use Rattle.ztree.specs.Tree.{Tree, opening_tree};
ghost use Rattle.ztree.specs.Sessions.{with_next_tick};
ghost use Rattle.zcalls.specs.declared.call.Lifetime.TheVariants.{Persistent, WithTtl, Ephemeral, Container};
ghost use Rattle.zcalls.specs.declared.limits.TheConstants.{MAX_PARTS, MOST_PARTS, MAX_COUNTER};
ghost use Rattle.zcalls.specs.declared.limits.TheConstants.{MAX_CALL_NUMBER, MAX_RAISES};
ghost use Rattle.zcalls.specs.declared.call.Expected.TheVariants.{Any, Exactly};
ghost use Rattle.zcalls.specs.declared.call.Query.{Query};
ghost use Rattle.zcalls.specs.declared.call.Update.{Update};
ghost use Rattle.zcalls.specs.declared.refusal.Refusal.TheVariants.{NoNode, BadVersion, Exhausted};
ghost use Rattle.zcalls.specs.declared.refusal.Refusal.TheVariants.{RootFixed, NotEmpty};
ghost use Rattle.zcalls.specs.declared.reply.PartReply.TheVariants.{Checked, Deleted};
ghost use Rattle.zcalls.specs.declared.reply.Reply.TheVariants as reply;
ghost use Rattle.zcalls.specs.declared.reply.Reply.TheVariants.{Refused, MultiRefused};
ghost use Rattle.zcalls.specs.CallRuns.{is_success, is_change};
ghost use Rattle.zcalls.specs.PlainTree.{plain_tree};
ghost use Rattle.zcalls.specs.Part.{has_other_version, has_other_acl, is_spent};
ghost use Rattle.zcalls.specs.Part.{named, sequential, owner_of, term_of};
ghost use Rattle.zcalls.specs.Multi.{run};
ghost use Rattle.zcalls.specs.Step.{step, query_reply, is_exhausted, multi_result, tick_result};
ghost use Rattle.zcalls.specs.Step.{granted_timeout};
ghost use Rattle.zcalls.specs.support.Counting.{after, creates, deletes, reported, reported_no, seven, third_kept};
ghost use Rattle.zcalls.specs.support.Counting.{with_eighth, one, created, refused};
ghost use Rattle.zcalls.specs.support.Rows.{CreatesAreTested, order_of_creates, DeletesAreTested};
ghost use Rattle.zcalls.specs.support.Rows.{IsRefusedWhere, FirstIsRefused, FirstIsChecked};
ghost use Rattle.zcalls.specs.support.Rows.{HasNode, IsChildless, get_a};
ghost use Rattle.zcalls.specs.support.Rows.{set_acl_a, acl_stat};
ghost use Rattle.zcalls.specs.support.Rows.{delete_a, set_a, sevens, childless_stat, without_a, deleted_a};
ghost use Rattle.zcalls.specs.support.Rows.{without_7, only_7, only_a, ticked, leaves};

/// The effect of one entry: with an empty cache, and after a client's call 3 acted last, as the
/// seventh create.
pub fn updates_act_once()
    ensures number_0 { after seven (creates 1 0) ≡ (seven, None) }
    ensures first { after seven (creates 1 1) ≡ (with_eighth seven 1 1, reported 8) }
    ensures retry { after third_kept (creates 1 3) ≡ (third_kept, reported 7) }
    ensures late { after third_kept (creates 1 2) ≡ (third_kept, None) }
    ensures other_client { after third_kept (creates 2 3) ≡ (with_eighth third_kept 2 3, reported 8) }
{}

/// The replies to six entries of one client in sequence: call 1 acts, and call 2 is refused.
pub fn refusals_are_kept()
    ensures number_0 { after one (creates 1 0) ≡ (one, None) }
    ensures acts { after one (creates 1 1) ≡ (created, reported 2) }
    ensures again { after created (creates 1 1) ≡ (created, reported 2) }
    ensures refused { after created (deletes 1 2) ≡ (refused, reported_no) }
    ensures late { after refused (creates 1 1) ≡ (refused, None) }
    ensures refused_again { after refused (deletes 1 2) ≡ (refused, reported_no) }
{}

/// The plain tree as a service: its initial state, what an update does, and the reply to a query.
pub fn plain_tree_steps()
    ensures opening { plain_tree.opening ≡ opening_tree }
    ensures update { (t : Tree) (c : ℕ) (u : Update) → plain_tree.update t c u ≡ step t c u }
    ensures ask { (t : Tree) (query : Query) → plain_tree.ask t query ≡ query_reply t query }
{}

/// The order in which refusals are tested, for any outcomes of the tests: of two that hold, the
/// earlier is the reply.
pub fn refusals_have_an_order()
    ensures create { CreatesAreTested order_of_creates }
    ensures delete { DeletesAreTested (RootFixed ∷ NoNode ∷ BadVersion ∷ NotEmpty ∷ []) }
    ensures exhausted { IsRefusedWhere is_exhausted Exhausted }
{}

/// The parts of a multi, by the result of each. An empty list of parts is done. A refused part ends
/// the run and is numbered from 1. The reply of a part that is done comes first.
pub fn parts_are_done_in_turn()
    ensures none { (t : Tree) (client : ℕ) → run t client [] ≡ Ok (t, []) }
    ensures refused { FirstIsRefused NoNode (Err (1, NoNode)) }
    ensures refused_later { FirstIsChecked (Err (2, NoNode)) (Err (3, NoNode)) }
    ensures done { (v : Tree)
        → FirstIsChecked (Ok (v, Deleted ∷ [])) (Ok (v, Checked ∷ Deleted ∷ [])) }
{}

/// A change that names a version is done only if the node has that version. The node of the
/// examples has version 6 and cversion 8.
pub fn versions_are_tested()
    ensures any { has_other_version Any some_node ≡ false }
    ensures same { has_other_version (Exactly 6) some_node ≡ false }
    ensures other { has_other_version (Exactly 8) some_node ≡ true }
    ensures delete { (t : Tree) → HasNode t → IsChildless t → delete_a t 6 ≡ Ok (deleted_a t) }
    ensures delete_of_another { (t : Tree) → HasNode t → delete_a t 8 ≡ Err BadVersion }
    ensures set_of_another { (t : Tree) → HasNode t → set_a t 8 ≡ Err BadVersion }
{}

/// A write of an access control list is done only if the list has the version that it names. The
/// node of the examples has one of version 13, and it shows 14 then.
pub fn lists_are_tested()
    ensures any { has_other_acl Any some_node ≡ false }
    ensures same { has_other_acl (Exactly 13) some_node ≡ false }
    ensures data_version { has_other_acl (Exactly 6) some_node ≡ true }
    ensures other { (t : Tree) → HasNode t → set_acl_a t 6 ≡ Err BadVersion }
    ensures none { (t : Tree) → get t.nodes at_a ≡ None → set_acl_a t 13 ≡ Err NoNode }
    ensures stat { acl_stat ≡ record childless_stat { aversion = 14 } }
{}

/// The timeouts that are granted where the greatest one is 20 ticks, and where it is 100.
pub fn timeouts_are_granted()
    ensures short { granted_timeout 20 1 ≡ 2 }
    ensures inside { granted_timeout 20 7 ≡ 7 }
    ensures long { granted_timeout 20 21 ≡ 20 }
    ensures chosen { granted_timeout 100 21 ≡ 21 }
{}

/// Results: the data and the stat of a node, and the part of a multi that was refused. Also,
/// whether a node's counter has given its last number.
pub fn what_is_reported()
    ensures data { (t : Tree) → HasNode t → IsChildless t
        → get_a t ≡ reply.Data sevens childless_stat }
    ensures no_data { (t : Tree) → get t.nodes at_a ≡ None → get_a t ≡ Refused NoNode }
    ensures refused_part { (t : Tree)
        → multi_result t (Err (1, NoNode)) ≡ (t, MultiRefused 1 NoNode) }
    ensures last_number { is_spent (record some_node { seq = 2147483647 }) ≡ false }
    ensures no_number { is_spent (record some_node { seq = 2147483648 }) ≡ true }
{}

/// Which replies are successes: all but the two refusals.
pub fn successes()
    ensures created { is_success (reply.Created []) ≡ true }
    ensures deleted { is_success reply.Deleted ≡ true }
    ensures set { is_success (reply.Set childless_stat) ≡ true }
    ensures multi { is_success (reply.Multi []) ≡ true }
    ensures opened { is_success (reply.Opened 1 2) ≡ true }
    ensures pinged { is_success reply.Pinged ≡ true }
    ensures closed { is_success reply.Closed ≡ true }
    ensures ticked { is_success (reply.Ticked 1 0 0) ≡ true }
    ensures data { is_success (reply.Data [] childless_stat) ≡ true }
    ensures exists { is_success (reply.Exists childless_stat) ≡ true }
    ensures children { is_success (reply.Children []) ≡ true }
    ensures refused { is_success (Refused NoNode) ≡ false }
    ensures multi_refused { is_success (MultiRefused 1 NoNode) ≡ false }
{}

/// Which ticks make a change: those that end a session or remove a node.
pub fn changes_of_ticks()
    ensures idle { is_change (reply.Ticked 1 0 0) ≡ false }
    ensures ends { is_change (reply.Ticked 1 1 0) ≡ true }
    ensures removes { is_change (reply.Ticked 1 0 1) ≡ true }
    ensures both { is_change (reply.Ticked 1 1 1) ≡ true }
{}

/// The tree and the reply after a tick, given the sessions to end and the nodes to remove. The
/// sessions come first, then the nodes, with one zxid for all of them.
pub fn ticks_are_one_change()
    ensures idle { (t : Tree) → tick_result t [] [] ≡ (with_next_tick t, ticked t 0 0) }
    ensures ends { (t : Tree) → tick_result t only_7 [] ≡ leaves t (without_7 t) 1 0 }
    ensures removes { (t : Tree) → tick_result t [] only_a ≡ leaves t (without_a t) 0 1 }
    ensures both { (t : Tree) → tick_result t only_7 only_a
        ≡ leaves t (without_a (without_7 t)) 1 1 }
{}

/// The lifetimes of nodes, and the names of both kinds.
pub fn lifetimes_and_kinds()
    ensures ttl { term_of (WithTtl 5) ≡ Timed 5 }
    ensures none { term_of Persistent ≡ Unlimited }
    ensures ephemeral { term_of (Ephemeral 7) ≡ Unlimited }
    ensures container { term_of Container ≡ AsContainer }
    ensures nobodys { owner_of (WithTtl 5) ≡ 0 }
    ensures of_a_container { owner_of Container ≡ 0 }
    ensures free { owner_of Persistent ≡ 0 }
    ensures owned { owner_of (Ephemeral 7) ≡ 7 }
    ensures name_as_asked { (named (WithTtl 5)).is_sequential ≡ false }
    ensures numbered { (sequential (WithTtl 6)).is_sequential ≡ true }
{}

/// The limits as numbers.
pub fn limits_are_numbers()
    ensures parts { MAX_PARTS ≡ 64 }
    ensures most_parts { MOST_PARTS ≡ 1024 }
    ensures counter { MAX_COUNTER ≡ 2147483647 }
    ensures call_number { MAX_CALL_NUMBER ≡ 4611686018427387903 }
    ensures raises { MAX_RAISES ≡ 2097152 }
{}
