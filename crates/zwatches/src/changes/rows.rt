//! Worked examples of the definitions, as clauses. The functions do nothing.

ghost use Rattle.std.specs.Prelude.{◌≡◌, [], ◌∷◌, ◌++◌};
ghost use Rattle.ztree.specs.support.Samples.{at_a, at_a_b, some_stat};
ghost use Rattle.zcalls.specs.declared.call.Part.TheVariants as part;
ghost use Rattle.zcalls.specs.declared.call.Update.TheVariants as act;
ghost use Rattle.zcalls.specs.declared.refusal.Refusal.TheVariants.{NoNode, BadVersion};
ghost use Rattle.zcalls.specs.declared.reply.PartReply.TheVariants as part_reply;
ghost use Rattle.zcalls.specs.declared.reply.Reply.TheVariants as reply;
ghost use Rattle.zjute.specs.declared.event.EventKind.TheVariants.{NodeCreated, NodeDeleted, NodeDataChanged, NodeChildrenChanged};
ghost use Rattle.zwatches.specs.changes.Events.{event, events_of, part_events};
ghost use Rattle.zwatches.specs.changes.support.Samples.{create_a_b, delete_a_b, set_a_b, list_a_b, check_a_b};
ghost use Rattle.zwatches.specs.changes.support.Samples.{created_a_b, gone_a_b, written_a_b};

/// The events of a change: of the node, and of its parent if the node was created or deleted. The
/// parent's parent has none.
pub fn events_of_changes()
    ensures create { events_of (act.Create create_a_b) (reply.Created at_a_b)
        ≡ event NodeCreated at_a_b ∷ event NodeChildrenChanged at_a ∷ [] }
    ensures delete { events_of (act.Delete delete_a_b) reply.Deleted
        ≡ event NodeDeleted at_a_b ∷ event NodeChildrenChanged at_a ∷ [] }
    ensures set { events_of (act.SetData set_a_b) (reply.Set some_stat)
        ≡ event NodeDataChanged at_a_b ∷ [] }
    ensures made_path { events_of (act.Create create_a_b) (reply.Created at_a)
        ≡ event NodeCreated at_a ∷ event NodeChildrenChanged [] ∷ [] }
{}

/// The events of a multi: those of each part, in order. A check has none.
pub fn events_of_multis()
    ensures create { part_events (part.Create create_a_b) (part_reply.Created at_a_b)
        ≡ created_a_b }
    ensures delete { part_events (part.Delete delete_a_b) part_reply.Deleted ≡ gone_a_b }
    ensures set { part_events (part.SetData set_a_b) (part_reply.Set some_stat) ≡ written_a_b }
    ensures check { part_events (part.Check check_a_b) part_reply.Checked ≡ [] }
    ensures parts { events_of
        (act.Multi (part.Check check_a_b ∷ part.Delete delete_a_b ∷ part.SetData set_a_b ∷ []))
        (reply.Multi (part_reply.Checked ∷ part_reply.Deleted ∷ part_reply.Set some_stat ∷ []))
        ≡ gone_a_b ++ written_a_b }
{}

/// Calls without events: refused ones, writes of an access control list, and those whose reply
/// shows no changed node.
pub fn calls_without_events()
    ensures refused { events_of (act.Create create_a_b) (reply.Refused NoNode) ≡ [] }
    ensures refused_multi { events_of (act.Multi (part.SetData set_a_b ∷ []))
        (reply.MultiRefused 1 BadVersion) ≡ [] }
    ensures list { events_of (act.SetAcl list_a_b) (reply.Set some_stat) ≡ [] }
    ensures opened { events_of (act.Open 3) (reply.Opened 7 3) ≡ [] }
    ensures pinged { events_of (act.Ping 7) reply.Pinged ≡ [] }
    ensures closed { events_of (act.Close 7) reply.Closed ≡ [] }
    ensures ticked { events_of act.Tick (reply.Ticked 5 1 1) ≡ [] }
{}
