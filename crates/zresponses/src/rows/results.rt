//! Results of parts.

ghost use Rattle.std.specs.Prelude.{◌≡◌, [], ◌∷◌, Some};
ghost use Rattle.ztree.specs.support.Samples.{at_a, at_a_b, some_stat};
ghost use Rattle.zcalls.specs.declared.call.Part.TheVariants as part;
ghost use Rattle.zcalls.specs.declared.refusal.Refusal.TheVariants.{NoNode, BadVersion};
ghost use Rattle.zcalls.specs.declared.reply.PartReply.TheVariants as part_reply;
ghost use Rattle.zcalls.specs.declared.reply.Reply.TheVariants as reply;
ghost use Rattle.zjute.specs.declared.code.Code.TheVariants as code;
ghost use Rattle.zjute.specs.declared.part.PartRequest.TheVariants as asked;
ghost use Rattle.zjute.specs.declared.reply.PartResult.TheVariants as result_of;
ghost use Rattle.zresponses.specs.Results.{refused_results, part_code, part_result, look_result};
ghost use Rattle.zresponses.specs.support.Samples.{clock, now, reported_stat, create_b, reported_of_b, text_a_b, asked_b, at_b};

/// The results of a refused multi of four parts: none was done. A part that is refused at once has
/// its own code, and not the tree's.
#[tactic(auto, unfolding(zpath::specs::Faults::fault_of))]
pub fn refused_multis()
    ensures first { refused_results 4 1 code.NoNode ≡ result_of.Error code.NoNode
        ∷ result_of.Error code.RuntimeInconsistency ∷ result_of.Error code.RuntimeInconsistency
        ∷ result_of.Error code.RuntimeInconsistency ∷ [] }
    ensures third { refused_results 4 3 code.BadVersion ≡ result_of.Error code.Ok
        ∷ result_of.Error code.Ok ∷ result_of.Error code.BadVersion
        ∷ result_of.Error code.RuntimeInconsistency ∷ [] }
    ensures at_once { part_code clock.terms (asked.Create asked_b ∷ asked.Create asked_b ∷ []) 2
        BadVersion ≡ code.InvalidAcl }
    ensures by_the_tree { part_code clock.terms (asked.Check at_b ∷ asked.Create asked_b ∷ []) 1
        BadVersion ≡ code.BadVersion }
    ensures last { refused_results 2 2 code.NoNode
        ≡ result_of.Error code.Ok ∷ result_of.Error code.NoNode ∷ [] }
{}

/// The results of parts that were done.
pub fn done_parts()
    ensures create { part_result clock now (asked.Create asked_b) (part.Create create_b)
        (part_reply.Created at_a_b) ≡ result_of.Create text_a_b }
    ensures create2 { part_result clock now (asked.Create2 asked_b) (part.Create create_b)
        (part_reply.Created at_a_b) ≡ result_of.Create2 text_a_b reported_of_b }
    ensures container { part_result clock now (asked.CreateContainer asked_b) (part.Create create_b)
        (part_reply.Created at_a_b) ≡ result_of.Create2 text_a_b reported_of_b }
    ensures delete { part_result clock now (asked.Create asked_b) (part.Create create_b)
        part_reply.Deleted ≡ result_of.Delete }
    ensures set { part_result clock now (asked.Create asked_b) (part.Create create_b)
        (part_reply.Set some_stat) ≡ result_of.SetData reported_stat }
    ensures check { part_result clock now (asked.Create asked_b) (part.Create create_b)
        part_reply.Checked ≡ result_of.Check }
{}

/// The results of the parts of a multiRead.
pub fn done_looks()
    ensures bytes { look_result clock (reply.Data (7 ∷ []) some_stat)
        ≡ result_of.GetData (Some (7 ∷ [])) reported_stat }
    ensures names { look_result clock (reply.Children at_a) ≡ result_of.GetChildren at_a }
    ensures refused { look_result clock (reply.Refused NoNode) ≡ result_of.Error code.NoNode }
    ensures other { look_result clock reply.Pinged ≡ result_of.Error code.SystemError }
{}
