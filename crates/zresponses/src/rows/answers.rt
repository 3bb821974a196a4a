//! Answers to requests.

ghost use Rattle.std.specs.Prelude.{◌≡◌, [], ◌∷◌, codes, None, Some};
ghost use Rattle.ztree.specs.support.Samples.{at_a, at_a_b, some_stat};
ghost use Rattle.zcalls.specs.declared.call.Call.TheVariants as call;
ghost use Rattle.zcalls.specs.declared.call.Query.TheVariants.{Exists, GetChildren};
ghost use Rattle.zcalls.specs.declared.call.Update.TheVariants as act;
ghost use Rattle.zcalls.specs.declared.refusal.Refusal.TheVariants.{NoNode, BadVersion};
ghost use Rattle.zcalls.specs.declared.reply.Reply.TheVariants as reply;
ghost use Rattle.zjute.specs.declared.code.Code.TheVariants as code;
ghost use Rattle.zjute.specs.declared.reply.Body.TheVariants as body;
ghost use Rattle.zjute.specs.declared.request.Asked.TheVariants as asked;
ghost use Rattle.zresponses.specs.Answers.{done, failed, answer_of, children_answer, open_acls};
ghost use Rattle.zresponses.specs.Answering.{answer_in};
ghost use Rattle.zresponses.specs.support.Samples.{clock, now, reported_stat, create_b, reported_of_b, text_a_b, asked_b, look_b};
ghost use Rattle.zresponses.specs.support.Samples.{set_acl_b, to_list_b};

/// Answers from one reply.
pub fn answers_by_one_reply()
    ensures created { answer_of clock (reply.Created at_a_b) ≡ done (body.Path text_a_b) }
    ensures deleted { answer_of clock reply.Deleted ≡ done body.Nothing }
    ensures set { answer_of clock (reply.Set some_stat) ≡ done (body.Stat reported_stat) }
    ensures exists { answer_of clock (reply.Exists some_stat) ≡ done (body.Stat reported_stat) }
    ensures bytes { answer_of clock (reply.Data (7 ∷ []) some_stat)
        ≡ done (body.DataStat (Some (7 ∷ [])) reported_stat) }
    ensures names { answer_of clock (reply.Children at_a_b) ≡ done (body.Names at_a_b) }
    ensures closed { answer_of clock reply.Closed ≡ done body.Nothing }
    ensures refused { answer_of clock (reply.Refused NoNode) ≡ failed code.NoNode }
    ensures check { answer_of clock (reply.MultiRefused 1 BadVersion) ≡ failed code.BadVersion }
{}

/// Answers with a stat: that of the created node, and not of its parent.
pub fn answers_with_a_stat()
    ensures create { answer_in clock now (asked.Create asked_b)
        (call.Update (act.Create create_b) ∷ []) (reply.Created at_a_b ∷ [])
        ≡ done (body.Path text_a_b) }
    ensures create2 { answer_in clock now (asked.Create2 asked_b)
        (call.Update (act.Create create_b) ∷ []) (reply.Created at_a_b ∷ [])
        ≡ done (body.PathStat text_a_b reported_of_b) }
    ensures container { answer_in clock now (asked.CreateContainer asked_b)
        (call.Update (act.Create create_b) ∷ []) (reply.Created at_a_b ∷ [])
        ≡ done (body.PathStat text_a_b reported_of_b) }
    ensures no_create2 { answer_in clock now (asked.Create2 asked_b)
        (call.Update (act.Create create_b) ∷ []) (reply.Refused NoNode ∷ [])
        ≡ failed code.NoNode }
    ensures names { answer_in clock now (asked.GetChildren2 look_b)
        (call.Query (GetChildren at_a_b) ∷ call.Query (Exists at_a_b) ∷ [])
        (reply.Children at_a ∷ reply.Exists some_stat ∷ [])
        ≡ done (body.NamesStat at_a reported_stat) }
    ensures set_acl { answer_in clock now (asked.SetAcl set_acl_b)
        (call.Update (act.SetAcl to_list_b) ∷ []) (reply.Set some_stat ∷ [])
        ≡ done (body.Stat reported_stat) }
    ensures set_acl_version { answer_in clock now (asked.SetAcl set_acl_b)
        (call.Update (act.SetAcl to_list_b) ∷ []) (reply.Refused BadVersion ∷ [])
        ≡ failed code.BadVersion }
    ensures set_no_acl { answer_in clock now (asked.SetAcl set_acl_b)
        (call.Update (act.SetAcl to_list_b) ∷ []) (reply.Refused NoNode ∷ [])
        ≡ failed code.NoNode }
    ensures no_names { children_answer clock (reply.Refused NoNode) (reply.Refused NoNode)
        ≡ failed code.NoNode }
    ensures acl { answer_in clock now (asked.GetAcl (Some text_a_b))
        (call.Query (Exists at_a_b) ∷ []) (reply.Exists some_stat ∷ [])
        ≡ done (body.AclsStat open_acls reported_stat) }
{}

/// Requests without calls, and one whose call has no reply.
pub fn answers_without_calls()
    ensures ping { answer_in clock now asked.Ping [] [] ≡ done body.Nothing }
    ensures sync { answer_in clock now (asked.Sync (Some text_a_b)) [] []
        ≡ done (body.Path text_a_b) }
    ensures token { answer_in clock now (asked.Sasl []) [] [] ≡ done body.NoToken }
    ensures who { answer_in clock now asked.WhoAmI [] []
        ≡ done (body.Client (codes "world") (codes "anyone")) }
    ensures multi { answer_in clock now (asked.Multi []) [] [] ≡ done (body.Results []) }
    ensures no_reply { answer_in clock now (asked.GetAcl (Some text_a_b))
        (call.Query (Exists at_a_b) ∷ []) [] ≡ failed code.SystemError }
{}
