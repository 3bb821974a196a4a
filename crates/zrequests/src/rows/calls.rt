//! The calls of requests of session 9, on the terms of the profile with a tick of 2,000
//! milliseconds.

ghost use Rattle.std.specs.Prelude.{◌≡◌, [], ◌∷◌, pos, negsuc, codes, None, Some, Ok, replicate};
ghost use Rattle.ztree.specs.support.Samples.{at_a};
ghost use Rattle.zcalls.specs.Part.{named};
ghost use Rattle.zcalls.specs.declared.call.Lifetime.TheVariants.{Ephemeral, WithTtl, Container};
ghost use Rattle.zcalls.specs.declared.call.Expected.TheVariants.{Any, Exactly};
ghost use Rattle.zcalls.specs.declared.call.Part.TheVariants as part;
ghost use Rattle.zcalls.specs.declared.call.Update.TheVariants as act;
ghost use Rattle.zcalls.specs.declared.call.Query.TheVariants.{GetData, Exists, GetChildren};
ghost use Rattle.zcalls.specs.declared.call.Call.TheVariants.{Update, Query};
ghost use Rattle.zjute.specs.declared.part.PartRequest.TheVariants as of_multi;
ghost use Rattle.zjute.specs.declared.part.LookPart.TheVariants as of_look;
ghost use Rattle.zjute.specs.declared.request.Asked.TheVariants as asked;
ghost use Rattle.zrequests.specs.declared.limits.TheConstants.{NO_VERSION};
ghost use Rattle.zjute.specs.declared.code.Code.TheVariants.{BadArguments, InvalidAcl};
ghost use Rattle.zrequests.specs.Requests.{calls_in, parts_in, refused_in};
ghost use Rattle.zrequests.specs.support.Samples.{bad, unimplemented, invalid_acl, auth_failed, text_a};
ghost use Rattle.zrequests.specs.support.Samples.{marshalling, terms, small};
ghost use Rattle.zrequests.specs.support.Samples.{create_a, timed_a, at_version, set_a, set_acl_a, look_a};

/// Creates: an ephemeral of the session, a node with a TTL, and a container.
#[tactic(auto, unfolding(zpath::specs::Faults::fault_of))]
pub fn calls_of_creates()
    ensures create { calls_in terms 9 (asked.Create create_a) ≡ Ok (Update (act.Create
        (record { path = at_a; kind = named (Ephemeral 9); bytes = [] })) ∷ []) }
    ensures create2 { calls_in terms 9 (asked.Create2 create_a) ≡ Ok (Update (act.Create
        (record { path = at_a; kind = named (Ephemeral 9); bytes = [] })) ∷ []) }
    ensures timed { calls_in terms 9 (asked.CreateTtl timed_a) ≡ Ok (Update (act.Create
        (record { path = at_a; kind = named (WithTtl 2); bytes = [] })) ∷ []) }
    ensures closed { calls_in terms 9 (asked.Create (record create_a { acls = Some [] }))
        ≡ invalid_acl }
    ensures null { calls_in terms 9 (asked.Create (record create_a { acls = None })) ≡ invalid_acl }
    ensures no_path { calls_in terms 9 (asked.Create (record create_a { path = None })) ≡ bad }
    ensures flag_4 { calls_in terms 9 (asked.Create (record create_a { flags = pos 4 }))
        ≡ Ok (Update (act.Create
        (record { path = at_a; kind = named Container; bytes = [] })) ∷ []) }
    ensures container { calls_in terms 9 (asked.CreateContainer (record create_a { flags = pos 4 }))
        ≡ Ok (Update (act.Create
        (record { path = at_a; kind = named Container; bytes = [] })) ∷ []) }
    ensures no_time { calls_in terms 9 (asked.CreateTtl (record timed_a { ttl = pos 0 })) ≡ bad }
{}

/// Changes and a check of a node: version -1 matches any, and no node has version -2.
#[tactic(auto, unfolding(zpath::specs::Faults::fault_of))]
pub fn calls_of_changes()
    ensures delete { calls_in terms 9 (asked.Delete at_version) ≡ Ok (Update (act.Delete
        (record { path = at_a; version = Exactly NO_VERSION })) ∷ []) }
    ensures set { calls_in terms 9 (asked.SetData set_a) ≡ Ok (Update (act.SetData
        (record { path = at_a; bytes = 7 ∷ []; version = Any })) ∷ []) }
    ensures check { calls_in terms 9 (asked.Check at_version) ≡ Ok (Update (act.Multi (part.Check
        (record { path = at_a; version = Exactly NO_VERSION }) ∷ [])) ∷ []) }
{}

/// Requests on watches: each asks whether the node exists, once its number is known. Then comes the
/// path. The five lists of a setWatches2 are asked for in order.
#[tactic(auto, unfolding(zpath::specs::Faults::fault_of))]
pub fn calls_of_watches()
    ensures add { calls_in terms 9 (asked.AddWatch (record { path = text_a; mode = pos 1 }))
        ≡ Ok (Query (Exists at_a) ∷ []) }
    ensures no_mode { calls_in terms 9 (asked.AddWatch (record { path = text_a; mode = pos 2 }))
        ≡ marshalling }
    ensures remove { calls_in terms 9 (asked.RemoveWatches (record { path = text_a; kind = pos 3 }))
        ≡ Ok (Query (Exists at_a) ∷ []) }
    ensures check { calls_in terms 9 (asked.CheckWatches (record { path = text_a; kind = pos 1 }))
        ≡ Ok (Query (Exists at_a) ∷ []) }
    ensures no_type { calls_in terms 9 (asked.RemoveWatches (record { path = None; kind = pos 4 }))
        ≡ marshalling }
    ensures no_path { calls_in terms 9 (asked.AddWatch (record { path = None; mode = pos 0 }))
        ≡ bad }
    ensures all { calls_in terms 9 (asked.SetWatches2 (record {
      watches = record {
        relative_zxid = pos 1;
        data_watches = codes "/a" ∷ [];
        exist_watches = [];
        child_watches = [];
      };
      persistent_watches = [];
      recursive_watches = codes "/a" ∷ [];
    })) ≡ Ok (Query (Exists at_a) ∷ Query (Exists at_a) ∷ []) }
{}

/// Requests that read.
#[tactic(auto, unfolding(zpath::specs::Faults::fault_of))]
pub fn calls_of_reads()
    ensures exists { calls_in terms 9 (asked.Exists look_a) ≡ Ok (Query (Exists at_a) ∷ []) }
    ensures get { calls_in terms 9 (asked.GetData look_a) ≡ Ok (Query (GetData at_a) ∷ []) }
    ensures names { calls_in terms 9 (asked.GetChildren look_a)
        ≡ Ok (Query (GetChildren at_a) ∷ []) }
    ensures names_and_stat { calls_in terms 9 (asked.GetChildren2 look_a)
        ≡ Ok (Query (GetChildren at_a) ∷ Query (Exists at_a) ∷ []) }
    ensures acl { calls_in terms 9 (asked.GetAcl text_a) ≡ Ok (Query (Exists at_a) ∷ []) }
    ensures several { calls_in terms 9
        (asked.MultiRead (of_look.GetData look_a ∷ of_look.GetChildren look_a ∷ []))
        ≡ Ok (Query (GetData at_a) ∷ Query (GetChildren at_a) ∷ []) }
    ensures watches { calls_in terms 9 (asked.SetWatches (record {
      relative_zxid = pos 4;
      data_watches = codes "/a" ∷ [];
      exist_watches = [];
      child_watches = codes "/" ∷ [];
    })) ≡ Ok (Query (Exists at_a) ∷ Query (Exists []) ∷ []) }
    ensures null { calls_in terms 9 (asked.GetAcl None) ≡ bad }
{}

/// Multis: an empty one makes no call, and more parts than the terms say are refused.
#[tactic(auto, unfolding(zpath::specs::Faults::fault_of))]
pub fn calls_of_multis()
    ensures none { calls_in terms 9 (asked.Multi []) ≡ Ok [] }
    ensures parts { calls_in terms 9
        (asked.Multi (of_multi.Check at_version ∷ of_multi.SetData set_a ∷ []))
        ≡ Ok (Update (act.Multi
        (part.Check (record { path = at_a; version = Exactly NO_VERSION })
        ∷ part.SetData (record { path = at_a; bytes = 7 ∷ []; version = Any }) ∷ [])) ∷ []) }
    ensures container { calls_in terms 9
        (asked.Multi (of_multi.CreateContainer (record create_a { flags = pos 4 }) ∷ []))
        ≡ Ok (Update (act.Multi (part.Create
        (record { path = at_a; kind = named Container; bytes = [] }) ∷ [])) ∷ []) }
    ensures too_many { calls_in terms 9 (asked.Multi (replicate 65 (of_multi.SetData set_a)))
        ≡ bad }
    ensures one { calls_in small 9 (asked.Multi (of_multi.Check at_version ∷ []))
        ≡ Ok (Update (act.Multi
        (part.Check (record { path = at_a; version = Exactly NO_VERSION }) ∷ [])) ∷ []) }
    ensures two { calls_in small 9 (asked.Multi (replicate 2 (of_multi.Check at_version))) ≡ bad }
{}

/// Small terms: a byte of data, and one part. So two bytes, and two looks, are refused.
#[tactic(auto, unfolding(zpath::specs::Faults::fault_of))]
pub fn calls_within_terms()
    ensures set { calls_in small 9 (asked.SetData set_a) ≡ Ok (Update (act.SetData
        (record { path = at_a; bytes = 7 ∷ []; version = Any })) ∷ []) }
    ensures too_long { calls_in small 9 (asked.SetData (record set_a { bytes = Some (7 ∷ 7 ∷ []) }))
        ≡ bad }
    ensures not_made { calls_in small 9
        (asked.Create (record create_a { bytes = Some (7 ∷ 7 ∷ []) })) ≡ bad }
    ensures look { calls_in small 9 (asked.MultiRead (of_look.GetData look_a ∷ []))
        ≡ Ok (Query (GetData at_a) ∷ []) }
    ensures looks { calls_in small 9 (asked.MultiRead (replicate 2 (of_look.GetData look_a)))
        ≡ bad }
    ensures part_too_long { refused_in small
        (of_multi.SetData (record set_a { bytes = Some (7 ∷ 7 ∷ []) })) ≡ Some BadArguments }
{}

/// The parts of a multi: one that is refused at once has a part in its place that no tree does, and
/// none after it.
#[tactic(auto, unfolding(zpath::specs::Faults::fault_of))]
pub fn parts_of_multis()
    ensures bad_path { parts_in terms 9 (of_multi.SetData set_a
        ∷ of_multi.SetData (record set_a { path = None }) ∷ of_multi.SetData set_a ∷ [])
        ≡ part.SetData (record { path = at_a; bytes = 7 ∷ []; version = Any })
        ∷ part.Delete (record { path = []; version = Any }) ∷ [] }
    ensures its_code { refused_in terms (of_multi.SetData (record set_a { path = None }))
        ≡ Some BadArguments }
    ensures bad_acl { refused_in terms (of_multi.Create (record create_a { acls = None }))
        ≡ Some InvalidAcl }
    ensures no_code { refused_in terms (of_multi.SetData set_a) ≡ None }
{}

/// Writes of an ACL: version -1 matches any. The path comes first, then the ACL.
#[tactic(auto, unfolding(zpath::specs::Faults::fault_of))]
pub fn calls_of_acls()
    ensures open { calls_in terms 9 (asked.SetAcl set_acl_a) ≡ Ok (Update (act.SetAcl
        (record { path = at_a; version = Exactly 0 })) ∷ []) }
    ensures any { calls_in terms 9 (asked.SetAcl (record set_acl_a { version = negsuc 0 }))
        ≡ Ok (Update (act.SetAcl (record { path = at_a; version = Any })) ∷ []) }
    ensures no_version { calls_in terms 9 (asked.SetAcl (record set_acl_a { version = negsuc 1 }))
        ≡ Ok (Update (act.SetAcl (record { path = at_a; version = Exactly NO_VERSION })) ∷ []) }
    ensures own { calls_in terms 9
        (asked.SetAcl (record set_acl_a { path = Some (codes "/zookeeper") })) ≡ bad }
    ensures closed { calls_in terms 9 (asked.SetAcl (record set_acl_a { acls = Some [] }))
        ≡ invalid_acl }
    ensures null { calls_in terms 9 (asked.SetAcl (record set_acl_a { acls = None }))
        ≡ invalid_acl }
    ensures no_path { calls_in terms 9
        (asked.SetAcl (record set_acl_a { path = None; acls = None })) ≡ bad }
{}

/// Requests of the session, and unsupported ones.
pub fn calls_of_sessions()
    ensures close { calls_in terms 9 asked.CloseSession ≡ Ok (Update (act.Close 9) ∷ []) }
    ensures ping { calls_in terms 9 asked.Ping ≡ Ok [] }
    ensures sync { calls_in terms 9 (asked.Sync text_a) ≡ Ok [] }
    ensures digest { calls_in terms 9 (asked.Auth (record {
      kind = pos 0;
      scheme = Some (codes "digest");
      auth = None;
    })) ≡ Ok [] }
    ensures kerberos { calls_in terms 9 (asked.Auth (record {
      kind = pos 0;
      scheme = Some (codes "sasl");
      auth = None;
    })) ≡ auth_failed }
    ensures other { calls_in terms 9 (asked.Other (pos 16) []) ≡ unimplemented }
    ensures create_session { calls_in terms 9 (asked.Other (negsuc 9) []) ≡ marshalling }
    ensures token { calls_in terms 9 (asked.Sasl []) ≡ Ok [] }
    ensures who { calls_in terms 9 asked.WhoAmI ≡ Ok [] }
{}
