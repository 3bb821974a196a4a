//! The service's own nodes, and what a client names.

ghost use Rattle.std.specs.Prelude.{◌≡◌, pos, negsuc, true, false, [], ◌∷◌, codes, None, Some};
ghost use Rattle.zjute.specs.declared.code.Code.TheVariants as code;
ghost use Rattle.zjute.specs.declared.reply.Body.TheVariants as body;
ghost use Rattle.zjute.specs.declared.request.Asked.TheVariants as asked;
ghost use Rattle.zresponses.specs.declared.own.OwnNode.TheVariants.{Service, Config, Quota};
ghost use Rattle.zresponses.specs.Answers.{acls_for_all, done, failed};
ghost use Rattle.zresponses.specs.Naming.{named, others};
ghost use Rattle.zresponses.specs.Own.{is_own, node_at, own_names, own_stat, refused_answer, stat_with};
ghost use Rattle.zresponses.specs.Stats.{told};
ghost use Rattle.zresponses.specs.support.Samples.{look_of, look_b};

/// The paths of the service's own nodes.
pub fn own_paths()
    ensures service { node_at (codes "/zookeeper") ≡ Some Service }
    ensures quota { node_at (codes "/zookeeper/quota") ≡ Some Quota }
    ensures other { node_at (codes "/zookeeper/a") ≡ None }
    ensures own { is_own (codes "/zookeeper") ≡ true }
    ensures below { is_own (codes "/zookeeper/a") ≡ true }
    ensures longer { is_own (codes "/zookeepers") ≡ false }
    ensures shorter { is_own (codes "/zoo") ≡ false }
    ensures left { others (codes "/a" ∷ codes "/zookeeper" ∷ codes "/b" ∷ [])
        ≡ codes "/a" ∷ codes "/b" ∷ [] }
{}

/// Reads of them. A request that reads none of them gets the code of its refusal.
pub fn own_nodes_are_read()
    ensures exists { refused_answer code.BadArguments
        (asked.Exists (look_of (codes "/zookeeper")))
        ≡ done (body.Stat (stat_with (negsuc 1) (pos 0) (pos 2))) }
    ensures bytes { refused_answer code.BadArguments
        (asked.GetData (look_of (codes "/zookeeper/config")))
        ≡ done (body.DataStat (Some []) (own_stat Config)) }
    ensures names { refused_answer code.BadArguments
        (asked.GetChildren2 (look_of (codes "/zookeeper")))
        ≡ done (body.NamesStat (own_names Service) (own_stat Service)) }
    ensures acl { refused_answer code.BadArguments
        (asked.GetAcl (Some (codes "/zookeeper/config")))
        ≡ done (body.AclsStat (acls_for_all (pos 1)) (own_stat Config)) }
    ensures no_node { refused_answer code.BadArguments
        (asked.GetData (look_of (codes "/zookeeper/a")))
        ≡ failed code.NoNode }
    ensures other { refused_answer code.BadArguments (asked.GetData look_b)
        ≡ failed code.BadArguments }
    ensures sync { refused_answer code.BadArguments (asked.Sync None) ≡ failed code.BadArguments }
{}

/// Zxids are told with a base. A client that has seen none of this start names one below 0.
pub fn zxids_have_a_base()
    ensures told { told 1048576 7 ≡ pos 1048583 }
    ensures named { named 1048576 (pos 1048583) ≡ pos 7 }
    ensures earlier { named 1048576 (pos 1048575) ≡ negsuc 0 }
    ensures none { named 0 (pos 7) ≡ pos 7 }
{}
