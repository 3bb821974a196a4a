//! Worked examples. Each clause is one; the body does nothing.

ghost use Rattle.std.specs.Prelude.{◌≡◌, ◌*◌, [], replicate, Some};
ghost use Rattle.std.specs.FinMap.{get};
ghost use Rattle.ztree.specs.support.Samples.{some_node, two_nodes};
ghost use Rattle.ztree.specs.Tree.{stat_with};
ghost use Rattle.zcalls.specs.declared.refusal.Refusal.TheVariants.{NoNode};
ghost use Rattle.zcalls.specs.declared.reply.PartReply.TheVariants.{Checked};
ghost use Rattle.zcalls.specs.declared.reply.Reply.TheVariants.{Deleted, Pinged, Refused, Multi};
ghost use Rattle.zcalls.specs.declared.reply.Reply.TheVariants.{Data as DataOf, Exists, Children};
ghost use Rattle.zops.specs.declared.limits.TheConstants.{MAX_APPLIED};
ghost use Rattle.zops.specs.Machine.{opening_machine, machine_within};
ghost use Rattle.zops.specs.support.Rows.{seven_nodes, RefusesTheEighth};
ghost use Rattle.zops.specs.Restored.{rooted_machine, with_plain, with_reply, IsOfUpdate, IsDated};

/// The limit as a number.
pub fn limit_is_a_number()
    ensures { MAX_APPLIED ≡ 4611686018427387903 }
{}

/// Whether a node is of a later change or tick than its tree. The greatest zxid of `some_node` is
/// 3, and its last tick is 5.
pub fn dates()
    ensures yes { IsDated 3 5 some_node }
    ensures czxid { IsDated 3 5 (record some_node { czxid = 4 }) → ⊥ }
    ensures mzxid { IsDated 3 5 (record some_node { mzxid = 4 }) → ⊥ }
    ensures pzxid { IsDated 2 5 some_node → ⊥ }
    ensures ctime { IsDated 3 5 (record some_node { ctime = 6 }) → ⊥ }
    ensures mtime { IsDated 3 4 some_node → ⊥ }
{}

/// Which replies are cached: those to updates. A multi has at most 1,024 parts.
pub fn cached_replies()
    ensures deleted { IsOfUpdate Deleted }
    ensures refused { IsOfUpdate (Refused NoNode) }
    ensures multi { IsOfUpdate (Multi (replicate 1024 Checked)) }
    ensures too_many { IsOfUpdate (Multi (replicate 1025 Checked)) → ⊥ }
    ensures names { IsOfUpdate (Children []) → ⊥ }
    ensures content { IsOfUpdate (DataOf [] (stat_with some_node 0)) → ⊥ }
    ensures exists { IsOfUpdate (Exists (stat_with some_node 0)) → ⊥ }
{}

/// The machine restored from rows: a reply is cached for its own client, and the tree stays.
pub fn rows_make_a_machine()
    ensures applied { (rooted_machine some_node 8 40 7 seven_nodes).applied ≡ 7 }
    ensures time { (rooted_machine some_node 8 40 7 seven_nodes).service.plain.time ≡ 8 }
    ensures zxid { (rooted_machine some_node 8 40 7 seven_nodes).service.plain.zxid ≡ 40 }
    ensures tree { (with_plain opening_machine two_nodes).service.plain ≡ two_nodes }
    ensures reply { get (with_reply opening_machine 3 5 Deleted).service.kept 3
        ≡ Some (record { number = 5; reply = Deleted }) }
    ensures other { get
        (with_reply (with_reply opening_machine 3 5 Deleted) 4 1 Pinged).service.kept 3
        ≡ Some (record { number = 5; reply = Deleted }) }
    ensures stays { (with_reply opening_machine 3 5 Deleted).service.plain
        ≡ opening_machine.service.plain }
{}

/// The limits of a machine's tree.
pub fn limits_of_a_machine()
    ensures opening { (machine_within seven_nodes).service.plain.limits.nodes ≡ 7 }
    ensures profile { opening_machine.service.plain.limits.nodes ≡ 4096 }
    ensures rooted { (rooted_machine some_node 8 40 7 seven_nodes).service.plain.limits.nodes ≡ 7 }
    ensures eighth { RefusesTheEighth }
{}
