//! Worked examples of the definitions. Each function's contract has some; its body is empty.

ghost use Rattle.std.specs.Prelude.{◌≡◌, [], ◌∷◌, ◌++◌, None, Some, true, false, codes, replicate};
ghost use Rattle.zprotocol.specs.declared.message.Message.TheVariants as message;
ghost use Rattle.zprotocol.specs.declared.process.Process.TheVariants.{Server};
ghost use Rattle.zmaster_log.specs.declared.entry.LogEntry.TheVariants as log;
ghost use Rattle.zmaster_log.specs.declared.entry.News.TheVariants as news;
ghost use Rattle.zmaster_log.specs.Nodes.{is_node_name};
ghost use Rattle.zmaster_log.specs.Log.{entry_played, is_live};
ghost use Rattle.zmaster_log.specs.Bytes.{entry};
ghost use Rattle.zmaster_log.specs.support.Samples.{a, b, c, did, says, two, growing, asked};
ghost use Rattle.zmaster_log.specs.support.Samples.{three, without_1};

/// Names of nodes, and texts that aren't any.
pub fn names_of_nodes()
    ensures name { is_node_name (codes "node-1") ≡ true }
    ensures empty { is_node_name [] ≡ false }
    ensures upper { is_node_name (codes "Node") ≡ false }
    ensures dot { is_node_name (codes "a.b") ≡ false }
    ensures longest { is_node_name (replicate 32 97) ≡ true }
    ensures long { is_node_name (replicate 33 97) ≡ false }
{}

/// The log begins with the opening. Any other entry before it is skipped, and a second opening is.
pub fn logs_begin()
    ensures opening { entry_played {T = Unit {0}} None (log.Opening (a ∷ b ∷ [])) ≡ (Some two, []) }
    ensures early { entry_played {T = Unit {0}} None (log.Retire 1) ≡ (None, []) }
    ensures second { did two (log.Opening (c ∷ [])) ≡ (two, []) }
{}

/// A server joins under the next number, once, and is sent its predecessor.
pub fn servers_join()
    ensures order { (did two (log.Join 3 c)).1 ≡ (Server 3, message.NewPred 1 2) ∷ [] }
    ensures node { growing.nodes ≡ a ∷ b ∷ c ∷ [] }
    ensures later_number { did two (log.Join 4 c) ≡ (two, []) }
    ensures used_number { did two (log.Join 2 c) ≡ (two, []) }
    ensures again { did growing (log.Join 3 c) ≡ (growing, []) }
    ensures another { did growing (log.Join 4 a) ≡ (growing, []) }
{}

/// Reports are played in the order of their author's count, each once.
pub fn reports_are_played()
    ensures have { (did growing (says 3 0 (news.Have 1 None))).1
        ≡ (Server 2, message.NewSucc 1 3 None) ∷ [] }
    ensures again { did asked (says 3 0 (news.Have 1 None)) ≡ (asked, []) }
    ensures one_is_missing { did asked (says 3 2 (news.Joined 1)) ≡ (asked, []) }
    ensures joined { three.master.joining ≡ None }
    ensures stranger { did two (says 3 0 (news.Have 1 None)) ≡ (two, []) }
{}

/// A server that is gone is repaired around. From then on, its reports are skipped, and so is
/// another report that it is gone.
pub fn gone_servers_are_skipped()
    ensures repaired { (did three (says 2 0 (news.Gone 1))).1
        ≡ (Server 2, message.BecomeHead 3) ∷ [] }
    ensures late { did without_1 (says 1 0 (news.Gone 2)) ≡ (without_1, []) }
    ensures twice { did without_1 (says 3 2 (news.Gone 1)) ≡ (without_1, []) }
    ensures gone { is_live without_1 1 ≡ false }
    ensures live { is_live without_1 2 ≡ true }
    ensures itself { (did three (says 3 2 (news.Gone 3))).1
        ≡ (Server 2, message.BecomeTail 3) ∷ [] }
{}

/// A member is ordered to leave, if the master allows it.
pub fn members_retire()
    ensures order { (did three (log.Retire 2)).1 ≡ (Server 2, message.Retire) ∷ [] }
    ensures joining { did growing (log.Retire 2) ≡ (growing, []) }
    ensures outside { did three (log.Retire 4) ≡ (three, []) }
{}

/// The bytes of entries.
pub fn entries_have_bytes()
    ensures opening { entry.spell (log.Opening (a ∷ b ∷ []))
        ≡ 0 ∷ 0 ∷ 0 ∷ 0 ∷ 2 ∷ 0 ∷ 0 ∷ 0 ∷ 1 ∷ 97 ∷ 0 ∷ 0 ∷ 0 ∷ 1 ∷ 98 ∷ [] }
    ensures join { entry.spell (log.Join 3 c) ≡ 1 ∷ 3 ∷ 0 ∷ 0 ∷ 0 ∷ 1 ∷ 99 ∷ [] }
    ensures retire { entry.spell (log.Retire 2) ≡ 2 ∷ 2 ∷ [] }
    ensures have { entry.spell (says 3 0 (news.Have 1 None))
        ≡ 3 ∷ 3 ∷ replicate 8 0 ++ 0 ∷ replicate 7 0 ++ 1 ∷ 0 ∷ [] }
    ensures joined { entry.spell (says 3 1 (news.Joined 1))
        ≡ 3 ∷ 3 ∷ replicate 7 0 ++ 1 ∷ 1 ∷ replicate 7 0 ++ 1 ∷ [] }
    ensures gone { entry.spell (says 2 0 (news.Gone 1)) ≡ 3 ∷ 2 ∷ replicate 8 0 ++ 2 ∷ 1 ∷ [] }
{}
