//! Worked examples of the definitions. Each function's contract has some; its body is empty.

ghost use Rattle.std.specs.Prelude.{◌≡◌, [], ◌∷◌, Option, None, Some, true, false, codes};
ghost use Rattle.zprotocol.specs.declared.message.Message.TheVariants as message;
ghost use Rattle.zprotocol.specs.declared.process.Process.TheVariants.{Master, Server, Client};
ghost use Rattle.zmaster_log.specs.declared.entry.LogEntry.TheVariants as log;
ghost use Rattle.zmaster_log.specs.declared.entry.News.TheVariants as news;
ghost use Rattle.znode.specs.Server.{news_of, puts_to};
ghost use Rattle.znode.specs.Entries.{own_by, without_idle};
ghost use Rattle.zpeers.specs.Incoming.{ArrivingView};
ghost use Rattle.znode.specs.Steps.{Comes, IsDropped};
ghost use Rattle.znode.specs.Turns.{flags_of};
ghost use Rattle.znode.specs.Running.{asked_by};

/// What a server puts to the master becomes reports, and what it puts to others is sent.
pub fn posts_have_ways()
    ensures reports { news_of 3 ((Master, message.Joined 1) ∷ (Server 2, message.Ack 1 7)
        ∷ (Master, message.Gone) ∷ []) ≡ news.Joined 1 ∷ news.Gone 3 ∷ [] }
    ensures sent { puts_to (Server 2) ((Master, message.Joined 1) ∷ (Server 2, message.Ack 1 7)
        ∷ (Server 4, message.Ack 1 8) ∷ []) ≡ message.Ack 1 7 ∷ [] }
{}

/// A node gets its number by the entry that it asked for, and has one number at most.
pub fn nodes_get_numbers()
    ensures opening { own_by None (log.Opening ((97 ∷ []) ∷ [])) ≡ Some 1 }
    ensures join { own_by None (log.Join 3 (97 ∷ [])) ≡ Some 3 }
    ensures retirement { own_by None (log.Retire 3) ≡ None }
    ensures once { own_by (Some 2) (log.Join 3 (97 ∷ [])) ≡ Some 2 }
{}

/// A report about a server that isn't live is dropped, once it comes first.
pub fn idle_reports_are_dropped()
    ensures first { without_idle None (news.Gone 2 ∷ news.Joined 1 ∷ news.Gone 3 ∷ [])
        ≡ news.Joined 1 ∷ news.Gone 3 ∷ [] }
{}

/// A record of a client that is refused is dropped, and what was being loaded of the client. One of
/// a server isn't.
pub fn bad_records_of_clients_are_dropped()
    ensures client { (loaded : Option ArrivingView)
        → Comes 1 (Client 5) (record { tag = 9; bytes = [] }) loaded None None }
    ensures server { IsDropped 1 (Server 2) (record { tag = 9; bytes = [] }) None → ⊥ }
{}

/// The flags of a status.
pub fn statuses_have_flags()
    ensures none { flags_of (record { own = None; is_live = false; has_state = false }) ≡ 0 }
    ensures joining { flags_of (record { own = Some 3; is_live = true; has_state = false }) ≡ 1 }
    ensures member { flags_of (record { own = Some 3; is_live = true; has_state = true }) ≡ 3 }
    ensures gone { flags_of (record { own = Some 3; is_live = false; has_state = true }) ≡ 6 }
{}

/// Words, and words that are none.
pub fn words_are_read()
    ensures name { asked_by (codes "zk_node" ∷ codes "a" ∷ []) ≡ Some (codes "a", false) }
    ensures opens { asked_by (codes "zk_node" ∷ codes "a" ∷ codes "--opens" ∷ [])
        ≡ Some (codes "a", true) }
    ensures other { asked_by (codes "zk_node" ∷ codes "a" ∷ codes "--open" ∷ []) ≡ None }
    ensures no_name { asked_by (codes "zk_node" ∷ codes "A" ∷ []) ≡ None }
{}
