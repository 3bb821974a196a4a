//! Worked examples of the server table, of views and of machines. Each clause is one; the bodies do
//! nothing. The machine counts its entries. The servers are those of `specs/support/Rows.antt`.

ghost use Rattle.std.specs.Prelude.{◌≡◌, ◌+◌, ◌-◌, ℕ, true, false, None, Some, [], ◌∷◌, ◌++◌};
ghost use Rattle.ztree.specs.declared.limits.TheConstants.{MAX_CLIENTS};
ghost use Rattle.zprotocol.specs.declared.limits.TheConstants.{MAX_SERVERS, MAX_LOG_NUMBER, MAX_EPOCH, PROCESSES};
ghost use Rattle.zprotocol.specs.server.Laws.{is_answer};
ghost use Rattle.zprotocol.specs.declared.message.Message.TheVariants as message;
ghost use Rattle.zprotocol.specs.declared.process.Process.TheVariants.{Master, Server, Client};
ghost use Rattle.zprotocol.specs.server.Machine.{replay};
ghost use Rattle.zprotocol.specs.Places.{is_server, place_of, process_at};
ghost use Rattle.zprotocol.specs.server.View.{spare, is_initialised, is_head, is_tail};
ghost use Rattle.zprotocol.specs.server.Table.{is_retirement};
ghost use Rattle.zprotocol.specs.server.support.Rows.{number_reply, counting_machine, query};
ghost use Rattle.zprotocol.specs.server.support.Rows.{call, logged, submit, ask, silent_submit, answer};
ghost use Rattle.zprotocol.specs.server.support.Rows.{update_of, update_to, to_4, ack_to, have};
ghost use Rattle.zprotocol.specs.server.support.Rows.{with_pred, behind_2, before_4, as_tail, with_sent};
ghost use Rattle.zprotocol.specs.server.support.Rows.{middle, head, tail, single, nearly_full, full};
ghost use Rattle.zprotocol.specs.server.support.Rows.{at_start, opening, opening_member};
ghost use Rattle.zprotocol.specs.server.support.Rows.{with_entry_kept, with_entry};
ghost use Rattle.zprotocol.specs.server.support.Rows.{joining, joining_with_sent, nine};
ghost use Rattle.zprotocol.specs.server.support.Rows.{has_joined, joined_posts};
ghost use Rattle.zprotocol.specs.server.support.Rows.{old_tail, handed_over, snapshot_post};
ghost use Rattle.zprotocol.specs.server.support.Rows.{after, Ignores, after_submit, after_ask};
ghost use Rattle.zprotocol.specs.server.support.Rows.{after_update, after_silent_update, after_ack};
ghost use Rattle.zprotocol.specs.server.support.Rows.{after_snapshot, after_pred, after_succ};
ghost use Rattle.zprotocol.specs.server.support.Rows.{after_head, after_tail, after_call_12};
ghost use Rattle.zprotocol.specs.server.support.Rows.{stops, is_unheard};
ghost use Rattle.zprotocol.specs.server.support.Rows.{one, two, counted_log, on_one, on_two};

/// What an initialised server between two others ignores: nothing changes, and nothing is sent.
pub fn middle_ignores()
    ensures update_of_old_epoch { Ignores middle (Server 1) (update_of 3 8) }
    ensures update_beyond_the_next { Ignores middle (Server 1) (update_of 4 9) }
    ensures update_again { Ignores middle (Server 1) (update_of 4 7) }
    ensures update_of_a_stranger { Ignores middle (Server 2) (update_of 4 8) }
    ensures update_of_the_successor { Ignores middle (Server 3) (update_of 5 8) }
    ensures ack_of_old_epoch { Ignores middle (Server 3) (message.Ack 4 7) }
    ensures ack_of_the_predecessor { Ignores middle (Server 1) (message.Ack 4 7) }
    ensures snapshot { Ignores middle (Server 1) (message.Snapshot 4 nine) }
    ensures query { Ignores middle (Client 5) ask }
    ensures submit { Ignores middle (Client 5) submit }
    ensures joined { Ignores middle (Server 3) (message.Joined 5) }
    ensures gone { Ignores middle (Server 1) message.Gone }
    ensures order_of_a_server { Ignores middle (Server 1) (message.BecomeHead 6) }
    ensures answer { Ignores middle (Server 3) (message.Answer 17 (number_reply 7)) }
{}

/// Updates go down the chain: a head forwards and doesn't reply; a tail replies to the client and
/// acknowledges.
pub fn updates_go_down()
    ensures head_forwards { after_submit head ≡ (with_entry_kept head, update_to 3 5 8 ∷ []) }
    ensures alone_answers { after_submit single ≡ (with_entry single, answer 8 ∷ []) }
    ensures alone_has_no_reply { after single (Client 5) silent_submit ≡ (with_entry single, []) }
    ensures last_number { after_submit nearly_full
        ≡ (record full { machine = Some 8 }, answer 8 ∷ []) }
    ensures no_number_left { after_submit full ≡ (full, []) }
    ensures middle_forwards { after_update middle 8
        ≡ (with_entry_kept middle, update_to 3 5 8 ∷ []) }
    ensures tail_acknowledges { after_update tail 8
        ≡ (with_entry tail, answer 8 ∷ ack_to 1 4 8 ∷ []) }
    ensures tail_without_reply { after_silent_update tail ≡ (with_entry tail, ack_to 1 4 8 ∷ []) }
    ensures joining_has_no_state { Ignores joining (Server 1) (update_of 4 1) }
    ensures spare_has_no_state { Ignores spare (Client 5) submit }
{}

/// Only a tail answers queries, and acknowledgements go up the chain.
pub fn tail_answers()
    ensures tail_answers { after_ask tail ≡ (tail, answer 7 ∷ []) }
    ensures alone_answers { after_ask single ≡ (single, answer 7 ∷ []) }
    ensures head_is_silent { Ignores head (Client 5) ask }
    ensures joining_is_silent { Ignores joining (Client 5) ask }
    ensures ack_goes_up { after_ack middle 6
        ≡ (with_sent (logged 7 ∷ []) middle, ack_to 1 4 6 ∷ []) }
    ensures ack_of_all { after_ack middle 7 ≡ (with_sent [] middle, ack_to 1 4 7 ∷ []) }
    ensures ack_ends_at_the_head { after_ack head 7 ≡ (with_sent [] head, []) }
    ensures tail_has_no_successor { Ignores tail (Server 3) (message.Ack 5 7) }
{}

/// What a server does when the master gives it a new neighbour, or none.
pub fn neighbours_change()
    ensures new_pred { after_pred middle ≡ (behind_2 middle, have 8 (Some 7) ∷ []) }
    ensures new_pred_without_state { after_pred joining ≡ (behind_2 joining, have 8 None ∷ []) }
    ensures new_succ_lacks_nothing { after_succ middle (Some 7) ≡ (before_4 middle, []) }
    ensures new_succ_lacks_one { after_succ middle (Some 6) ≡ (before_4 middle, to_4 7 ∷ []) }
    ensures new_succ_lacks_two { after_succ middle (Some 5)
        ≡ (before_4 middle, to_4 6 ∷ to_4 7 ∷ []) }
    ensures new_succ_has_no_state { after_succ middle None ≡ (before_4 middle, snapshot_post ∷ []) }
    ensures joining_has_no_successor { Ignores joining Master (message.NewSucc 8 4 None) }
    ensures middle_becomes_head { after_head middle ≡ (with_pred None middle, []) }
    ensures joining_becomes_head { after_head joining ≡ (with_pred None joining, []) }
    ensures middle_becomes_tail { after_tail middle ≡ (as_tail middle, ack_to 1 4 7 ∷ []) }
    ensures head_becomes_tail { after_tail head ≡ (as_tail head, []) }
    ensures joining_becomes_tail { Ignores joining Master (message.BecomeTail 8) }
{}

/// Which Snapshots a server without state accepts. The old tail stops replying once it has sent its
/// state.
pub fn state_is_handed_over()
    ensures snapshot_is_taken { after_snapshot joining ≡ (has_joined, joined_posts) }
    ensures nothing_stays_in_sent { after_snapshot joining_with_sent ≡ (has_joined, joined_posts) }
    ensures snapshot_of_old_epoch { Ignores joining (Server 1) (message.Snapshot 3 nine) }
    ensures snapshot_of_a_stranger { Ignores joining (Server 2) (message.Snapshot 4 nine) }
    ensures snapshot_at_a_spare { Ignores spare (Server 1) (message.Snapshot 4 nine) }
    ensures old_tail_is_silent { after_ask handed_over ≡ (old_tail, []) }
    ensures old_tail_forwards { after_update handed_over 8
        ≡ (with_entry_kept old_tail, to_4 8 ∷ []) }
{}

/// Which servers have the state, and which are heads and tails.
pub fn roles_of_servers()
    ensures middle_has_the_state { is_initialised middle ≡ true }
    ensures joining_has_no_state { is_initialised joining ≡ false }
    ensures head_is_head { is_head head ≡ true }
    ensures middle_is_no_head { is_head middle ≡ false }
    ensures spare_is_no_head { is_head (spare {M = ℕ}) ≡ false }
    ensures tail_is_tail { is_tail tail ≡ true }
    ensures middle_is_no_tail { is_tail middle ≡ false }
    ensures joining_is_no_tail { is_tail joining ≡ false }
    ensures alone_is_head { is_head single ≡ true }
    ensures alone_is_tail { is_tail single ≡ true }
{}

/// The initial views of the servers in a chain of three, and in a chain of one.
pub fn opening_views()
    ensures first { opening 3 1 ≡ opening_member None (Some (2, 0)) }
    ensures second { opening 3 2 ≡ opening_member (Some (1, 0)) (Some (3, 0)) }
    ensures third { opening 3 3 ≡ opening_member (Some (2, 0)) None }
    ensures fourth { opening 3 4 ≡ spare }
    ensures only { opening 1 1 ≡ opening_member None None }
    ensures empty_log { opening 1 1 ≡ at_start }
{}

/// The log of entries as a machine: it stores the entries, and replies as the counting machine does
/// after them.
pub fn log_replies_as_its_machine()
    ensures replayed { replay counting_machine (call 11 ∷ call 0 ∷ call 12 ∷ []) ≡ 3 }
    ensures starts_empty { counted_log.start ≡ [] }
    ensures keeps_an_entry { counted_log.apply one (call 12) ≡ (two, Some (number_reply 2)) }
    ensures keeps_an_entry_without_reply { counted_log.apply one (call 0)
        ≡ (one ++ call 0 ∷ [], None) }
    ensures asks_the_machine { counted_log.ask two query ≡ number_reply 2 }
    ensures goes_by_the_table { after_call_12 on_one ≡ (on_two, update_to 3 5 2 ∷ []) }
{}

/// The messages at which a server may run out of memory and stop: those that make its log longer,
/// or at which it sends something.
pub fn servers_stop_where_they_grow()
    ensures next_entry { stops middle (Server 1) (update_of 4 8) ≡ true }
    ensures entry_without_reply { stops single (Client 5) silent_submit ≡ true }
    ensures entry_beyond_the_next { stops middle (Server 1) (update_of 4 9) ≡ false }
    ensures ack_goes_up { stops middle (Server 3) (message.Ack 5 6) ≡ true }
    ensures ack_ends_at_the_head { stops head (Server 3) (message.Ack 5 7) ≡ false }
    ensures snapshot { stops joining (Server 1) (message.Snapshot 4 nine) ≡ true }
    ensures snapshot_of_old_epoch { stops joining (Server 1) (message.Snapshot 3 nine) ≡ false }
    ensures new_pred { stops spare Master (message.NewPred 8 2) ≡ true }
    ensures new_succ_lacks_one { stops middle Master (message.NewSucc 8 4 (Some 6)) ≡ true }
    ensures new_succ_lacks_nothing { stops middle Master (message.NewSucc 8 4 (Some 7)) ≡ false }
    ensures becomes_head { stops middle Master (message.BecomeHead 8) ≡ false }
    ensures becomes_tail { stops middle Master (message.BecomeTail 8) ≡ true }
    ensures becomes_head_and_tail { stops head Master (message.BecomeTail 8) ≡ false }
{}

/// An order to retire comes only from the master. It changes nothing, sends nothing, and needs no
/// memory.
pub fn servers_are_retired()
    ensures middle { is_retirement {M = ℕ} Master message.Retire ≡ true }
    ensures changes_nothing { Ignores middle Master message.Retire }
    ensures wants_no_memory { stops middle Master message.Retire ≡ false }
    ensures order_of_a_server { is_retirement {M = ℕ} (Server 1) message.Retire ≡ false }
    ensures order_of_a_client { is_retirement {M = ℕ} (Client 5) message.Retire ≡ false }
    ensures other_order { is_retirement {M = ℕ} Master (message.BecomeTail 8) ≡ false }
{}

/// A query without memory for its reply is lost at a tail. No server stops at it.
pub fn queries_are_lost_at_a_tail()
    ensures unheard { is_unheard tail (Client 5) ask ≡ true }
    ensures heard_by_others { is_unheard middle (Client 5) ask ≡ false }
    ensures update_is_heard { is_unheard single (Client 5) submit ≡ false }
    ensures stops_nobody { stops tail (Client 5) ask ≡ false }
{}

/// Which messages are replies to calls.
pub fn answers_are_distinct()
    ensures answer { is_answer {M = ℕ} (message.Answer 18 (number_reply 7)) ≡ true }
    ensures submit { is_answer {M = ℕ} submit ≡ false }
    ensures query { is_answer {M = ℕ} ask ≡ false }
    ensures update { is_answer {M = ℕ} (update_of 4 8) ≡ false }
    ensures acknowledgement { is_answer {M = ℕ} (message.Ack 4 8) ≡ false }
    ensures snapshot { is_answer (message.Snapshot 4 nine) ≡ false }
    ensures gone { is_answer {M = ℕ} message.Gone ≡ false }
{}

/// The limits as numbers.
pub fn limits_are_numbers()
    ensures servers { MAX_SERVERS ≡ 16 }
    ensures log_number { MAX_LOG_NUMBER ≡ 4611686018427387903 }
    ensures epoch { MAX_EPOCH ≡ 4611686018427387903 }
{}

/// The order of processes: the master, the servers, the clients. A number that is no process comes
/// after them all.
pub fn processes_stand_in_order()
    ensures server_0 { is_server 0 ≡ false }
    ensures first_server { is_server 1 ≡ true }
    ensures last_server { is_server MAX_SERVERS ≡ true }
    ensures one_too_many { is_server (MAX_SERVERS + 1) ≡ false }
    ensures master { place_of Master ≡ 0 }
    ensures server { place_of (Server 3) ≡ 3 }
    ensures no_server { place_of (Server (MAX_SERVERS + 1)) ≡ PROCESSES }
    ensures client { place_of (Client 0) ≡ MAX_SERVERS + 1 }
    ensures last_client { place_of (Client (MAX_CLIENTS - 1)) ≡ PROCESSES - 1 }
    ensures no_client { place_of (Client MAX_CLIENTS) ≡ PROCESSES }
    ensures at_0 { process_at 0 ≡ Master }
    ensures at_the_last_server { process_at MAX_SERVERS ≡ Server MAX_SERVERS }
    ensures behind_the_servers { process_at (MAX_SERVERS + 1) ≡ Client 0 }
{}
