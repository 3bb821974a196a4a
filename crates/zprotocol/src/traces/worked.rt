//! Worked examples of the definitions: each function's contract has some, and its body does
//! nothing.

ghost use Rattle.std.specs.Prelude.{◌≡◌, ℕ, true, false, None, Some, [], ◌∷◌, ◌++◌, take, drop};
ghost use Rattle.zprotocol.specs.declared.message.Message.TheVariants as message;
ghost use Rattle.zprotocol.specs.declared.process.Process.TheVariants.{Master, Server, Client};
ghost use Rattle.zprotocol.specs.declared.world.event.Event.TheVariants as event;
ghost use Rattle.zprotocol.specs.declared.world.outcome.Outcome.TheVariants.{Acted, Stopped, Unheard};
ghost use Rattle.zprotocol.specs.world.World.{at};
ghost use Rattle.zprotocol.specs.world.Orders as orders;
ghost use Rattle.zprotocol.specs.declared.master.order.Order.TheVariants.{Join, Retire};
ghost use Rattle.zprotocol.specs.declared.traces.trace.Act.TheVariants.{Took, Began, Retried, Ordered, Halted};
ghost use Rattle.zprotocol.specs.declared.traces.trace.Act.TheVariants.{Left};
ghost use Rattle.zprotocol.specs.declared.traces.trace.Traces.{Traces};
ghost use Rattle.zprotocol.specs.traces.Traces.{event_of, comes_before, stamps_rise, is_in_place};
ghost use Rattle.zprotocol.specs.traces.Traces.{is_step_in_place, reported_of, Merges};
ghost use Rattle.zprotocol.specs.traces.Deeds.{Deed, IsStamped};
ghost use Rattle.zprotocol.specs.world.Does.{AtServer, Out};
ghost use Rattle.zprotocol.specs.traces.Deeds.{standing_in, takes, puts, reported_by};
ghost use Rattle.zprotocol.specs.traces.Audit.{is_any_cut};
ghost use Rattle.zprotocol.specs.traces.support.TraceRows.{s1, c0, write, read, opening, step_of, tick};
ghost use Rattle.zprotocol.specs.traces.support.TraceRows.{tick_of, both_at_1, written_and_read, seen};
ghost use Rattle.zprotocol.specs.traces.support.TraceRows.{after_steps, mended, retirement, begun, s1_takes};
ghost use Rattle.zprotocol.specs.traces.support.TraceRows.{old_tail, order, request, asked, answer};
ghost use Rattle.zprotocol.specs.traces.support.TraceRows.{client_deeds, server_deeds};
ghost use Rattle.zprotocol.specs.traces.support.TraceRows.{runs, runs_over_three, goes_on, at_opening};
ghost use Rattle.zprotocol.specs.traces.support.TraceRows.{Stays, Ends, GoesThrough};
ghost use Rattle.zprotocol.specs.traces.support.TraceRows.{is_server_cut, is_client_cut, AreWhole};

/// The event that an act represents. An act of another kind of process represents none.
pub fn acts_are_events()
    ensures take { event_of s1 (Took c0 Acted) ≡ Some (event.Take c0 s1) }
    ensures ignored_query { event_of s1 (Took c0 Unheard) ≡ Some (event.Ignore c0 s1) }
    ensures stop { event_of s1 (Took c0 Stopped) ≡ Some (event.Fail 1) }
    ensures halt { event_of s1 Halted ≡ Some (event.Fail 1) }
    ensures join { event_of Master (Ordered (Join 2)) ≡ Some (orders.Join 2) }
    ensures leave { event_of s1 Left ≡ Some (event.Take Master s1) }
    ensures order { event_of Master (Ordered (Retire 2)) ≡ Some (orders.Retire 2) }
    ensures begin { event_of c0 (Began write) ≡ Some (event.Begin 0 write) }
    ensures retry { event_of c0 Retried ≡ Some (event.Retry 0) }
    ensures client_stops { event_of c0 (Took s1 Stopped) ≡ None }
    ensures master_ignores { event_of Master (Took s1 Unheard) ≡ None }
    ensures master_is_halted { event_of Master Halted ≡ None }
    ensures server_begins { event_of s1 (Began write) ≡ None }
    ensures server_retries { event_of s1 Retried ≡ None }
    ensures server_lets_join { event_of s1 (Ordered (Join 2)) ≡ None }
    ensures master_leaves { event_of Master Left ≡ None }
    ensures server_orders { event_of s1 (Ordered (Retire 2)) ≡ None }
{}

/// Steps come by their timestamps. At one timestamp the master's come first, then the servers' by
/// number, then the clients'.
pub fn steps_are_ordered()
    ensures earlier { comes_before (tick_of c0 1) (tick_of Master 2) ≡ true }
    ensures later { comes_before (tick_of Master 2) (tick_of c0 1) ≡ false }
    ensures master_first { comes_before (tick_of Master 1) (tick_of s1 1) ≡ true }
    ensures servers_by_number { comes_before (tick_of (Server 2) 1) (tick_of s1 1) ≡ false }
    ensures clients_last { comes_before (tick_of (Server 16) 1) (tick_of c0 1) ≡ true }
    ensures clients_by_number { comes_before (tick_of c0 1) (tick_of (Client 1) 1) ≡ true }
    ensures itself { comes_before (tick_of s1 1) (tick_of s1 1) ≡ false }
{}

/// The timestamps of a trace rise if each is above the one before it. The first may be any.
pub fn stamps_rise_by_events()
    ensures none { stamps_rise [] ≡ true }
    ensures first_of_all { stamps_rise (tick 0 ∷ []) ≡ true }
    ensures next { stamps_rise (tick 0 ∷ tick 1 ∷ []) ≡ true }
    ensures gap { stamps_rise (tick 1 ∷ tick 7 ∷ []) ≡ true }
    ensures twice { stamps_rise (tick 1 ∷ tick 1 ∷ []) ≡ false }
    ensures falls_at_the_end { stamps_rise (tick 1 ∷ tick 3 ∷ tick 2 ∷ []) ≡ false }
{}

/// A write and a read of one client at one server: each event is allowed, and the history is what
/// the caller sees. A run may lose any request: a server's rows say that it handles each update.
pub fn written_and_read_is_a_run()
    ensures in_place { runs written_and_read ≡ true }
    ensures reported { reported_of 0 (after_steps written_and_read).history ≡ seen }
    ensures of_nobody_else { reported_of 1 (after_steps written_and_read).history ≡ [] }
    ensures without_its_beginning { runs (drop 1 written_and_read) ≡ false }
    ensures answer_before_the_deed { runs (begun write ∷ step_of c0 3 (Took s1 Acted) ∷ [])
        ≡ false }
    ensures begun_twice { runs (begun write ∷ step_of c0 2 (Began read) ∷ []) ≡ false }
    ensures retried { runs (begun write ∷ step_of c0 2 Retried ∷ []) ≡ true }
    ensures empty_link { runs (begun write ∷ step_of s1 2 (Took (Client 1) Unheard) ∷ [])
        ≡ false }
    ensures ignored_update { runs (begun write ∷ s1_takes 2 Unheard ∷ []) ≡ true }
    ensures ignored_query { runs (begun read ∷ s1_takes 2 Unheard ∷ []) ≡ true }
    ensures ignored_twice { runs (begun read ∷ s1_takes 2 Unheard ∷ s1_takes 3 Unheard ∷ [])
        ≡ false }
    ensures stopped { runs (begun write ∷ s1_takes 2 Stopped ∷ s1_takes 3 Acted ∷ []) ≡ false }
{}

/// A chain of three is a run where two servers are halted, the second while the chain is repaired.
/// It is none if a halted server receives again.
pub fn mended_chain_is_a_run()
    ensures in_place { runs_over_three mended ≡ true }
    ensures nothing_after_the_halt { goes_on (take 6 mended) (s1_takes 7 Acted) ≡ false }
    ensures gone_is_last { goes_on (take 4 mended) (step_of Master 5 (Took (Server 2) Acted))
        ≡ false }
{}

/// A chain of three is a run where a member is ordered to leave, and leaves. It is none if that
/// server receives again.
pub fn retirement_is_a_run()
    ensures in_place { runs_over_three retirement ≡ true }
    ensures nothing_after_it_left { goes_on (take 3 retirement) (s1_takes 4 Acted) ≡ false }
    ensures not_without_the_order { runs_over_three (take 1 retirement ++ drop 2 retirement)
        ≡ false }
{}

/// Which events are allowed in the initial state of one server and one client. A join or an order
/// to leave is, even if the master refuses it.
pub fn places_are_tested()
    ensures refused_join { is_in_place opening (orders.Join 1) ≡ true }
    ensures refused_order { is_in_place opening (orders.Retire 1) ≡ true }
    ensures granted_join { is_in_place opening (orders.Join 2) ≡ true }
    ensures empty_link { is_in_place opening (event.Take c0 s1) ≡ false }
    ensures failure { is_in_place opening (event.Fail 1) ≡ true }
    ensures idle_retry { is_in_place opening (event.Retry 0) ≡ false }
    ensures strange_client { is_in_place opening (event.Begin 1 write) ≡ false }
    ensures no_event { is_step_in_place opening None ≡ false }
{}

/// At one timestamp the merge goes by process: the server's event is before the client's, and not
/// after it.
pub fn one_stamp_is_by_process()
    ensures merge { Merges both_at_1 (tick_of s1 1 ∷ tick_of c0 1 ∷ []) (λ p. []) }
    ensures other_order { Merges both_at_1 (tick_of c0 1 ∷ tick_of s1 1 ∷ []) (λ p. []) → ⊥ }
    ensures not_all { Merges both_at_1 (tick_of s1 1 ∷ []) (λ p. []) → ⊥ }
{}

/// What each process does at a write. Client and server follow their tables from the initial state,
/// and each receives what the other sent.
pub fn write_goes_by_the_tables()
    ensures client { GoesThrough c0 (standing_in opening c0) 0 client_deeds }
    ensures server { GoesThrough s1 (standing_in opening s1) 0 server_deeds }
    ensures request { takes c0 server_deeds ≡ puts s1 client_deeds }
    ensures request_is_stamped { puts s1 client_deeds ≡ (1, request) ∷ [] }
    ensures answer { takes s1 client_deeds ≡ puts c0 server_deeds }
    ensures answer_is_stamped { puts c0 server_deeds ≡ (2, answer) ∷ [] }
    ensures nothing_from_the_master { takes Master client_deeds ≡ [] }
    ensures seen { reported_by client_deeds ≡ take 2 seen }
{}

/// How a server ends: it stops at a message by which it would grow, it leaves, or it is halted.
/// Then its failure notice is all that it sends, and nothing follows. A number that isn't a
/// server's or a client's of this world takes no part, nor does a server that has failed.
pub fn servers_end_by_their_rows()
    ensures stops { Ends at_opening (Took c0 Stopped) (Some (1, request)) }
    ensures stops_at_no_query { Ends at_opening (Took c0 Stopped) (Some (1, asked)) → ⊥ }
    ensures stops_where_nothing_grows { Ends at_opening (Took Master Stopped)
        (Some (1, message.BecomeHead 1)) → ⊥ }
    ensures leaves { Ends at_opening Left (Some (1, order)) }
    ensures acts_on_no_such_order { Stays at_opening (Took Master Acted) (Some (1, order)) → ⊥ }
    ensures leaves_at_no_other_order { Ends at_opening Left (Some (1, message.BecomeHead 1)) → ⊥ }
    ensures halts { Ends at_opening Halted None }
    ensures hears_an_update { Stays at_opening (Took c0 Unheard) (Some (1, request)) → ⊥ }
    ensures ignores { Stays at_opening (Took c0 Unheard) (Some (1, asked)) }
    ensures ignores_at_no_tail { Stays (AtServer old_tail) (Took c0 Unheard) (Some (1, asked))
        → ⊥ }
    ensures nothing_follows { (last : ℕ) (d : Deed ℕ) → GoesThrough s1 Out last (d ∷ []) → ⊥ }
    ensures server_17 { standing_in opening (Server 17) ≡ Out }
    ensures client_1 { standing_in opening (Client 1) ≡ Out }
    ensures spare_server { standing_in opening (Server 2) ≡ AtServer (opening.servers 2) }
    ensures failed { standing_in (record opening { failed = at 1 true opening.failed }) s1 ≡ Out }
{}

/// A timestamp is one more than the greater of the process's last one and the message's. A client's
/// may be above that.
pub fn stamps_go_by_their_rule()
    ensures by_the_message { IsStamped s1 3 5 6 }
    ensures by_its_own { IsStamped s1 5 3 6 }
    ensures no_gap { IsStamped s1 3 5 7 → ⊥ }
    ensures above_the_message { IsStamped s1 3 5 4 → ⊥ }
    ensures master { IsStamped Master 3 5 7 → ⊥ }
    ensures client { IsStamped c0 3 5 9 }
    ensures client_above_the_message { IsStamped c0 3 5 5 → ⊥ }
{}

/// Traces are cut if one of them is: the master's, a server's or a client's.
pub fn one_cut_is_enough()
    ensures master { (t : Traces) → t.master.is_cut ≡ true → is_any_cut t ≡ true }
    ensures server { (t : Traces) → is_server_cut t ≡ true → is_any_cut t ≡ true }
    ensures client { (t : Traces) → is_client_cut t ≡ true → is_any_cut t ≡ true }
    ensures none { (t : Traces) → AreWhole t → is_any_cut t ≡ false }
{}
