//! Worked examples. Each clause is one; the bodies do nothing. The master and the clients are those
//! of the examples of `zprotocol`.

ghost use Rattle.std.specs.Prelude.{◌≡◌, None, Some, Ok, Err, [], ◌∷◌, true, false};
ghost use Rattle.zcalls.specs.declared.limits.TheConstants.{MAX_CALL_NUMBER};
ghost use Rattle.zcalls.specs.declared.reply.Reply.TheVariants.{Deleted};
ghost use Rattle.zprotocol.specs.declared.client.begin_fault.BeginFault.TheVariants.{Busy};
ghost use Rattle.zprotocol.specs.declared.client.begin_fault.BeginFault.TheVariants.{Exhausted};
ghost use Rattle.zprotocol.specs.declared.master.order.Order.TheVariants.{Join, Retire};
ghost use Rattle.zprotocol.specs.declared.master.order_fault.OrderFault.TheVariants.{NotMember};
ghost use Rattle.zprotocol.specs.declared.master.order_fault.OrderFault.TheVariants.{Used};
ghost use Rattle.zprotocol.specs.declared.message.Message.TheVariants.{Config};
ghost use Rattle.zprotocol.specs.declared.process.Process.TheVariants.{Master, Server, Client};
ghost use Rattle.zprotocol.specs.master.support.Rows.{three};
ghost use Rattle.zprotocol.specs.client.support.Rows.{asking, idle, update_call, updating};
ghost use Rattle.zprotocol.specs.client.support.Rows.{with_calls};
ghost use Rattle.zprotocol.specs.world.Does.{AtMaster, AtClient, Out};
ghost use Rattle.zprotocol.specs.world.Does.{idle_effect, stop_effect};
ghost use Rattle.zprotocol.specs.declared.world.history.CallEvent.TheVariants as call_event;
ghost use Rattle.zactor.specs.declared.act_fault.ActFault.TheVariants.{Memory, Refused};
ghost use Rattle.zactor.specs.declared.handed.Handed.TheVariants as handed;
ghost use Rattle.zactor.specs.declared.input.Input.TheVariants as input;
ghost use Rattle.zactor.specs.declared.done.Done.TheVariants as done;
ghost use Rattle.zactor.specs.declared.refusal.Refusal.TheVariants as refusal;
ghost use Rattle.zactor.specs.Acting.{can_come, can_stand, effect_of, put_by, refusal_of, reported_by};
ghost use Rattle.zactor.specs.Acting.{MayWantMemory, handed_by};
ghost use Rattle.zactor.specs.support.Rows.{alone, answer, ask, config, gone, have, new_pred};
ghost use Rattle.zactor.specs.support.Rows.{outside, retire, strange_retire, submit};

/// Which standings a process can have: those of its kind, and only a server can have stopped.
pub fn kinds_stand_apart()
    ensures master { can_stand Master (AtMaster three) ≡ true }
    ensures client { can_stand (Client 4) (AtClient idle) ≡ true }
    ensures server { can_stand (Server 4) outside ≡ true }
    ensures server_is_out { can_stand (Server 4) Out ≡ true }
    ensures master_is_out { can_stand Master Out ≡ false }
    ensures client_is_out { can_stand (Client 4) Out ≡ false }
    ensures client_as_server { can_stand (Client 4) outside ≡ false }
{}

/// What may become of an input. A server stops only where it would grow, and only a query is
/// dropped.
pub fn outcomes_fit()
    ensures acts { can_come alone submit done.Acted ≡ true }
    ensures stops { can_come alone submit done.Stopped ≡ true }
    ensures hears_updates { can_come alone submit done.Unheard ≡ false }
    ensures unheard { can_come alone ask done.Unheard ≡ true }
    ensures goes_on_after_queries { can_come alone ask done.Stopped ≡ false }
    ensures hears_what_it_ignores { can_come outside ask done.Unheard ≡ false }
    ensures goes_on_after_what_it_ignores { can_come outside submit done.Stopped ≡ false }
    ensures leaves { can_come alone retire done.Left ≡ true }
    ensures leaves_at_once { can_come alone retire done.Acted ≡ false }
    ensures leaves_without_memory { can_come alone retire done.Stopped ≡ false }
    ensures obeys_the_master_alone { can_come alone strange_retire done.Left ≡ false }
    ensures is_stopped { can_come alone input.Stop done.Stopped ≡ true }
    ensures master_never_stops { can_come (AtMaster three) input.Stop done.Stopped ≡ false }
    ensures client_never_stops { can_come (AtClient idle) (config 5) done.Stopped ≡ false }
{}

/// What a server that stops leaves undone: its failure notice is sent, but not appended.
pub fn servers_stop()
    ensures left { effect_of (Server 2) alone retire done.Left ≡ stop_effect }
    ensures out_of_memory { effect_of (Server 2) alone submit done.Stopped ≡ stop_effect }
    ensures stopped { effect_of (Server 2) alone input.Stop done.Stopped ≡ stop_effect }
    ensures unheard { effect_of (Server 2) alone ask done.Unheard ≡ idle_effect alone }
    ensures puts_nothing { put_by done.Stopped (gone ∷ []) ≡ [] }
    ensures puts_nothing_as_it_leaves { put_by done.Left (gone ∷ []) ≡ [] }
    ensures puts_what_it_sends { put_by done.Acted (have ∷ []) ≡ have ∷ [] }
    ensures sends { (effect_of (Server 2) outside new_pred done.Acted).posts ≡ have ∷ [] }
{}

/// What callers see: a call that was begun, and the reply to the outstanding call.
pub fn callers_are_reported()
    ensures begun { reported_by (Client 4) (input.Begin update_call) (done.Began 8)
        ≡ call_event.Begin 4 8 update_call ∷ [] }
    ensures begun_by_definition { (effect_of (Client 4) (AtClient idle) (input.Begin update_call)
        (done.Began 8)).reported ≡ call_event.Begin 4 8 update_call ∷ [] }
    ensures answered { reported_by (Client 4) (answer 7) (done.Answered 7)
        ≡ call_event.Answer 4 7 Deleted ∷ [] }
    ensures answered_by_definition { (effect_of (Client 4) (AtClient updating) (answer 7)
        (done.Answered 7)).reported ≡ call_event.Answer 4 7 Deleted ∷ [] }
    ensures stale { (effect_of (Client 4) (AtClient updating) (answer 6) done.Acted).reported ≡ [] }
    ensures retried { reported_by (Client 4) input.Retry done.Acted ≡ [] }
    ensures of_the_master { reported_by Master (input.Obey (Join 5)) done.Acted ≡ [] }
{}

/// Why an input is refused.
pub fn inputs_are_refused()
    ensures joins { refusal_of (AtMaster three) (input.Obey (Join 5)) ≡ None }
    ensures used { refusal_of (AtMaster three) (input.Obey (Join 2)) ≡ Some (refusal.Order Used) }
    ensures not_member { refusal_of (AtMaster three) (input.Obey (Retire 3))
        ≡ Some (refusal.Order NotMember) }
    ensures master_begins { refusal_of (AtMaster three) (input.Begin update_call)
        ≡ Some refusal.NotAccepted }
    ensures begins { refusal_of (AtClient idle) (input.Begin update_call) ≡ None }
    ensures busy { refusal_of (AtClient updating) (input.Begin update_call)
        ≡ Some (refusal.Begin Busy) }
    ensures exhausted { refusal_of (AtClient (with_calls MAX_CALL_NUMBER idle))
        (input.Begin update_call) ≡ Some (refusal.Begin Exhausted) }
    ensures retries { refusal_of (AtClient updating) input.Retry ≡ None }
    ensures nothing_to_retry { refusal_of (AtClient idle) input.Retry ≡ Some refusal.NotAccepted }
    ensures client_obeys { refusal_of (AtClient idle) (input.Obey (Join 5))
        ≡ Some refusal.NotAccepted }
    ensures server_stops { refusal_of alone input.Stop ≡ None }
    ensures server_retries { refusal_of alone input.Retry ≡ Some refusal.NotAccepted }
    ensures stopped_hears { refusal_of Out submit ≡ Some refusal.NotAccepted }
    ensures stopped_stops { refusal_of Out input.Stop ≡ Some refusal.NotAccepted }
{}

/// Where memory may run out: never at a server, and at a client that handles a message only where
/// it sends its call again.
pub fn memory_is_wanted()
    ensures server { MayWantMemory alone submit 0 → ⊥ }
    ensures stopping { MayWantMemory alone input.Stop 0 → ⊥ }
    ensures answer { MayWantMemory (AtClient updating) (answer 7) 0 → ⊥ }
    ensures resends { MayWantMemory (AtClient asking) (config 5) 0 }
{}

/// What a process puts into the caller's slot. Where it puts nothing, the slot is unchanged.
pub fn replies_and_messages_are_handed_over()
    ensures reply { handed_by (answer 7) (Ok (done.Answered 7)) handed.Nothing
        ≡ handed.Reply Deleted }
    ensures stale { handed_by (answer 6) (Ok done.Acted) handed.Nothing ≡ handed.Nothing }
    ensures message { handed_by (config 5) (Err Memory) handed.Nothing
        ≡ handed.Message (Config 5 (Some 1) (Some 3)) }
    ensures refused { handed_by submit (Err (Refused refusal.NotAccepted)) (handed.Reply Deleted)
        ≡ handed.Reply Deleted }
    ensures call { handed_by (input.Begin update_call) (Err Memory) handed.Nothing
        ≡ handed.Nothing }
{}
