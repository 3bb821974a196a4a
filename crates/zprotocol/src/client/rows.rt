//! Worked examples of the client table. Each clause is one; the bodies do nothing. The clients are
//! those of `specs/support/Rows.antt`. The machine of the servers in the messages is a number.

ghost use Rattle.std.specs.Prelude.{◌≡◌, ◌-◌, None, Some, [], ◌∷◌};
ghost use Rattle.zcalls.specs.declared.limits.TheConstants.{MAX_CALL_NUMBER};
ghost use Rattle.zcalls.specs.declared.reply.Reply.TheVariants.{Deleted};
ghost use Rattle.zprotocol.specs.declared.message.Message.TheVariants as message;
ghost use Rattle.zprotocol.specs.declared.process.Process.TheVariants.{Master, Server};
ghost use Rattle.zprotocol.specs.declared.client.begin_fault.BeginFault.TheVariants.{Busy, Exhausted};
ghost use Rattle.zprotocol.specs.client.View.{opening_client};
ghost use Rattle.zprotocol.specs.client.Table.{begin_fault};
ghost use Rattle.zprotocol.specs.client.support.Rows.{update_call, query_call, idle, updating};
ghost use Rattle.zprotocol.specs.client.support.Rows.{asking, newcomer, beginner, outsider, eighth};
ghost use Rattle.zprotocol.specs.client.support.Rows.{with_calls, headless, reported, reported_of_none};
ghost use Rattle.zprotocol.specs.client.support.Rows.{submit_to, query_to, Ignores, after_call};
ghost use Rattle.zprotocol.specs.client.support.Rows.{after_retry, after_answer, hears, hears_of_none};

/// Invoking a call: an update goes to the head, a query to the tail; and why a call is refused.
pub fn calls_begin()
    ensures first_call { after_call newcomer update_call ≡ (beginner, submit_to 1 1 ∷ []) }
    ensures update { after_call idle update_call ≡ (eighth update_call, submit_to 1 8 ∷ []) }
    ensures query { after_call idle query_call ≡ (eighth query_call, query_to 3 8 ∷ []) }
    ensures no_head { after_call (headless idle) update_call ≡ (headless (eighth update_call), []) }
    ensures allowed { begin_fault idle ≡ None }
    ensures busy { begin_fault updating ≡ Some Busy }
    ensures exhausted { begin_fault (with_calls MAX_CALL_NUMBER idle) ≡ Some Exhausted }
    ensures busy_before_exhausted { begin_fault (with_calls MAX_CALL_NUMBER asking) ≡ Some Busy }
    ensures last_number { begin_fault (with_calls (MAX_CALL_NUMBER - 1) idle) ≡ None }
{}

/// What a client does with an Answer of a server, and with a Config.
pub fn answers_are_taken()
    ensures answer { after_answer updating 3 ≡ (idle, [], Some (7, Deleted)) }
    ensures answer_of_any_server { after_answer updating 2 ≡ (idle, [], Some (7, Deleted)) }
    ensures old_answer { Ignores updating (Server 3) (message.Answer 6 Deleted) }
    ensures answer_again { Ignores idle (Server 3) (message.Answer 7 Deleted) }
    ensures answer_of_the_master { Ignores updating Master (message.Answer 7 Deleted) }
    ensures config_and_update { hears updating 2 4 ≡ (
      reported 2 4 updating,
      submit_to 2 7 ∷ [],
      None,
    ) }
    ensures config_and_query { hears asking 2 4 ≡ (reported 2 4 asking, query_to 4 7 ∷ [], None) }
    ensures config_and_no_call { hears idle 2 4 ≡ (reported 2 4 idle, [], None) }
    ensures config_without_chain { hears_of_none asking ≡ (reported_of_none asking, [], None) }
    ensures config_of_same_epoch { Ignores asking Master (message.Config 4 (Some 2) (Some 4)) }
    ensures config_of_a_server { Ignores asking (Server 1) (message.Config 5 (Some 2) (Some 4)) }
    ensures other_message { Ignores asking (Server 1) (message.Ack 4 7) }
{}

/// The initial views: a client knows the chain; a number beyond the clients has a view without one.
pub fn opening_views()
    ensures client { opening_client 2 3 1 ≡ newcomer }
    ensures nobody { opening_client 2 3 3 ≡ outsider }
{}

/// A retry sends the outstanding call again, under its number.
pub fn calls_are_retried()
    ensures update { after_retry updating ≡ submit_to 1 7 ∷ [] }
    ensures query { after_retry asking ≡ query_to 3 7 ∷ [] }
    ensures no_call { after_retry idle ≡ [] }
    ensures no_tail { after_retry (record asking { tail = None }) ≡ [] }
{}
