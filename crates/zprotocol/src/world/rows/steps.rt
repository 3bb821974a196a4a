//! Worked steps of one process.

ghost use Rattle.std.specs.Prelude.{◌≡◌, false, [], ◌∷◌};
ghost use Rattle.zprotocol.specs.declared.message.Message.TheVariants as message;
ghost use Rattle.zprotocol.specs.declared.master.order.Order.TheVariants as order;
ghost use Rattle.zprotocol.specs.declared.world.history.CallEvent.TheVariants as saw;
ghost use Rattle.zprotocol.specs.world.Does as given;
ghost use Rattle.zprotocol.specs.world.Does.{Out, Hear, Obey, Stop, accepts, stop_effect, idle_effect};
ghost use Rattle.zprotocol.specs.world.support.Counter.{create, create_update, exists, name_reply};
ghost use Rattle.zprotocol.specs.world.support.RunRows.{m, s1, s2, s3, s4, c0, c1, create_begun};
ghost use Rattle.zprotocol.specs.world.support.RunRows.{create_taken, first_entry};
ghost use Rattle.zprotocol.specs.world.support.StepRows.{stands, effect, Accepts, Refuses};

/// What each process accepts: a message always, and from outside the inputs of its own kind.
pub fn processes_accept_what_is_theirs()
    ensures any_message { Accepts [] s1 (Hear c0 message.Gone) }
    ensures call { Accepts [] c1 (given.Begin create) }
    ensures second_call { Refuses create_begun c1 (given.Begin exists) }
    ensures retry { Accepts create_begun c1 given.Retry }
    ensures nothing_to_retry { Refuses [] c1 given.Retry }
    ensures order { Accepts [] m (Obey (order.Join 4)) }
    ensures refused_order { Refuses [] m (Obey (order.Join 3)) }
    ensures stop { Accepts [] s1 Stop }
    ensures server_begins { Refuses [] s1 (given.Begin create) }
    ensures server_obeys { Refuses [] s1 (Obey (order.Join 4)) }
    ensures master_stops { Refuses [] m Stop }
    ensures client_stops { Refuses [] c1 Stop }
    ensures out { accepts s1 Stop (effect [] s1 Stop).left ≡ false }
{}

/// What each process does: it follows its table. A server that stops, or receives the order to
/// leave, sends its failure notice and takes no part any more.
pub fn processes_go_by_their_tables()
    ensures call_is_reported { (effect [] c1 (given.Begin create)).reported ≡ saw.Begin 1 1 create ∷
        [] }
    ensures call_is_sent { (effect [] c1 (given.Begin create)).posts
        ≡ (s1, message.Submit 1 create_update) ∷ [] }
    ensures again { (effect create_begun c1 given.Retry).posts
        ≡ (s1, message.Submit 1 create_update) ∷ [] }
    ensures unseen { (effect create_begun c1 given.Retry).reported ≡ [] }
    ensures answer { (effect create_begun c1 (Hear s3 (message.Answer 1 (name_reply 0)))).reported
        ≡ saw.Answer 1 1 (name_reply 0) ∷ [] }
    ensures strange_answer { (effect [] c1 (Hear s3 (message.Answer 1 (name_reply 0)))).reported ≡
        [] }
    ensures forwards { (effect [] s1 (Hear c1 (message.Submit 1 create_update))).posts
        ≡ (s2, message.Update 0 1 first_entry) ∷ [] }
    ensures moves { (effect [] s1 (Hear c1 (message.Submit 1 create_update))).left
        ≡ stands create_taken s1 }
    ensures order { (effect [] m (Obey (order.Join 4))).posts ≡ (s4, message.NewPred 1 3) ∷ [] }
    ensures stops { effect [] s1 Stop ≡ stop_effect }
    ensures leaves { effect [] s1 (Hear m message.Retire) ≡ stop_effect }
    ensures by_the_master_alone { effect [] s1 (Hear c1 message.Retire)
        ≡ idle_effect (stands [] s1) }
    ensures notice { (effect [] s1 Stop).posts ≡ (m, message.Gone) ∷ [] }
    ensures takes_no_part { (effect [] s1 Stop).left ≡ Out }
{}
