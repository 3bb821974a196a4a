//! Worked examples of the definitions. Each function's contract has some; its body is empty.

ghost use Rattle.std.specs.Prelude.{◌≡◌, [], ◌∷◌, Ok, Err, true, false};
ghost use Rattle.zcodec.specs.declared.fault.Fault.TheVariants.{Short, Long, Invalid};
ghost use Rattle.zconnections.specs.buffers.Inputs.InputView.{Opened, Came, Ended, Tick};
ghost use Rattle.zdaemon.specs.pipe.Messages.{message};
ghost use Rattle.zdaemon.specs.pipe.Messages.MessageView.{Input, Keep};
ghost use Rattle.zdaemon.specs.pipe.Outputs.{output};
ghost use Rattle.zdaemon.specs.pipe.Outputs.OutputView.{Chunk, End};

/// The bytes of messages: a tag, a connection, a length.
#[tactic(auto, unfolding(crate::specs::pipe::Messages::message, crate::specs::pipe::Messages::came))]
pub fn messages_have_bytes()
    ensures opened { message.spell (Input (Opened 7)) ≡ 0 ∷ 0 ∷ 0 ∷ 0 ∷ 7 ∷ [] }
    ensures came { message.spell (Input (Came 258 (104 ∷ 105 ∷ [])))
        ≡ 1 ∷ 0 ∷ 0 ∷ 1 ∷ 2 ∷ 0 ∷ 0 ∷ 0 ∷ 2 ∷ 104 ∷ 105 ∷ [] }
    ensures ended { message.spell (Input (Ended 1000)) ≡ 2 ∷ 0 ∷ 0 ∷ 3 ∷ 232 ∷ [] }
    ensures tick { message.spell (Input Tick) ≡ 3 ∷ [] }
    ensures keep { message.spell Keep ≡ 4 ∷ [] }
{}

/// The bytes of answers.
#[tactic(auto, unfolding(crate::specs::pipe::Outputs::output, crate::specs::pipe::Outputs::chunk))]
pub fn outputs_have_bytes()
    ensures chunk { output.spell
        (Chunk (record { connection = 7; is_last = false; bytes = 104 ∷ 105 ∷ [] }))
        ≡ 0 ∷ 0 ∷ 0 ∷ 0 ∷ 7 ∷ 0 ∷ 0 ∷ 0 ∷ 0 ∷ 2 ∷ 104 ∷ 105 ∷ [] }
    ensures last { output.spell (Chunk (record { connection = 7; is_last = true; bytes = [] }))
        ≡ 0 ∷ 0 ∷ 0 ∷ 0 ∷ 7 ∷ 1 ∷ 0 ∷ 0 ∷ 0 ∷ 0 ∷ [] }
    ensures end { output.spell End ≡ 1 ∷ [] }
{}

/// Bytes that begin with a message, and bytes that don't.
#[tactic(auto, unfolding(crate::specs::pipe::Messages::message, crate::specs::pipe::Messages::message_at, crate::specs::pipe::Messages::came, zcodec::specs::Forms::number_at))]
pub fn bytes_are_messages()
    ensures read { message.read (1 ∷ 0 ∷ 0 ∷ 0 ∷ 7 ∷ 0 ∷ 0 ∷ 0 ∷ 1 ∷ 104 ∷ 4 ∷ [])
        ≡ Ok (Input (Came 7 (104 ∷ [])), 4 ∷ []) }
    ensures next { message.read (4 ∷ 3 ∷ []) ≡ Ok (Keep, 3 ∷ []) }
    ensures no_bytes { message.read [] ≡ Err Short }
    ensures half { message.read (1 ∷ 0 ∷ 0 ∷ 0 ∷ 7 ∷ 0 ∷ 0 ∷ 0 ∷ 2 ∷ 104 ∷ []) ≡ Err Short }
    ensures short_number { message.read (0 ∷ 0 ∷ 0 ∷ 0 ∷ []) ≡ Err Short }
    ensures too_long { message.read (1 ∷ 0 ∷ 0 ∷ 0 ∷ 7 ∷ 0 ∷ 1 ∷ 0 ∷ 1 ∷ []) ≡ Err Long }
    ensures other_tag { message.read (5 ∷ []) ≡ Err Invalid }
{}
