//! Worked examples of the definitions. Each function's contract has some; its body is empty.

ghost use Rattle.std.specs.Prelude.{◌≡◌, ◌++◌, [], ◌∷◌, Ok, Err, true, replicate};
ghost use Rattle.zcodec.specs.declared.fault.Fault.TheVariants.{Short, Invalid};
ghost use Rattle.zprotocol.specs.declared.process.Process.TheVariants.{Server, Client};
ghost use Rattle.znode.specs.pipe.Inputs.{input};
ghost use Rattle.znode.specs.pipe.Inputs.InputView.{Entry, CaughtUp, Link, Lost, Turn, Ended};
ghost use Rattle.znode.specs.pipe.Outputs.{output};
ghost use Rattle.znode.specs.pipe.Outputs.OutputView.{Send, Append, Status, End};

/// The bytes of inputs: a tag, and fields.
#[tactic(auto, unfolding(crate::specs::pipe::Inputs::input, crate::specs::pipe::Inputs::listed, crate::specs::pipe::Inputs::came, zmaster_log::specs::Bytes::count, zwire::specs::Fields::process, zwire::specs::Fields::client, zwire::specs::records::Records::server))]
pub fn inputs_have_bytes()
    ensures entry { input.spell (Entry 3 (2 ∷ 1 ∷ []))
        ≡ 0 ∷ replicate 7 0 ++ 3 ∷ 0 ∷ 0 ∷ 0 ∷ 2 ∷ 2 ∷ 1 ∷ [] }
    ensures caught_up { input.spell CaughtUp ≡ 1 ∷ [] }
    ensures link { input.spell (Link (Server 3) (record { tag = 1; bytes = 9 ∷ [] }))
        ≡ 2 ∷ 1 ∷ 3 ∷ 1 ∷ 0 ∷ 0 ∷ 0 ∷ 1 ∷ 9 ∷ [] }
    ensures lost { input.spell (Lost 2) ≡ 3 ∷ 2 ∷ [] }
    ensures turn { input.spell Turn ≡ 4 ∷ [] }
    ensures ended { input.spell (Ended (Client 5)) ≡ 5 ∷ 2 ∷ 5 ∷ [] }
{}

/// The bytes of outputs.
#[tactic(auto, unfolding(crate::specs::pipe::Outputs::output, crate::specs::pipe::Outputs::sent, crate::specs::pipe::Outputs::stated, crate::specs::pipe::Inputs::listed, zmaster_log::specs::Bytes::count, zwire::specs::Fields::process, zwire::specs::records::Records::server))]
pub fn outputs_have_bytes()
    ensures send { output.spell (Send (Server 3) (record { tag = 0; bytes = 9 ∷ [] }))
        ≡ 0 ∷ 1 ∷ 3 ∷ 0 ∷ 0 ∷ 0 ∷ 0 ∷ 1 ∷ 9 ∷ [] }
    ensures append { output.spell (Append 3 (2 ∷ 1 ∷ []))
        ≡ 1 ∷ replicate 7 0 ++ 3 ∷ 0 ∷ 0 ∷ 0 ∷ 2 ∷ 2 ∷ 1 ∷ [] }
    ensures status { output.spell (Status 3 5) ≡ 2 ∷ 3 ∷ 5 ∷ [] }
    ensures end { output.spell (End true) ≡ 3 ∷ 1 ∷ [] }
{}

/// Bytes that begin with an input, and bytes that don't.
#[tactic(auto, unfolding(crate::specs::pipe::Inputs::input, crate::specs::pipe::Inputs::input_at, crate::specs::pipe::Inputs::came, zwire::specs::Fields::process, zcodec::specs::Forms::number_at))]
pub fn bytes_are_inputs()
    ensures next { input.read (4 ∷ 1 ∷ []) ≡ Ok (Turn, 1 ∷ []) }
    ensures no_bytes { input.read [] ≡ Err Short }
    ensures other_tag { input.read (6 ∷ []) ≡ Err Invalid }
{}
