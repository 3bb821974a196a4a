//! Worked examples of the definitions. The functions do nothing.

ghost use Rattle.std.specs.Prelude.{◌≡◌, ℕ, ◌+◌, [], ◌∷◌, ◌++◌, Some, None, Ok, Err, true, false};
ghost use Rattle.std.specs.Int.{w8, w32, w64};
ghost use Rattle.zcodec.specs.declared.fault.Fault.TheVariants.{Short, Long, Invalid, Trailing};
ghost use Rattle.zcodec.specs.declared.fault.ReadError.TheVariants.{Memory, Fault as OfFault};
ghost use Rattle.zcodec.specs.declared.limits.TheConstants.{NULL};
ghost use Rattle.zcodec.specs.Forms.{number, exactly, only, empty, invalid, both};
ghost use Rattle.zcodec.specs.Choices.{flag, option, sized, listed, buffer, listed_or_null};
ghost use Rattle.zcodec.specs.Readers.{Reads, Gives, whole};
ghost use Rattle.zcodec.specs.Shapes.{form_of, HasRoom};
ghost use Rattle.zcodec.specs.Shapes.Shape.{U8, Flag, Sized, Buffer, Both, OneOf};
ghost use Rattle.zcodec.specs.Shapes.Side.{Left, Right};
ghost use Rattle.zcodec.specs.Laws.{IsBytes, IsForm};
ghost use Rattle.zcodec.specs.Samples.{null, reported, skips, forgets};
ghost use Rattle.zcodec.specs.Samples.Reported.{Word, Text};

/// Numbers: the highest byte first.
#[tactic(auto, unfolding(crate::specs::Forms::number_at))]
pub fn numbers()
    ensures spelled { (number w32).spell 258 ≡ 0 ∷ 0 ∷ 1 ∷ 2 ∷ [] }
    ensures read { (number w32).read (0 ∷ 0 ∷ 1 ∷ 2 ∷ 9 ∷ []) ≡ Ok (258, 9 ∷ []) }
    ensures byte { (number w8).read (7 ∷ []) ≡ Ok (7, []) }
    ensures short { (number w64).read (0 ∷ 0 ∷ 1 ∷ 2 ∷ 9 ∷ []) ≡ Err Short }
    ensures too_great { (number w8).Fits 256 → ⊥ }
{}

/// A fixed number of bytes.
pub fn so_many_bytes()
    ensures spelled { (exactly 2).spell (7 ∷ 8 ∷ []) ≡ 7 ∷ 8 ∷ [] }
    ensures read { (exactly 2).read (7 ∷ 8 ∷ 9 ∷ []) ≡ Ok (7 ∷ 8 ∷ [], 9 ∷ []) }
    ensures short { (exactly 2).read (7 ∷ []) ≡ Err Short }
    ensures too_few { (exactly 2).Fits (7 ∷ []) → ⊥ }
{}

/// Encodings without bytes: of one value, and of no value.
pub fn no_bytes()
    ensures spelled { empty.spell tt ≡ [] }
    ensures read { empty.read (9 ∷ []) ≡ Ok (tt, 9 ∷ []) }
    ensures another { (only {A = ℕ} 7).Fits 8 → ⊥ }
    ensures refused { (invalid {A = ℕ}).read (9 ∷ []) ≡ Err Invalid }
    ensures none { (invalid {A = ℕ}).Fits 7 → ⊥ }
{}

/// A flag is 0 or 1.
#[tactic(auto, unfolding(crate::specs::Forms::number_at))]
pub fn flags()
    ensures set { flag.spell true ≡ 1 ∷ [] }
    ensures unset { flag.spell false ≡ 0 ∷ [] }
    ensures read { flag.read (1 ∷ 9 ∷ []) ≡ Ok (true, 9 ∷ []) }
    ensures read_unset { flag.read (0 ∷ 9 ∷ []) ≡ Ok (false, 9 ∷ []) }
    ensures two { flag.read (2 ∷ []) ≡ Err Invalid }
    ensures short { flag.read [] ≡ Err Short }
{}

/// Bytes after their length.
#[tactic(auto, unfolding(crate::specs::Forms::number_at))]
pub fn sized_bytes()
    ensures spelled { (sized 3).spell (7 ∷ 8 ∷ []) ≡ 0 ∷ 0 ∷ 0 ∷ 2 ∷ 7 ∷ 8 ∷ [] }
    ensures read { (sized 3).read (0 ∷ 0 ∷ 0 ∷ 2 ∷ 7 ∷ 8 ∷ 9 ∷ []) ≡ Ok (7 ∷ 8 ∷ [], 9 ∷ []) }
    ensures long { (sized 3).read (0 ∷ 0 ∷ 0 ∷ 4 ∷ 7 ∷ 8 ∷ 9 ∷ 9 ∷ []) ≡ Err Long }
    ensures short { (sized 3).read (0 ∷ 0 ∷ 0 ∷ 3 ∷ 7 ∷ 8 ∷ []) ≡ Err Short }
    ensures too_many { (sized 1).Fits (7 ∷ 8 ∷ []) → ⊥ }
{}

/// Bytes after their length, or null. The length -2 is above the limit.
#[tactic(auto, unfolding(crate::specs::Forms::number_at))]
pub fn buffers()
    ensures none { (buffer 3).spell None ≡ null }
    ensures spelled { (buffer 3).spell (Some (7 ∷ [])) ≡ 0 ∷ 0 ∷ 0 ∷ 1 ∷ 7 ∷ [] }
    ensures read_none { (buffer 3).read (null ++ 9 ∷ []) ≡ Ok (None, 9 ∷ []) }
    ensures read { (buffer 3).read (0 ∷ 0 ∷ 0 ∷ 1 ∷ 7 ∷ 9 ∷ []) ≡ Ok (Some (7 ∷ []), 9 ∷ []) }
    ensures minus_two { (buffer 3).read (255 ∷ 255 ∷ 255 ∷ 254 ∷ []) ≡ Err Long }
    ensures long { (buffer 3).read (0 ∷ 0 ∷ 0 ∷ 4 ∷ 7 ∷ 8 ∷ 9 ∷ 9 ∷ []) ≡ Err Long }
    ensures short { (buffer 3).read (0 ∷ 0 ∷ 0 ∷ 2 ∷ 7 ∷ []) ≡ Err Short }
    ensures too_many { (buffer 1).Fits (Some (7 ∷ 8 ∷ [])) → ⊥ }
{}

/// One value and then another: the leftmost fault is returned.
#[tactic(auto, unfolding(crate::specs::Forms::number_at))]
pub fn pairs()
    ensures spelled { (both (number w8) flag).spell (7, true) ≡ 7 ∷ 1 ∷ [] }
    ensures read { (both (number w8) flag).read (7 ∷ 1 ∷ 9 ∷ []) ≡ Ok ((7, true), 9 ∷ []) }
    ensures first_fault { (both flag flag).read (2 ∷ []) ≡ Err Invalid }
    ensures second_fault { (both flag flag).read (1 ∷ []) ≡ Err Short }
    ensures too_great { (both (number w8) flag).Fits (256, true) → ⊥ }
{}

/// A flag, and the value if it is set.
#[tactic(auto, unfolding(crate::specs::Forms::number_at))]
pub fn options()
    ensures none { (option flag).spell None ≡ 0 ∷ [] }
    ensures spelled { (option flag).spell (Some true) ≡ 1 ∷ 1 ∷ [] }
    ensures read_none { (option flag).read (0 ∷ 9 ∷ []) ≡ Ok (None, 9 ∷ []) }
    ensures read { (option flag).read (1 ∷ 0 ∷ 9 ∷ []) ≡ Ok (Some false, 9 ∷ []) }
    ensures no_tag { (option flag).read (2 ∷ 1 ∷ []) ≡ Err Invalid }
{}

/// Values after their count, or null.
#[tactic(auto, unfolding(crate::specs::Forms::number_at))]
pub fn lists()
    ensures spelled { (listed 3 flag).spell (true ∷ false ∷ []) ≡ 0 ∷ 0 ∷ 0 ∷ 2 ∷ 1 ∷ 0 ∷ [] }
    ensures read { (listed 3 flag).read (0 ∷ 0 ∷ 0 ∷ 2 ∷ 1 ∷ 0 ∷ 9 ∷ [])
        ≡ Ok (true ∷ false ∷ [], 9 ∷ []) }
    ensures short { (listed 3 flag).read (0 ∷ 0 ∷ 0 ∷ 2 ∷ 1 ∷ []) ≡ Err Short }
    ensures long { (listed 3 flag).read (0 ∷ 0 ∷ 0 ∷ 4 ∷ 1 ∷ 1 ∷ 1 ∷ 1 ∷ []) ≡ Err Long }
    ensures too_many { (listed 1 flag).Fits (true ∷ false ∷ []) → ⊥ }
    ensures too_great { (listed 1 (number w8)).Fits (256 ∷ []) → ⊥ }
    ensures none { (listed_or_null 3 flag).spell None ≡ null }
    ensures read_none { (listed_or_null 3 flag).read null ≡ Ok (None, []) }
    ensures long_or_null { (listed_or_null 1 flag).read (0 ∷ 0 ∷ 0 ∷ 2 ∷ 1 ∷ 1 ∷ []) ≡ Err Long }
    ensures read_one { (listed_or_null 3 flag).read (0 ∷ 0 ∷ 0 ∷ 1 ∷ 1 ∷ 9 ∷ [])
        ≡ Ok (Some (true ∷ []), 9 ∷ []) }
{}

/// A tag says which kind of value follows.
#[tactic(auto, unfolding(crate::specs::Forms::number_at))]
pub fn kinds()
    ensures word { reported.spell (Word 258) ≡ 1 ∷ 0 ∷ 0 ∷ 1 ∷ 2 ∷ [] }
    ensures text { reported.spell (Text (7 ∷ [])) ≡ 5 ∷ 0 ∷ 0 ∷ 0 ∷ 1 ∷ 7 ∷ [] }
    ensures read_word { reported.read (1 ∷ 0 ∷ 0 ∷ 1 ∷ 2 ∷ 9 ∷ []) ≡ Ok (Word 258, 9 ∷ []) }
    ensures read_text { reported.read (5 ∷ 0 ∷ 0 ∷ 0 ∷ 1 ∷ 7 ∷ []) ≡ Ok (Text (7 ∷ []), []) }
    ensures unknown { reported.read (2 ∷ 0 ∷ 0 ∷ 1 ∷ 2 ∷ []) ≡ Err Invalid }
    ensures too_many { reported.Fits (Text (7 ∷ 8 ∷ 9 ∷ 9 ∷ [])) → ⊥ }
{}

/// Forms as data.
#[tactic(auto, unfolding(crate::specs::Forms::number_at))]
pub fn shapes()
    ensures pair { (form_of (Both U8 Flag)).spell (7, true) ≡ 7 ∷ 1 ∷ [] }
    ensures left { (form_of (OneOf 1 Flag 2 U8)).spell (Left true) ≡ 0 ∷ 0 ∷ 0 ∷ 1 ∷ 1 ∷ [] }
    ensures right { (form_of (OneOf 1 Flag 2 U8)).read (0 ∷ 0 ∷ 0 ∷ 2 ∷ 7 ∷ [])
        ≡ Ok (Right 7, []) }
    ensures neither { (form_of (OneOf 1 Flag 2 U8)).read (0 ∷ 0 ∷ 0 ∷ 3 ∷ 7 ∷ []) ≡ Err Invalid }
{}

/// All of the bytes.
#[tactic(auto, unfolding(crate::specs::Forms::number_at))]
pub fn wholes()
    ensures all { whole flag (1 ∷ []) ≡ Ok true }
    ensures trailing { whole flag (1 ∷ 9 ∷ []) ≡ Err Trailing }
    ensures short { whole flag [] ≡ Err Short }
{}

/// What a reader may return.
pub fn readers()
    ensures value { Reads (λ n. n + 1) (Ok 7) (Ok 8) }
    ensures other_value { Reads (λ n. n + 1) (Ok 7) (Ok 7) → ⊥ }
    ensures other_fault { Reads {X = ℕ} {Y = ℕ} (λ n. n) (Err Short) (Err Long) → ⊥ }
    ensures gives { Gives (λ n. n + 1) (Ok 7) (Ok 7) → ⊥ }
    ensures memory { Gives {X = ℕ} {Y = ℕ} (λ n. n) (Err Memory) (Ok 7) }
    ensures fault { Gives {X = ℕ} {Y = ℕ} (λ n. n) (Err (OfFault Short)) (Err Long) → ⊥ }
{}

/// What isn't a form, a byte or a limit.
pub fn unlawful()
    ensures skips { IsForm skips → ⊥ }
    ensures forgets { IsForm forgets → ⊥ }
    ensures byte { IsBytes (256 ∷ []) → ⊥ }
    ensures sized { HasRoom (Sized 4294967296) → ⊥ }
    ensures buffer { HasRoom (Buffer NULL) → ⊥ }
{}
