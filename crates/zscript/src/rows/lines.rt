//! Worked examples of a script's lines.

ghost use Rattle.std.specs.Prelude.{◌≡◌, [], ◌∷◌, codes};
ghost use Rattle.zscript.specs.Script.{lines_of, whole_lines_of};

/// Worked examples of a script's lines.
pub fn lines()
    ensures two_lines { lines_of (97 ∷ 10 ∷ 98 ∷ []) ≡ codes "a" ∷ codes "b" ∷ [] }
    ensures last_end { lines_of (97 ∷ 10 ∷ []) ≡ codes "a" ∷ [] }
    ensures empty_lines { lines_of (10 ∷ 10 ∷ []) ≡ [] ∷ [] ∷ [] }
    ensures nothing { lines_of [] ≡ [] }
    ensures one_whole_line { whole_lines_of (97 ∷ 10 ∷ 98 ∷ 98 ∷ []) ≡ codes "a" ∷ [] }
    ensures no_whole_line { whole_lines_of (97 ∷ 98 ∷ []) ≡ [] }
    ensures empty_whole_lines { whole_lines_of (97 ∷ 10 ∷ 10 ∷ []) ≡ codes "a" ∷ [] ∷ [] }
{}
