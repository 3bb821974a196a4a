//! Worked examples of the definitions. The function does nothing.

ghost use Rattle.std.specs.Prelude.{◌≡◌, pos};
ghost use Rattle.zresponses.specs.Stats.{told};
ghost use Rattle.zdaemon.specs.Bases.{base_at};

/// The bases of starts in 1970, and a millisecond later; and of one in November 2026.
pub fn bases()
    ensures first { base_at 0 ≡ 0 }
    ensures next { base_at 1 ≡ 1048576 }
    ensures later { told (base_at 1796083200000) 7 ≡ pos 1883329737523200007 }
    ensures last { base_at 4398046511103 ≡ 4611686018426339328 }
    ensures behind { base_at 4398046511104 ≡ 4611686018426339328 }
{}
