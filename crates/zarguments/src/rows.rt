//! Worked examples of the definitions. Each clause is one; the bodies do nothing.

ghost use Rattle.std.specs.Prelude.{◌≡◌, [], ◌∷◌, codes, Some, None};
ghost use Rattle.zarguments.specs.support.Rows.{race_asked};

/// Good words: each option has the number that they give, or its default.
pub fn words_give_numbers()
    ensures none { race_asked (codes "zk race") ≡ Some (4 ∷ 100 ∷ []) }
    ensures one { race_asked (codes "zk race --rounds 7") ≡ Some (4 ∷ 7 ∷ []) }
    ensures both { race_asked (codes "zk race --rounds 7 --clients 2") ≡ Some (2 ∷ 7 ∷ []) }
    ensures joined { race_asked (codes "zk race --clients=31") ≡ Some (31 ∷ 100 ∷ []) }
    ensures zeros { race_asked (codes "any race --clients 007") ≡ Some (7 ∷ 100 ∷ []) }
{}

/// Bad words: they give no numbers.
pub fn bad_words_give_none()
    ensures no_subcommand { race_asked (codes "zk") ≡ None }
    ensures another { race_asked (codes "zk script") ≡ None }
    ensures help { race_asked (codes "zk race --help") ≡ None }
    ensures more { race_asked (codes "zk race 7") ≡ None }
    ensures no_number { race_asked (codes "zk race --clients") ≡ None }
    ensures a_word { race_asked (codes "zk race --clients two") ≡ None }
    ensures too_great { race_asked (codes "zk race --clients 65536") ≡ None }
    ensures twice { race_asked (codes "zk race --clients 2 --clients 2") ≡ None }
    ensures unknown { race_asked (codes "zk race --servers 2") ≡ None }
    ensures before { race_asked (codes "zk --clients 2 race") ≡ None }
{}
