//! Worked examples of the definitions. The functions do nothing.

ghost use Rattle.std.specs.Prelude.{◌≡◌, [], ◌∷◌, ◌++◌, codes, true, false, Ok, Err, None, Some};
ghost use Rattle.zlogins.specs.declared.fault.LoginsFault.TheVariants.{Empty, NoDigest, NoHash};
ghost use Rattle.zlogins.specs.Logins.{colon_in, hash_of, is_listed, is_login, login_of, user_of};
ghost use Rattle.zlogins.specs.Reading.{behind_digest, lines_of, logins_in};
ghost use Rattle.zlogins.specs.support.Vectors.{ann, bob};

/// A login's parts.
pub fn parts_of_logins()
    ensures user { user_of (codes "ann:se:cret") ≡ codes "ann" }
    ensures hash { hash_of (codes "ann:se:cret") ≡ codes "se:cret" }
    ensures no_colon { user_of (codes "ann") ≡ codes "ann" }
    ensures no_hash { hash_of (codes "ann") ≡ [] }
    ensures no_user { colon_in (codes ":secret") ≡ 0 }
{}

/// The logins of a `user:password`.
pub fn logins_are_spelled()
    ensures ann { login_of (codes "ann:secret") ≡ ann }
    ensures bob { login_of (codes "bob:word") ≡ bob }
{}

/// Who is listed.
pub fn who_is_listed()
    ensures first { is_listed (ann ∷ bob ∷ []) (codes "ann:secret") ≡ true }
    ensures last { is_listed (ann ∷ bob ∷ []) (codes "bob:word") ≡ true }
    ensures other_password { is_listed (ann ∷ bob ∷ []) (codes "ann:word") ≡ false }
    ensures other_user { is_listed (bob ∷ []) (codes "ann:secret") ≡ false }
    ensures none { is_listed [] (codes "ann:secret") ≡ false }
{}

/// What is spelled as a login.
#[tactic(auto, unfolding(base64::proofs::OnLiterals::base64_on_literals))]
pub fn spelled_logins()
    ensures ann { is_login ann ≡ true }
    ensures no_hash { is_login (codes "ann:") ≡ false }
    ensures no_colon { is_login (codes "ann") ≡ false }
    ensures other_length { is_login (codes "ann:aGk=") ≡ false }
    ensures no_base64 { is_login (codes "ann:7RJfAeIvrl4zdj6sS2fXrQHDvHM") ≡ false }
{}

/// The lines of a text.
pub fn lines()
    ensures two { lines_of (codes "a\nb") ≡ codes "a" ∷ codes "b" ∷ [] }
    ensures ended { lines_of (codes "a\n") ≡ codes "a" ∷ [] ∷ [] }
    ensures none { lines_of [] ≡ [] ∷ [] }
    ensures scheme { behind_digest (codes "digest ann") ≡ Some (codes "ann") }
    ensures other_scheme { behind_digest (codes "ip 10.0.0.1") ≡ None }
    ensures upper_case { behind_digest (codes "Digest ann") ≡ None }
{}

/// The logins of a text, or its first fault.
#[tactic(auto, unfolding(base64::proofs::OnLiterals::base64_on_literals))]
pub fn texts_have_logins()
    ensures two { logins_in (codes "digest " ++ (ann ++ (codes "\n\ndigest " ++ (bob ++ codes "\n"))))
        ≡ Ok (ann ∷ bob ∷ []) }
    ensures empty { logins_in [] ≡ Err Empty }
    ensures blank { logins_in (codes "\n\n") ≡ Err Empty }
    ensures no_digest { logins_in (codes "\nann:secret\n") ≡ Err (NoDigest 2) }
    ensures no_hash { logins_in (codes "digest ann:secret") ≡ Err (NoHash 1) }
    ensures carriage_return { logins_in (codes "digest " ++ (ann ++ codes "\r\n"))
        ≡ Err (NoHash 1) }
{}
