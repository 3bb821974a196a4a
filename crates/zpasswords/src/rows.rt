//! Worked examples of the definitions. The functions do nothing.

ghost use Rattle.std.specs.Prelude.{◌≡◌, [], ◌∷◌, ◌++◌, codes, replicate};
ghost use Rattle.zpasswords.specs.Hmac.{hmac_sha256, padded, xored};
ghost use Rattle.zpasswords.specs.Passwords.{password_of, session_bytes};
ghost use Rattle.zpasswords.specs.support.Vectors.{for_nothing, hi_there, key_of_11s};
ghost use Rattle.zpasswords.specs.support.Vectors.{password_of_258, password_of_7, secret};

/// The id of a session in bytes.
pub fn ids_are_bytes()
    ensures none { session_bytes 0 ≡ replicate 8 0 }
    ensures two_bytes { session_bytes 258 ≡ 0 ∷ 0 ∷ 0 ∷ 0 ∷ 0 ∷ 0 ∷ 1 ∷ 2 ∷ [] }
    ensures greatest { session_bytes 0xffff_ffff_ffff_ffff ≡ replicate 8 255 }
{}

/// The key's block.
pub fn keys_are_padded()
    ensures short { padded (7 ∷ 8 ∷ []) ≡ 7 ∷ 8 ∷ replicate 62 0 }
    ensures secret { padded secret ≡ secret ++ replicate 32 0 }
    ensures whole { padded (replicate 64 7) ≡ replicate 64 7 }
    ensures inner { xored 0x36 (0 ∷ 1 ∷ 0x36 ∷ []) ≡ 0x36 ∷ 0x37 ∷ 0 ∷ [] }
    ensures outer { xored 0x5c (0 ∷ 1 ∷ 0x36 ∷ []) ≡ 0x5c ∷ 0x5d ∷ 0x6a ∷ [] }
{}

/// Digests of messages under keys.
pub fn digests()
    ensures hi_there { hmac_sha256 key_of_11s (codes "Hi There") ≡ hi_there }
    ensures for_nothing { hmac_sha256 (codes "Jefe") (codes "what do ya want for nothing?")
        ≡ for_nothing }
{}

/// Sessions have different passwords.
pub fn passwords()
    ensures seventh { password_of secret 7 ≡ password_of_7 }
    ensures other { password_of secret 258 ≡ password_of_258 }
{}
