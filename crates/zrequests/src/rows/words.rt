//! Paths, data, versions, ACLs, kinds of nodes, and times.

ghost use Rattle.std.specs.Prelude.{◌≡◌, [], ◌∷◌, pos, negsuc, codes, None, Some, Ok, Err, true, false};
ghost use Rattle.zcalls.specs.Part.{named, sequential};
ghost use Rattle.zcalls.specs.declared.call.Lifetime.TheVariants.{Persistent, WithTtl, Ephemeral, Container};
ghost use Rattle.zcalls.specs.declared.call.Expected.TheVariants.{Any, Exactly};
ghost use Rattle.zrequests.specs.declared.limits.TheConstants.{NO_VERSION, ALL_PERMISSIONS, MAX_PATHS};
ghost use Rattle.zrequests.specs.Asking.{path_in, data_in, version_in, has_open_acl, kind_in, ttl_in, timed_kind_in};
ghost use Rattle.zrequests.specs.Timeouts.{ticks_asked, millis_reported};
ghost use Rattle.zrequests.specs.support.Samples.{bad, unimplemented, open_entry, terms, small};

/// Paths: null and invalid ones are refused.
#[tactic(auto, unfolding(zpath::specs::Faults::fault_of))]
pub fn paths_of_requests()
    ensures path { path_in (Some (codes "/a/b")) ≡ Ok (codes "a" ∷ codes "b" ∷ []) }
    ensures root { path_in (Some (codes "/")) ≡ Ok [] }
    ensures null { path_in None ≡ bad }
    ensures relative { path_in (Some (codes "a")) ≡ bad }
    ensures last_slash { path_in (Some (codes "/a/")) ≡ bad }
    ensures reserved { path_in (Some (codes "/zookeeper")) ≡ bad }
    ensures unicode { path_in (Some (47 ∷ 195 ∷ 164 ∷ [])) ≡ bad }
{}

/// Data: a null buffer means no bytes. Small terms accept one byte.
pub fn data_of_requests()
    ensures null { data_in terms None ≡ Ok [] }
    ensures none { data_in terms (Some []) ≡ Ok [] }
    ensures bytes { data_in terms (Some (104 ∷ 105 ∷ [])) ≡ Ok (104 ∷ 105 ∷ []) }
    ensures fits { data_in small (Some (104 ∷ [])) ≡ Ok (104 ∷ []) }
    ensures too_long { data_in small (Some (104 ∷ 105 ∷ [])) ≡ bad }
{}

/// Versions: -1 matches any, and no node has -2.
pub fn versions_of_requests()
    ensures first { version_in (pos 0) ≡ Exactly 0 }
    ensures version { version_in (pos 7) ≡ Exactly 7 }
    ensures any { version_in (negsuc 0) ≡ Any }
    ensures none { version_in (negsuc 1) ≡ Exactly NO_VERSION }
{}

/// ACLs: only the open one is accepted, named once or more.
pub fn acls_of_requests()
    ensures open { has_open_acl (Some (open_entry ∷ [])) ≡ true }
    ensures nobody { has_open_acl (Some []) ≡ false }
    ensures twice { has_open_acl (Some (open_entry ∷ open_entry ∷ [])) ≡ true }
    ensures another { has_open_acl
        (Some (open_entry ∷ record open_entry { perms = pos 1 } ∷ [])) ≡ false }
    ensures reads { has_open_acl (Some (record open_entry { perms = pos 1 } ∷ [])) ≡ false }
    ensures digest { has_open_acl
        (Some (record open_entry { scheme = Some (codes "digest") } ∷ [])) ≡ false }
    ensures null_id { has_open_acl (Some (record open_entry { id = None } ∷ [])) ≡ false }
    ensures null { has_open_acl None ≡ false }
{}

/// Kinds of nodes that session 9 creates, by their numbers.
pub fn kinds_of_requests()
    ensures persistent { kind_in 9 (pos 0) ≡ Ok (named Persistent) }
    ensures ephemeral { kind_in 9 (pos 1) ≡ Ok (named (Ephemeral 9)) }
    ensures sequential { kind_in 9 (pos 2) ≡ Ok (sequential Persistent) }
    ensures both { kind_in 9 (pos 3) ≡ Ok (sequential (Ephemeral 9)) }
    ensures container { kind_in 9 (pos 4) ≡ Ok (named Container) }
    ensures without_a_ttl { kind_in 9 (pos 5) ≡ bad }
    ensures negative { kind_in 9 (negsuc 0) ≡ bad }
    ensures timed { timed_kind_in 8 (pos 5) ≡ Ok (named (WithTtl 8)) }
    ensures timed_sequential { timed_kind_in 8 (pos 6) ≡ Ok (sequential (WithTtl 8)) }
    ensures timed_ephemeral { timed_kind_in 8 (pos 1) ≡ bad }
{}

/// TTLs with a tick of 2,000 milliseconds: a fraction of a tick is rounded up, and 0 is refused.
pub fn ttls_of_requests()
    ensures nothing { ttl_in 2000 (pos 0) ≡ bad }
    ensures part { ttl_in 2000 (pos 1) ≡ Ok 1 }
    ensures tick { ttl_in 2000 (pos 2000) ≡ Ok 1 }
    ensures more { ttl_in 2000 (pos 2001) ≡ Ok 2 }
    ensures most { ttl_in 2000 (pos 2097152000) ≡ Ok 1048576 }
    ensures too_long { ttl_in 2000 (pos 2097152001) ≡ bad }
    ensures negative { ttl_in 2000 (negsuc 0) ≡ bad }
{}

/// Timeouts with a tick of 2,000 milliseconds: what is granted is returned.
pub fn timeouts_of_requests()
    ensures five { ticks_asked 2000 (pos 10000) ≡ 5 }
    ensures part { ticks_asked 2000 (pos 10001) ≡ 6 }
    ensures none { ticks_asked 2000 (pos 0) ≡ 0 }
    ensures negative { ticks_asked 2000 (negsuc 4) ≡ 0 }
    ensures reported { millis_reported 2000 5 ≡ pos 10000 }
    ensures least { millis_reported 2000 2 ≡ pos 4000 }
    ensures most { millis_reported 2000 20 ≡ pos 40000 }
    ensures bits { millis_reported 4294967295 20 ≡ pos 2147483647 }
{}

/// The limits as numbers.
pub fn limits_are_numbers()
    ensures version { NO_VERSION ≡ 2305843009213693952 }
    ensures permissions { ALL_PERMISSIONS ≡ pos 31 }
    ensures paths { MAX_PATHS ≡ 10000 }
{}
