//! Worked examples of the definitions. The functions do nothing.

ghost use Rattle.std.specs.Prelude.{◌≡◌, [], ◌∷◌, None, Some, true, false};
ghost use Rattle.ztree.specs.declared.limits.TheConstants.{MAX_DATA, MAX_NODES, MAX_SESSIONS, MAX_CLIENTS, MAX_TTL, CONTAINER_OWNER};
ghost use Rattle.ztree.specs.declared.limits.TheConstants.{MIN_TIMEOUT, MAX_TIMEOUT, MOST_DATA, MOST_NODES, MOST_SESSIONS, MOST_TIMEOUT};
ghost use Rattle.ztree.specs.declared.term.Term.TheVariants.{Unlimited, Timed, Container};
ghost use Rattle.ztree.specs.declared.limits.TheConstants.{ZXID_BOUND, TICK_BOUND, COUNTER_BOUND, DEADLINE_BOUND};
ghost use Rattle.std.specs.FinMap as finite;
ghost use Rattle.ztree.specs.Tree.{parent_of, child_name, stat_with};
ghost use Rattle.ztree.specs.Limits.{AreLimits, profile};
ghost use Rattle.ztree.specs.Counts.{owned_count, data_count};
ghost use Rattle.ztree.specs.Tree.{opening_tree, opening_within};
ghost use Rattle.ztree.specs.Tree.{with_child, without_child, with_data, with_acl, new_node, without_node};
ghost use Rattle.ztree.specs.Sessions.{new_session, renewed_session};
ghost use Rattle.ztree.specs.Stale.{may_end, is_due, stale_nodes};
ghost use Rattle.ztree.specs.Lawful.{HasPaths};
ghost use Rattle.ztree.specs.support.Samples.{b, at_a, at_a_b, some_node, container, fresh_container, some_stat, after_change};
ghost use Rattle.ztree.specs.support.Samples.{after_numbered_child, written_node, made_node};
ghost use Rattle.ztree.specs.support.Samples.{some_session, two_nodes, three_nodes, with_container};

/// Parents and children of paths.
pub fn families()
    ensures root { parent_of [] ≡ [] }
    ensures parent { parent_of at_a_b ≡ at_a }
    ensures child { child_name at_a at_a_b ≡ Some b }
    ensures grandchild { child_name [] at_a_b ≡ None }
    ensures stranger { child_name at_a (b ∷ (b ∷ [])) ≡ None }
{}

/// The stat of a node, and the node after each change.
pub fn changes_of_a_node()
    ensures stat { stat_with some_node 11 ≡ some_stat }
    ensures container { stat_with container 11
        ≡ record some_stat { owner = 9223372036854775808 } }
    ensures child { with_child 20 false some_node ≡ after_change 20 }
    ensures sequential { with_child 20 true some_node ≡ after_numbered_child 20 }
    ensures loss { without_child 20 some_node ≡ after_change 20 }
    ensures data { with_data b 20 21 some_node ≡ written_node }
    ensures acl { with_acl some_node ≡ record some_node { aversion = 14 } }
{}

/// Limits that a tree can have, and those that it can't: no room for the root, and too much of each.
/// The initial state has those that were chosen.
pub fn limits_of_trees()
    ensures profile { AreLimits profile }
    ensures least { AreLimits (record { nodes = 1; sessions = 0; timeout = 2 }) }
    ensures most { AreLimits
        (record { nodes = 2097152; sessions = 1048576; timeout = 1048576 }) }
    ensures no_nodes { AreLimits (record profile { nodes = 0 }) → ⊥ }
    ensures nodes { AreLimits (record profile { nodes = 2097153 }) → ⊥ }
    ensures sessions { AreLimits (record profile { sessions = 1048577 }) → ⊥ }
    ensures short { AreLimits (record profile { timeout = 1 }) → ⊥ }
    ensures long { AreLimits (record profile { timeout = 1048577 }) → ⊥ }
    ensures opening { opening_tree.limits ≡ record { nodes = 4096; sessions = 1024; timeout = 20 } }
    ensures chosen { (opening_within (record profile { nodes = 7 })).limits.nodes ≡ 7 }
{}

/// The number of ephemerals and the bytes of data of two nodes.
pub fn counts()
    ensures owned { owned_count two_nodes.nodes ≡ 2 }
    ensures no_owner { owned_count (with_container container).nodes ≡ 0 }
    ensures data { data_count two_nodes.nodes ≡ 4 }
{}

/// When a TTL has expired, and which of two such nodes a tick removes: the one without a child.
pub fn times_to_live()
    ensures early { is_due 16 some_node ≡ false }
    ensures due { is_due 17 some_node ≡ true }
    ensures late { is_due 18 some_node ≡ true }
    ensures for_good { is_due 17 (record some_node { term = Unlimited }) ≡ false }
    ensures none_yet { stale_nodes two_nodes.nodes 16 ≡ [] }
    ensures leaves_alone { stale_nodes two_nodes.nodes 17 ≡ at_a ∷ [] }
{}

/// When a container is due: once it has had a child, at any tick. A tick removes it then, if it has
/// no children. One that never had a child stays.
pub fn containers()
    ensures fresh { is_due 17 fresh_container ≡ false }
    ensures first_child { is_due 17 (with_child 20 false fresh_container) ≡ true }
    ensures at_once { is_due 0 container ≡ true }
    ensures leaves_alone { stale_nodes (with_container container).nodes 0 ≡ at_a ∷ [] }
    ensures fresh_stays { stale_nodes (with_container fresh_container).nodes 17 ≡ [] }
{}

/// Which nodes a tick may ever remove, by their terms.
pub fn terms()
    ensures unlimited { may_end Unlimited ≡ false }
    ensures timed { may_end (Timed 12) ≡ true }
    ensures container { may_end Container ≡ true }
{}

/// The deadlines of a session.
pub fn changes_of_a_session()
    ensures opened { new_session 3 5 4 ≡ some_session }
    ensures renewed { renewed_session 20 some_session ≡ record some_session { deadline = 25 } }
{}

/// An empty name makes no path.
pub fn keys_are_paths()
    ensures { HasPaths (finite.insert finite.empty ([] ∷ []) some_node) → ⊥ }
{}

/// A new node has the zxid and the tick of its creation in every field for them.
pub fn new_nodes()
    ensures { new_node b 9 (Timed 12) 20 21 ≡ made_node }
{}

/// A tree of two nodes after change 41, at tick 30, creates a child of the second node, or removes
/// that node.
pub fn changes_of_a_tree()
    ensures made { finite.get (three_nodes false).nodes at_a_b
        ≡ Some (new_node b 9 (Timed 12) 41 30) }
    ensures parent { finite.get (three_nodes false).nodes at_a ≡ Some (after_change 41) }
    ensures sequential { finite.get (three_nodes true).nodes at_a ≡ Some (after_numbered_child 41) }
    ensures grandparent { finite.get (three_nodes true).nodes [] ≡ Some some_node }
    ensures gone { finite.get (without_node two_nodes at_a).nodes at_a ≡ None }
    ensures left { finite.get (without_node two_nodes at_a).nodes [] ≡ Some (after_change 41) }
    ensures number_is_taken_later { (three_nodes true).zxid ≡ 40 }
{}

/// The limits as numbers.
pub fn limits_are_numbers()
    ensures data { MAX_DATA ≡ 65536 }
    ensures nodes { MAX_NODES ≡ 4096 }
    ensures sessions { MAX_SESSIONS ≡ 1024 }
    ensures least_timeout { MIN_TIMEOUT ≡ 2 }
    ensures greatest_timeout { MAX_TIMEOUT ≡ 20 }
    ensures most_data { MOST_DATA ≡ 1048487 }
    ensures most_nodes { MOST_NODES ≡ 2097152 }
    ensures most_sessions { MOST_SESSIONS ≡ 1048576 }
    ensures most_timeout { MOST_TIMEOUT ≡ 1048576 }
    ensures clients { MAX_CLIENTS ≡ 32 }
    ensures ttls { MAX_TTL ≡ 1048576 }
    ensures containers { CONTAINER_OWNER ≡ 9223372036854775808 }
    ensures zxids { ZXID_BOUND ≡ 1099511627776 }
    ensures ticks { TICK_BOUND ≡ 1099511627776 }
    ensures counters { COUNTER_BOUND ≡ 4611686018427387904 }
    ensures deadlines { DEADLINE_BOUND ≡ 4611686018427387904 }
{}
