//! Worked examples of the definitions. The functions do nothing.

ghost use Rattle.std.specs.Prelude.{◌≡◌, [], Some};
ghost use Rattle.std.specs.FinMap.{get};
ghost use Rattle.ztree.specs.support.Samples.{at_a, at_a_b, some_node, container, some_session};
ghost use Rattle.zstore.specs.Restored.{CanBeRoot, CanPut, CanPutSession};
ghost use Rattle.zstore.specs.support.Samples.{plain, ephemeral, timed, owned_container, rooted, with_ephemeral};

/// A tree restored from rows has them unchanged: a new child leaves its parent as it was.
pub fn rows_make_a_tree()
    ensures time { rooted.time ≡ 8 }
    ensures zxid { rooted.zxid ≡ 40 }
    ensures session { get rooted.sessions 9 ≡ Some some_session }
    ensures node { get with_ephemeral.nodes at_a ≡ Some ephemeral }
    ensures root { get with_ephemeral.nodes [] ≡ Some plain }
{}

/// A root has no owner and no TTL, and is no container.
pub fn roots()
    ensures yes { CanBeRoot plain }
    ensures owned { CanBeRoot ephemeral → ⊥ }
    ensures timed { CanBeRoot timed → ⊥ }
    ensures container { CanBeRoot container → ⊥ }
{}

/// Which sessions can be put beside session 9, at tick 8. The deadline of `some_session` is 9.
pub fn sessions_that_can_be_put()
    ensures yes { CanPutSession rooted 10 some_session }
    ensures taken { CanPutSession rooted 9 some_session → ⊥ }
    ensures nobody { CanPutSession rooted 0 some_session → ⊥ }
    ensures expired { CanPutSession rooted 10 (record some_session { deadline = 8 }) → ⊥ }
{}

/// Which nodes can be put beneath the root. The owner of `some_node` is session 9.
pub fn nodes_that_can_be_put()
    ensures yes { CanPut rooted at_a ephemeral }
    ensures taken { CanPut rooted [] plain → ⊥ }
    ensures before_its_parent { CanPut rooted at_a_b plain → ⊥ }
    ensures of_an_ephemeral { CanPut with_ephemeral at_a_b plain → ⊥ }
    ensures of_no_session { CanPut rooted at_a (record plain { owner = 8 }) → ⊥ }
    ensures two_ends { CanPut rooted at_a some_node → ⊥ }
    ensures owned_container { CanPut rooted at_a owned_container → ⊥ }
{}
