//! Worked clusters, and logs that explain nothing. Each function's contract has some, and its body
//! does nothing.

ghost use Rattle.std.specs.Prelude.{◌≡◌, ℕ, List, [], ◌∷◌, ◌++◌, Option, None, Some};
ghost use Rattle.ztree.specs.Tree.{Tree};
ghost use Rattle.zcalls.specs.declared.call.Call.TheVariants as call;
ghost use Rattle.zcalls.specs.declared.call.Query.{Query};
ghost use Rattle.zcalls.specs.declared.call.Update.{Update};
ghost use Rattle.zcalls.specs.declared.call.Update.TheVariants.{Ping, Tick};
ghost use Rattle.zcalls.specs.declared.reply.Reply.{Reply};
ghost use Rattle.zcalls.specs.Cached.{CachedState};
ghost use Rattle.zcalls.specs.Step.{step};
ghost use Rattle.zprotocol.specs.declared.process.Process.TheVariants.{Server};
ghost use Rattle.zprotocol.specs.declared.world.event.Event.TheVariants.{Fail};
ghost use Rattle.zheads.specs.Heads.{Heads};
ghost use Rattle.zwatches.specs.declared.limits.WatchLimits.{WatchLimits};
ghost use Rattle.zresponses.specs.declared.clock.Clock.{Clock};
ghost use Rattle.zcluster_laws.specs.Cluster.{BeginsAt, ChainDoes, Cluster, Commits, Fronted};
ghost use Rattle.zcluster_laws.specs.Cluster.{Handled, Happens, Reaction, Runs, SendsAt, Sent};
ghost use Rattle.zcluster_laws.specs.Cluster.{machine, need, opening_cluster};
ghost use Rattle.zcluster_laws.specs.Laws.{Explains, IsServed};
ghost use Rattle.zcluster_laws.specs.support.ClusterRows.{alone, appended, cluster, fails};
ghost use Rattle.zcluster_laws.specs.support.ClusterRows.{cluster_with, heads_after, quiet, reaction};
ghost use Rattle.zcluster_laws.specs.support.ClusterRows.{successor_has_it, successor_lacks_it};
ghost use Rattle.zcluster_laws.specs.support.ClusterRows.{tree_at, two_heads};

/// A reaction waits for the entry of its last call, if that is an update. Else it waits for the
/// next entry, whatever that is.
pub fn reactions_wait_for_an_entry()
    ensures update { (u : Update) (r : Reply) → need (reaction ((call.Update u, r) ∷ []) 2 3) ≡ 3 }
    ensures query { (q : Query) (r : Reply) → need (reaction ((call.Query q, r) ∷ []) 3 3) ≡ 4 }
    ensures none { need (reaction [] 3 3) ≡ 4 }
    ensures query_first { (q : Query) (u : Update) (r s : Reply)
        → need (reaction ((call.Query q, r) ∷ (call.Update u, s) ∷ []) 2 3) ≡ 3 }
    ensures query_last { (u : Update) (q : Query) (r s : Reply)
        → need (reaction ((call.Update u, r) ∷ (call.Query q, s) ∷ []) 2 3) ≡ 4 }
{}

/// Calls at a head get entries. A server that isn't the head takes none. What a head that fails
/// had sent may be lost.
pub fn heads_take_calls()
    ensures update { (t : Tree) (limits : WatchLimits) (secret : List ℕ) (times : Clock)
        (u : Update)
        (new : Heads (CachedState Tree))
        → Commits (machine t limits secret times) 1 (call.Update u ∷ []) (heads_after t []) new
        → (new.world.servers 1).last ≡ 1 }
    ensures query { (t : Tree) (limits : WatchLimits) (secret : List ℕ) (times : Clock) (q : Query)
        (new : Heads (CachedState Tree))
        → Commits (machine t limits secret times) 1 (call.Query q ∷ []) (heads_after t []) new
        → (new.world.servers 1).last ≡ 0 }
    ensures tail { (t : Tree) (limits : WatchLimits) (secret : List ℕ) (times : Clock) (u : Update)
        (new : Heads (CachedState Tree))
        → Commits (machine t limits secret times) 2 (call.Update u ∷ []) (heads_after t []) new
        → ⊥ }
    ensures lost { (t : Tree) (limits : WatchLimits) (secret : List ℕ) (times : Clock) (u : Update)
        → (new : Heads (CachedState Tree)) × Happens (machine t limits secret times) (fails 1)
        (heads_after t (appended u)) new × (new.world.links (Server 1) (Server 2) ≡ []) }
{}

/// The first reaction of a front is sent once the entries up to the one that it waits for have left
/// Sent, and not before. A reaction that ends in a query waits for one entry more.
pub fn chunks_are_released()
    ensures waits { (t : Tree) (limits : WatchLimits) (secret : List ℕ) (times : Clock)
        (u : Update) (r : Reply)
        (p : Fronted) (new : Cluster)
        → SendsAt t limits secret times 1 (cluster_with (heads_after t (appended u))
        (record p { held = reaction ((call.Update u, r) ∷ []) 0 1 ∷ [] })) new → ⊥ }
    ensures released { (t : Tree) (limits : WatchLimits) (secret : List ℕ) (times : Clock)
        (u : Update) (r : Reply)
        (p : Fronted) → let b : Reaction = reaction ((call.Update u, r) ∷ []) 0 1 in
        (new : Cluster) × SendsAt t limits secret times 1 (cluster_with (heads_after t (alone u))
        (record p { held = b ∷ [] })) new × (new.visible ≡ Sent b ∷ []) }
    ensures query { (t : Tree) (limits : WatchLimits) (secret : List ℕ) (times : Clock)
        (u : Update) (q : Query)
        (r s : Reply) (p : Fronted) (new : Cluster)
        → SendsAt t limits secret times 1 (cluster_with (heads_after t (alone u)) (record p {
          held = reaction ((call.Update u, r) ∷ (call.Query q, s) ∷ []) 0 1 ∷ [];
        })) new → ⊥ }
    ensures in_order { (t : Tree) (limits : WatchLimits) (secret : List ℕ) (times : Clock)
        (p : Fronted)
        (first second : Reaction) (h : Heads (CachedState Tree)) (new : Cluster)
        → SendsAt t limits secret times 1 (cluster_with h
        (record p { held = first ∷ second ∷ [] })) new → new.visible ≡ Sent first ∷ [] }
{}

/// The front of a head that fails is dropped with all that waits, and nothing of it is ever sent.
pub fn chunks_of_a_lost_head_are_lost()
    ensures dropped { (t : Tree) (limits : WatchLimits) (secret : List ℕ) (times : Clock)
        (c new : Cluster)
        → ChainDoes t limits secret times (Fail 1) c new → new.fronts 1 ≡ None }
    ensures silent { (t : Tree) (limits : WatchLimits) (secret : List ℕ) (times : Clock)
        (c new : Cluster)
        → c.fronts 1 ≡ None → SendsAt t limits secret times 1 c new → ⊥ }
{}

/// Two heads, one after the other. A front begins with the tree that its predecessor's log gives:
/// with its last entry, if the successor has it, else without.
pub fn fronts_follow_each_other()
    ensures first { (t : Tree) (limits : WatchLimits) (secret : List ℕ) (times : Clock)
        (new : Cluster)
        → BeginsAt t limits secret times 1 (cluster (heads_after t [])) new
        → tree_at 1 new ≡ Some t }
    ensures had { (t : Tree) (limits : WatchLimits) (secret : List ℕ) (times : Clock) (u : Update)
        (new : Cluster)
        → BeginsAt t limits secret times 2 (cluster (heads_after t (successor_has_it u))) new
        → tree_at 2 new ≡ Some (step t 0 u).0 }
    ensures lacked { (t : Tree) (limits : WatchLimits) (secret : List ℕ) (times : Clock)
        (u : Update) (new : Cluster)
        → BeginsAt t limits secret times 2 (cluster (heads_after t (successor_lacks_it u))) new
        → tree_at 2 new ≡ Some t }
    ensures too_soon { (t : Tree) (limits : WatchLimits) (secret : List ℕ) (times : Clock)
        (new : Cluster)
        → BeginsAt t limits secret times 2 (cluster (heads_after t [])) new → ⊥ }
{}

/// A run with two heads, one after the other. The front at each handles an input without calls,
/// and its reaction waits for an entry. The first head fails, so what its front held is never sent.
/// The second appends an entry that changes nothing, and its front's reaction is sent.
pub fn two_heads_have_fronts()
    ensures { (t : Tree) (limits : WatchLimits) (secret : List ℕ) (times : Clock) (u : Update) →
        (step t 0 u).0 ≡ t
        → (new : Cluster) × Runs t limits secret times (two_heads u)
        (opening_cluster t limits secret times 2) new
        × (new.visible ≡ Handled (quiet t 7) ∷ Handled (quiet t 8) ∷ Sent (quiet t 8) ∷ []) }
{}

/// What no log explains: a reply of another place, two updates at one place, and an input whose
/// calls come before those of an answer that was sent earlier.
pub fn logs_that_explain_nothing()
    ensures reply { (t : Tree) (log : List Update) (u : Update) (r : Reply)
        → IsServed t log (reaction ((call.Update u, r) ∷ []) 0 1) → r ≡ (step t 0 u).1 }
    ensures two_logs { (t : Tree) (h : Heads (CachedState Tree)) (log : List Update)
        (fronts : ℕ → Option Fronted) (r s : Reply)
        → let one : Reaction = reaction ((call.Update Tick, r) ∷ []) 0 1 in
        let two : Reaction = reaction ((call.Update (Ping 7), s) ∷ []) 0 1 in
        Explains t (record { heads = h; fronts = fronts; visible = Sent one ∷ Sent two ∷ [] }) log
        → ⊥ }
    ensures stale { (t : Tree) (h : Heads (CachedState Tree)) (log : List Update)
        (fronts : ℕ → Option Fronted) (q : Query) (r s : Reply)
        → let one : Reaction = reaction ((call.Update Tick, r) ∷ []) 0 1 in
        let two : Reaction = reaction ((call.Query q, s) ∷ []) 0 0 in
        Explains t
        (record { heads = h; fronts = fronts; visible = Sent one ∷ Handled two ∷ [] }) log
        → ⊥ }
{}
