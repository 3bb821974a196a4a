//! Laws of the definitions. Each function's contract is a law; its body does nothing.

ghost use Rattle.zcalls.specs.CallRuns.{ZxidsRise, ChangesTakeOneZxid, VersionCountsSets, NumbersDiffer};
ghost use Rattle.zcalls.specs.Cached.{Plain, PlainStep};
ghost use Rattle.zcalls.specs.CachedLaws.{FirstEntriesAct, RetryChangesNothing, KeptNumbersRise, LowNumbersChangeNothing};
ghost use Rattle.zcalls.specs.CachedLaws.{NoCallActsTwice, RepliesAreOfActs, RepliesStayUntilTheNext, OnlyActsCount, SameReplyEachTime};
ghost use Rattle.zcalls.specs.Laws.{RefusedChangesNothing, RefusedMultiChangesNothing, CountsTheNames, ListsInOrder};
ghost use Rattle.zcalls.specs.Laws.{LimitsStay, AclIsCounted};
ghost use Rattle.zcalls.specs.SessionLaws.{TreesAreLawful, EndsOnlySo, TickEndsTheDue, EndTakesItsOwn, OpenAndPingRenew, LivesItsTimeout};
ghost use Rattle.zcalls.specs.TtlLaws.{TickRemovesTheStale, SetPutsOff, NobodyOwnsTheTimed, LastsUntilRemoved, TickTakesOneZxid};

/// A refused call leaves the whole tree unchanged. So does a multi that is refused in one of its
/// parts.
pub fn refused_calls_change_nothing()
    ensures call { RefusedChangesNothing }
    ensures multi { RefusedMultiChangesNothing }
{}

/// No call changes the limits of the tree.
pub fn limits_stay()
    ensures { LimitsStay }
{}

/// A successful write of an access control list counts it at its node, and changes no other node.
pub fn acl_writes_are_counted()
    ensures { AclIsCounted }
{}

/// The number of children in a node's stat is the number of names listed for it.
pub fn stat_counts_the_names()
    ensures { CountsTheNames }
{}

/// The names of a node's children are listed in byte order, each once.
pub fn names_are_in_order()
    ensures { ListsInOrder }
{}

/// After any calls from an initial tree, the zxid of a change is greater than every czxid, mzxid
/// and pzxid before it.
pub fn zxids_rise()
    ensures { ZxidsRise }
{}

/// A call takes one zxid if it makes a change, and otherwise none. A ping and a refused call take
/// none; a tick takes one only if it ends a session or removes a node.
pub fn changes_take_one_zxid()
    ensures { ChangesTakeOneZxid }
{}

/// After any calls from an initial tree, a node's version is the number of successful sets since
/// its creation. The parts of a successful multi count one by one.
pub fn versions_count_sets()
    ensures { VersionCountsSets }
{}

/// After any calls from an initial tree, two sequential creates beneath one node never make the
/// same name. That holds from the node's creation until its removal.
pub fn numbers_differ()
    ensures { NumbersDiffer }
{}

/// After any calls from an initial tree, the tree is lawful: no ephemeral outlives its session.
pub fn trees_are_lawful()
    ensures { TreesAreLawful }
{}

/// A session ends only by its own client's close, or at a tick that isn't refused and reaches its
/// deadline.
pub fn sessions_end_only_so()
    ensures { EndsOnlySo }
{}

/// A tick that isn't refused ends exactly the sessions whose deadline it reaches. (A refused one
/// changes nothing, like any refused call.)
pub fn a_tick_ends_the_due()
    ensures { TickEndsTheDue }
{}

/// The end of a session removes exactly the nodes that it owns.
pub fn an_end_takes_its_own()
    ensures { EndTakesItsOwn }
{}

/// A successful open or ping gives the session its whole timeout.
pub fn open_and_ping_renew()
    ensures { OpenAndPingRenew }
{}

/// A session is alive while it isn't closed and has had fewer ticks than its timeout since its open
/// or last ping.
pub fn sessions_live_their_timeout()
    ensures { LivesItsTimeout }
{}

/// A tick that isn't refused removes a node with a TTL exactly when the TTL has expired, and a
/// container exactly when it has had children. Either goes only if it had no children before the
/// tick. So none goes early or with children, nor a container that never had any.
pub fn a_tick_removes_the_stale()
    ensures { TickRemovesTheStale }
{}

/// A successful set restarts the TTL of its node.
pub fn a_set_puts_off()
    ensures { SetPutsOff }
{}

/// After any calls from an initial tree, a node with a TTL or a container is not an ephemeral.
pub fn nobody_owns_the_timed()
    ensures { NobodyOwnsTheTimed }
{}

/// A node without an owner, such as one with a TTL or a container, disappears only by a delete of
/// it or a tick.
pub fn the_unowned_last()
    ensures { LastsUntilRemoved }
{}

/// A tick takes one zxid for all that it ends and removes, and none if there is nothing.
pub fn a_tick_takes_one_zxid()
    ensures { TickTakesOneZxid }
{}

/// Over any sequential step: where nothing is cached, an entry with a number from 1 on acts.
pub fn first_entries_act<P>()
    ensures { (step : PlainStep P) → FirstEntriesAct step }
{}

/// Over any sequential step: a repeated entry that had a reply gets the same reply, and then
/// changes nothing.
pub fn retries_change_nothing<P>()
    ensures { (step : PlainStep P) → RetryChangesNothing step }
{}

/// Over any sequential step and any entries, the number of a client's last call that acted never
/// falls.
pub fn kept_numbers_rise<P>()
    ensures { (step : PlainStep P) → KeptNumbersRise step }
{}

/// Over any sequential step, an entry whose number isn't above its client's last one changes
/// nothing.
pub fn low_numbers_change_nothing<P>()
    ensures { (step : PlainStep P) → LowNumbersChangeNothing step }
{}

/// Over any sequential step and any entries, no call acts twice.
pub fn no_call_acts_twice<P>()
    ensures { (step : PlainStep P) → NoCallActsTwice step }
{}

/// Over any sequential service and after any log, a reply to an entry is the one its call got when
/// it acted.
pub fn replies_are_of_acts<P>()
    ensures { (plain : Plain P) → RepliesAreOfActs plain }
{}

/// Over any sequential step, a reply that an entry had is returned again after any entries. That
/// holds until one of its client with a greater number acts.
pub fn replies_stay_until_the_next<P>()
    ensures { (step : PlainStep P) → RepliesStayUntilTheNext step }
{}

/// Over any sequential step and any entries, the sequential state is that of the calls that acted,
/// in order. An entry may occur any number of times and at any position.
pub fn only_acts_count<P>()
    ensures { (step : PlainStep P) → OnlyActsCount step }
{}

/// Over any sequential step, a call that has a reply has the same one each time, whatever entries
/// are applied in between.
pub fn same_reply_each_time<P>()
    ensures { (step : PlainStep P) → SameReplyEachTime step }
{}
