//! The codes of refusals.

ghost use Rattle.std.specs.Prelude.{◌≡◌};
ghost use Rattle.zcalls.specs.declared.refusal.Refusal.TheVariants.{NoNode, NodeExists, NotEmpty, BadVersion, NoChildrenForEphemerals, SessionGone};
ghost use Rattle.zcalls.specs.declared.refusal.Refusal.TheVariants.{SequenceFull, PathLimit, RootFixed, Full, TooManySessions, Exhausted};
ghost use Rattle.zjute.specs.declared.code.Code.TheVariants as code;
ghost use Rattle.zrequests.specs.Codes.{code_of};

/// Refusals that ZooKeeper also has.
pub fn codes_of_ours()
    ensures no_node { code_of NoNode ≡ code.NoNode }
    ensures node_exists { code_of NodeExists ≡ code.NodeExists }
    ensures not_empty { code_of NotEmpty ≡ code.NotEmpty }
    ensures bad_version { code_of BadVersion ≡ code.BadVersion }
    ensures ephemeral { code_of NoChildrenForEphemerals ≡ code.NoChildrenForEphemerals }
    ensures session { code_of SessionGone ≡ code.SessionExpired }
{}

/// Refusals that only this service has: limits, and the root that can't be deleted.
pub fn codes_of_limits()
    ensures sequence { code_of SequenceFull ≡ code.SystemError }
    ensures path { code_of PathLimit ≡ code.BadArguments }
    ensures root { code_of RootFixed ≡ code.BadArguments }
    ensures full { code_of Full ≡ code.SystemError }
    ensures sessions { code_of TooManySessions ≡ code.SystemError }
    ensures exhausted { code_of Exhausted ≡ code.SystemError }
{}
