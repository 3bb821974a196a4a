//! Whether a key is above the one before it.

ghost use Rattle.std.specs.Prelude.{◌≡◌, [], Some, IsTrue, IsFalse};
ghost use Rattle.std.specs.Ordering.{nat_cmp};
ghost use Rattle.zpath.specs.Grammar.{path_cmp};
ghost use Rattle.zsnapshots.specs.support.Reading.{is_above};

use zpath::Path;
use ztree::{ClientId, SessionId};

/// Returns whether the id is above the one before it, if there is one.
pub(crate) fn is_session_above(before: Option<SessionId>, id: SessionId) -> bool
    ensures { result ≡ is_above nat_cmp before id }
{
    match before {
        Some(before) => before.number() < id.number(),
        None => true,
    }
}

/// Returns whether the client is above the one before it, if there is one.
pub(crate) fn is_client_above(before: Option<ClientId>, client: ClientId) -> bool
    ensures { result ≡ is_above nat_cmp before client }
{
    match before {
        Some(before) => before.number() < client.number(),
        None => true,
    }
}

/// Returns whether the path is above the one before it.
pub(crate) fn is_path_above(before: &Path, path: &Path) -> bool
    ensures { result ≡ is_above path_cmp (Some before.now) path.now }
{
    before.cmp(path).is_lt()
}

/// Returns whether it is the path of the root.
pub(crate) fn is_root(path: &Path) -> bool
    ensures yes { IsTrue result → path.now ≡ [] }
    ensures no { IsFalse result → path.now ≡ [] → ⊥ }
{
    path.names().is_empty()
}
