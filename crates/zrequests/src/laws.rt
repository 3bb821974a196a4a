//! Laws of the definitions. Each function's contract is a law; its body does nothing.

ghost use Rattle.zrequests.specs.Laws.{CallsAreForTheirSession, NoNodeHasNoVersion};
ghost use Rattle.zrequests.specs.Laws.{RefusedPartsAreNeverDone};

/// The calls of a request act for the session of its connection only. They create no node for
/// another session and close no other. They open or renew no session, and move no clock.
pub fn calls_are_for_their_session()
    ensures { CallsAreForTheirSession }
{}

/// A multi with a part that is refused at once changes no tree, whatever its other parts are.
pub fn refused_parts_are_never_done()
    ensures { RefusedPartsAreNeverDone }
{}

/// No node has the version `NO_VERSION`, and no access control list has: each version in a tree
/// that a machine holds is below it.
pub fn no_node_has_no_version()
    ensures { NoNodeHasNoVersion }
{}
