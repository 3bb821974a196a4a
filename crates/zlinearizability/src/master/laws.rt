//! The laws.

ghost use Rattle.zlinearizability.specs.master.Laws.{MasterHears, ServersHearMaster, MasterObeys};

/// A server receives any message from the master: an order, also one to leave, or one that is
/// ignored.
pub fn servers_hear_master()
    ensures { ServersHearMaster }
{}

/// The master receives a `Have`, a `Joined`, a `Gone` or anything else.
pub fn master_hears()
    ensures { MasterHears }
{}

/// The master obeys an order: a server joins, or a member is ordered to leave.
pub fn master_obeys()
    ensures { MasterObeys }
{}
