//! The laws.

ghost use Rattle.zlinearizability.specs.servers.Laws.{ServersHearClients, ServersHearServers};

/// A server receives an `Update`, an `Ack`, a `Snapshot` or anything else from a server.
pub fn servers_hear_servers()
    ensures { ServersHearServers }
{}

/// A server receives a `Submit`, a `Query` or anything else from a client.
pub fn servers_hear_clients()
    ensures { ServersHearClients }
{}
