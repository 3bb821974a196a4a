//! The events of watches.

use crate::bytes::Bytes;

/// The type of an event, by its number (`Watcher.Event.EventType`).
#[derive(Clone, Copy, Debug, PartialEq, Eq)]
pub enum EventKind {
    /// -1: no change of a node.
    None,
    /// 1: the node was created.
    NodeCreated,
    /// 2: the node was deleted.
    NodeDeleted,
    /// 3: its data was written.
    NodeDataChanged,
    /// 4: a child was created or deleted.
    NodeChildrenChanged,
    /// 5: the watch of its data was removed.
    DataWatchRemoved,
    /// 6: the watch of its children was removed.
    ChildWatchRemoved,
    /// 7: its persistent watch was removed.
    PersistentWatchRemoved,
}

impl EventKind {
    ghost use Rattle.std.specs.Prelude.{◌≡◌};
    ghost use Rattle.zjute.specs.Events.{event_number};

    /// Returns its number.
    pub fn number(self) -> i32
        ensures { result ≡ event_number self }
    {
        match self {
            EventKind::None => -1,
            EventKind::NodeCreated => 1,
            EventKind::NodeDeleted => 2,
            EventKind::NodeDataChanged => 3,
            EventKind::NodeChildrenChanged => 4,
            EventKind::DataWatchRemoved => 5,
            EventKind::ChildWatchRemoved => 6,
            EventKind::PersistentWatchRemoved => 7,
        }
    }
}

/// The state of the client's connection, by its number (`Watcher.Event.KeeperState`).
#[derive(Clone, Copy, Debug, PartialEq, Eq)]
pub enum KeeperState {
    /// 0: there is no connection.
    Disconnected,
    /// 3: connected.
    SyncConnected,
    /// 4: authentication failed.
    AuthFailed,
    /// 5: connected to a read-only server.
    ConnectedReadOnly,
    /// 6: the client is authenticated by SASL.
    SaslAuthenticated,
    /// 7: the client has closed its connection.
    Closed,
    /// -112: the session has expired.
    Expired,
}

impl KeeperState {
    ghost use Rattle.std.specs.Prelude.{◌≡◌};
    ghost use Rattle.zjute.specs.Events.{state_number};

    /// Returns its number.
    pub fn number(self) -> i32
        ensures { result ≡ state_number self }
    {
        match self {
            KeeperState::Disconnected => 0,
            KeeperState::SyncConnected => 3,
            KeeperState::AuthFailed => 4,
            KeeperState::ConnectedReadOnly => 5,
            KeeperState::SaslAuthenticated => 6,
            KeeperState::Closed => 7,
            KeeperState::Expired => -112,
        }
    }
}

/// An event sent for a watch (`WatcherEvent` of zookeeper.jute).
#[derive(Drop)]
pub struct WatcherEvent {
    /// The type of the event.
    pub kind: EventKind,
    /// The state of the connection.
    pub state: KeeperState,
    /// The path of the node.
    pub path: Bytes,
}
