//! What requests on watches are about.

/// Which watches of a path a request is about, by its number (`Watcher.WatcherType`).
#[derive(Clone, Copy, Debug, PartialEq, Eq)]
pub enum WatchType {
    /// 1: those of children.
    Children,
    /// 2: those of data or of existence.
    Data,
    /// 3: all.
    Any,
}

/// Which watch is added, by its number (`AddWatchMode`).
#[derive(Clone, Copy, Debug, PartialEq, Eq)]
pub enum AddMode {
    /// 0: one of a node, which stays when it fires.
    Persistent,
    /// 1: one of a node and all below it, which stays when it fires.
    Recursive,
}
