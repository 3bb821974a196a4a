//! The four letter words.

/// A four letter word (ZooKeeper Administrator's Guide, "The Four Letter Words").
#[derive(Clone, Copy, Debug, PartialEq, Eq)]
pub(crate) enum Word {
    /// `ruok`: whether the server runs.
    Ruok,
    /// `isro`: whether the server is read-only.
    Isro,
    /// `envi`: the version of ZooKeeper that it reports.
    Envi,
    /// `srvr`: the state of the server for people, one value a line.
    Srvr,
    /// `mntr`: the same for monitoring.
    Mntr,
}
