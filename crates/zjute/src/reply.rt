//! The replies to a client.

ghost use Rattle.std.specs.Prelude.{◌≡◌};

use crate::acl::Acls;
use crate::bytes::{Bytes, Texts};
use crate::code::Code;
use crate::stat::StatRecord;
use std::marker::Model;

/// The result of a part of a multi or multiRead, after its `MultiHeader` (zookeeper.jute). The
/// numbers of the kinds are those of the requests.
#[derive(Drop)]
pub enum PartResult {
    /// -1: the part wasn't done (`ErrorResponse`). The code is `Ok` before the refused part, and
    /// `RuntimeInconsistency` after it.
    Error(Code),
    /// 1: the path of the node that was created (`CreateResponse`).
    Create(Bytes),
    /// 2: the node was deleted.
    Delete,
    /// 4: the data of the node and its stat (`GetDataResponse`); `None` is a null buffer.
    GetData(Option<Bytes>, StatRecord),
    /// 5: the new stat of the node (`SetDataResponse`).
    SetData(StatRecord),
    /// 8: the names of the node's children (`GetChildrenResponse`).
    GetChildren(Texts),
    /// 13: the node has the version.
    Check,
    /// 15: the path of the node that was created and its stat (`Create2Response`).
    Create2(Bytes, StatRecord),
    /// 21: the same for a node with a TTL (`Create2Response`).
    CreateTtl(Bytes, StatRecord),
}

/// The results of the parts, in order (`MultiResponse`).
#[derive(Drop)]
pub struct Results {
    results: Vec<PartResult>,
}

impl Model for Results {
    ghost use Rattle.std.specs.Prelude.{List};
    ghost use Rattle.zjute.specs.declared.reply.PartResult.{PartResult};

    ghost Value = { List PartResult };

    ghost view = { λ results. results.results.items };
}

impl Results {
    /// Wraps the results.
    pub fn new(results: Vec<PartResult>) -> Results
        ensures { result ≡ results.items }
    {
        Results { results }
    }

    /// Returns the results in order.
    pub fn as_slice(&self) -> &[PartResult]
        ensures { result.now ≡ self.now }
    {
        &self.results
    }
}

/// The record after a reply's header. The kind of the request determines which; the bytes don't say
/// it.
#[derive(Drop)]
pub enum Body {
    /// No record: an error, or a request whose success has no result.
    Nothing,
    /// A code (`ErrorResponse`).
    Error(Code),
    /// A path (`CreateResponse`, `SyncResponse`).
    Path(Bytes),
    /// A path and a stat (`Create2Response`).
    PathStat(Bytes, StatRecord),
    /// A stat (`ExistsResponse`, `SetDataResponse`, `SetACLResponse`).
    Stat(StatRecord),
    /// Data and a stat (`GetDataResponse`); `None` is a null buffer.
    DataStat(Option<Bytes>, StatRecord),
    /// Names (`GetChildrenResponse`), or paths (`GetEphemeralsResponse`).
    Names(Texts),
    /// Names and a stat (`GetChildren2Response`).
    NamesStat(Texts, StatRecord),
    /// An ACL and a stat (`GetACLResponse`).
    AclsStat(Acls, StatRecord),
    /// A number (`GetAllChildrenNumberResponse`).
    Number(i32),
    /// The scheme and the id of the client: a list of one (`WhoAmIResponse`).
    Client(Bytes, Bytes),
    /// A null token (`SetSASLResponse`).
    NoToken,
    /// The results of a multi or of a multiRead (`MultiResponse`).
    Results(Results),
}

/// A reply (`ReplyHeader` of zookeeper.jute, and what follows it).
#[derive(Drop)]
pub struct Reply {
    /// The number of the request; -1 means an event, not a reply.
    pub xid: i32,
    /// The last zxid of the tree.
    pub zxid: i64,
    /// The result code.
    pub code: Code,
    /// The record after the header.
    pub body: Body,
}
