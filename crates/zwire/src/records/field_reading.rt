//! Fields of calls, read from the front of bytes with what follows them.

ghost use Rattle.std.specs.Prelude.{◌≡◌};
ghost use Rattle.zcodec.specs.declared.fault.Fault.TheVariants.{Invalid};
ghost use Rattle.zcodec.specs.Readers.{Reads, Gives};
ghost use Rattle.zpath.specs.declared.fault.PathFault.TheVariants.{Memory as OfMemory};
ghost use Rattle.zwire.specs.records.Fields.{ttl, content, path_from, path, version_at, version};
ghost use Rattle.zwire.specs.records.Fields.{kind_at, node_kind};

use std::alloc::Global;
use std::str;
use zcalls::{Data, Expected, Kind, Lifetime, SessionId, Ttl};
use zcodec::{Fault, ReadError, sized_at, u8_at, u64_at};
use zpath::{MAX_TEXT_LEN, Path, PathFault};
use ztree::DataFault;
use ztree::limits::MOST_DATA;

/// Reads a TTL.
#[tactic(auto, unfolding(crate::specs::records::Fields::ttl))]
fn ttl_at(bytes: &[u8]) -> Result<(Ttl, &[u8]), Fault>
    ensures { Reads (λ x. (x.0, x.1.now)) result (ttl.read bytes.now) }
{
    let (ticks, rest) = u64_at(bytes)?;
    match Ttl::new(ticks) {
        Some(ttl) => Ok((ttl, rest)),
        None => Err(Fault::Invalid),
    }
}

/// Reads a node's data.
#[tactic(auto, unfolding(crate::specs::records::Fields::content))]
pub fn content_of(alloc: Global, bytes: &[u8]) -> Result<(Data, &[u8]), ReadError>
    ensures { Gives (λ x. (x.0, x.1.now)) result (content.read bytes.now) }
{
    let (bytes, rest) = sized_at(MOST_DATA as u32, bytes)?;
    match Data::within(alloc, Vec::from_slice(alloc, bytes)?, MOST_DATA) {
        Ok(content) => Ok((content, rest)),
        Err(DataFault::Memory) => Err(ReadError::Memory),
        Err(DataFault::TooLong) => unreachable!(),
    }
}

/// Reads a path.
#[tactic(auto, unfolding(crate::specs::records::Fields::path))]
pub fn path_of(alloc: Global, bytes: &[u8]) -> Result<(Path, &[u8]), ReadError>
    ensures { Gives (λ x. (x.0, x.1.now)) result (path.read bytes.now) }
{
    let (text, rest) = sized_at(MAX_TEXT_LEN as u32, bytes)?;
    let path = path_with(alloc, text)?;
    Ok((path, rest))
}

/// Returns the path with this text.
pub fn path_with(alloc: Global, text: &[u8]) -> Result<Path, ReadError>
    ensures { Gives (λ it. it) result (path_from text.now) }
{
    let Ok(text) = str::from_utf8(text) else {
        // A path has only visible ASCII.
        return Err(ReadError::Fault(Fault::Invalid));
    };
    match Path::parse(alloc, text) {
        Ok(path) => Ok(path),
        Err(fault) => Err(unread(fault)),
    }
}

// Why a text isn't a path.
fn unread(fault: PathFault) -> ReadError
    ensures memory { fault ≡ OfMemory → result ≡ ReadError.Memory }
    ensures other { (fault ≡ OfMemory → ⊥) → result ≡ ReadError.Fault Invalid }
{
    match fault {
        PathFault::Memory => ReadError::Memory,
        _ => ReadError::Fault(Fault::Invalid),
    }
}

/// Reads the version that a node must have.
#[tactic(auto, unfolding(crate::specs::records::Fields::version))]
pub(crate) fn version_in(bytes: &[u8]) -> Result<(Expected, &[u8]), Fault>
    ensures { Reads (λ x. (x.0, x.1.now)) result (version.read bytes.now) }
{
    let (tag, rest) = u8_at(bytes)?;
    version_behind(tag, rest)
}

// Reads what follows the tag of a version.
#[tactic(auto, unfolding(crate::specs::records::Fields::version_at))]
fn version_behind(tag: u8, bytes: &[u8]) -> Result<(Expected, &[u8]), Fault>
    ensures { Reads (λ x. (x.0, x.1.now)) result (version_at tag bytes.now) }
{
    match tag {
        0 => Ok((Expected::Any, bytes)),
        1 => {
            let (number, rest) = u64_at(bytes)?;
            Ok((Expected::Exactly(number), rest))
        }
        _ => Err(Fault::Invalid),
    }
}

/// Reads the kind of a node.
#[tactic(auto, unfolding(crate::specs::records::Fields::node_kind))]
pub(crate) fn kind_in(bytes: &[u8]) -> Result<(Kind, &[u8]), Fault>
    ensures { Reads (λ x. (x.0, x.1.now)) result (node_kind.read bytes.now) }
{
    let (tag, rest) = u8_at(bytes)?;
    kind_behind(tag, rest)
}

// Reads what follows the tag of a kind.
#[tactic(auto, unfolding(crate::specs::records::Fields::kind_at))]
fn kind_behind(tag: u8, bytes: &[u8]) -> Result<(Kind, &[u8]), Fault>
    ensures { Reads (λ x. (x.0, x.1.now)) result (kind_at tag bytes.now) }
{
    match tag {
        0 => Ok((Kind::named(Lifetime::Persistent), bytes)),
        1 => Ok((Kind::sequential(Lifetime::Persistent), bytes)),
        2 => match ttl_at(bytes) {
            Ok((ttl, rest)) => Ok((Kind::named(Lifetime::WithTtl(ttl)), rest)),
            Err(fault) => Err(fault),
        }
        3 => match ttl_at(bytes) {
            Ok((ttl, rest)) => Ok((Kind::sequential(Lifetime::WithTtl(ttl)), rest)),
            Err(fault) => Err(fault),
        }
        4 => {
            let (session, rest) = u64_at(bytes)?;
            let lifetime = Lifetime::Ephemeral(SessionId::new(session));
            Ok((Kind::named(lifetime), rest))
        }
        5 => {
            let (session, rest) = u64_at(bytes)?;
            let lifetime = Lifetime::Ephemeral(SessionId::new(session));
            Ok((Kind::sequential(lifetime), rest))
        }
        6 => Ok((Kind::named(Lifetime::Container), bytes)),
        7 => Ok((Kind::sequential(Lifetime::Container), bytes)),
        _ => Err(Fault::Invalid),
    }
}
