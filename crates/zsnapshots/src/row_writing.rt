//! Rows, written at the end of bytes. None is too long: a row has at most `MAX_ROW` bytes.

ghost use Rattle.std.specs.Prelude.{◌≡◌, ◌++◌, OnOk, OnErr};
ghost use Rattle.zsnapshots.specs.Rows.{header_text, session_text, node_text, kept_of, reply_text};
ghost use Rattle.zops.specs.Restored.{IsOfUpdate};
ghost use Rattle.zsnapshots.specs.Rows.{row};

use crate::header::Header;
use crate::node_writing::put_node_text;
use crate::text_writing::{put_header_text, put_reply_text, put_session_text};
use std::alloc::{AllocError, Global};
use zcalls::{CallNumber, Reply};
use zcodec::put_sized;
use zpath::Path;
use ztree::{ClientId, Node, Session, SessionId};

/// Appends the header of a snapshot. On an error the bytes are unchanged.
pub fn write_header_row(alloc: Global, out: &mut Vec<u8>, header: Header) -> Result<(), AllocError>
    ensures ok { OnOk result (out.new.items ≡ out.old.items ++ (row header_text).spell header) }
    ensures fits { OnOk result ((row header_text).Fits header) }
    ensures err { OnErr result (out.new.items ≡ out.old.items) }
{
    let mut text = Vec::new(alloc);
    put_header_text(&mut text, header)?;
    put_sized(out, &text)
}

/// Appends a session with its id. On an error the bytes are unchanged.
pub fn write_session_row(
    alloc: Global,
    out: &mut Vec<u8>,
    id: SessionId,
    session: Session,
) -> Result<(), AllocError>
    ensures ok { OnOk result
        (out.new.items ≡ out.old.items ++ (row session_text).spell (id, session)) }
    ensures fits { OnOk result ((row session_text).Fits (id, session)) }
    ensures err { OnErr result (out.new.items ≡ out.old.items) }
{
    let mut text = Vec::new(alloc);
    put_session_text(&mut text, id, session)?;
    put_sized(out, &text)
}

/// Appends a node with its path. On an error the bytes are unchanged.
pub fn write_node_row(
    alloc: Global,
    out: &mut Vec<u8>,
    path: &Path,
    node: &Node,
) -> Result<(), AllocError>
    ensures ok { OnOk result
        (out.new.items ≡ out.old.items ++ (row node_text).spell (path.now, node.now)) }
    ensures fits { OnOk result ((row node_text).Fits (path.now, node.now)) }
    ensures err { OnErr result (out.new.items ≡ out.old.items) }
{
    let mut text = Vec::new(alloc);
    put_node_text(alloc, &mut text, path, node)?;
    put_sized(out, &text)
}

/// Appends a cached reply with its client. On an error the bytes are unchanged.
pub fn write_reply_row(
    alloc: Global,
    out: &mut Vec<u8>,
    client: ClientId,
    number: CallNumber,
    reply: &Reply,
) -> Result<(), AllocError>
    requires { IsOfUpdate reply.now }
    ensures ok { OnOk result (out.new.items
        ≡ out.old.items ++ (row reply_text).spell (client, kept_of number reply.now)) }
    ensures fits { OnOk result ((row reply_text).Fits (client, kept_of number reply.now)) }
    ensures err { OnErr result (out.new.items ≡ out.old.items) }
{
    let mut text = Vec::new(alloc);
    put_reply_text(alloc, &mut text, client, number, reply)?;
    put_sized(out, &text)
}
