//! Records, written at the end of bytes. Each function says too that what it writes fits.

ghost use Rattle.std.specs.Prelude.{◌≡◌, ◌++◌, OnOk};
ghost use Rattle.zwire.specs.records.Records.{password as password_form, server as server_form};
ghost use Rattle.zwire.specs.records.Records.{row as row_form, logged};

use crate::records::call_writing::put_update;
use crate::records::record::Record;
use crate::records::row::Row;
use std::alloc::{AllocError, Global};
use zcodec::{put_sized, put_u8};
use zpasswords::Password;
use zprotocol::ServerId;

/// Writes a record.
#[tactic(auto, unfolding(crate::specs::records::Records::logged))]
pub(crate) fn put_record(alloc: Global, out: &mut Vec<u8>, it: &Record) -> Result<(), AllocError>
    ensures text { OnOk result (out.new.items ≡ out.old.items ++ logged.spell it.now) }
    ensures fits { OnOk result (logged.Fits it.now) }
{
    match it {
        Record::Password(password) => {
            put_u8(out, 0)?;
            put_password(out, password)
        }
        Record::Update(update) => {
            put_u8(out, 1)?;
            put_update(alloc, out, update)
        }
        Record::Fail(server) => {
            put_u8(out, 2)?;
            put_server(out, *server)
        }
        Record::Join(server) => {
            put_u8(out, 3)?;
            put_server(out, *server)
        }
        Record::Retire(server) => {
            put_u8(out, 4)?;
            put_server(out, *server)
        }
        Record::Row(row) => {
            put_u8(out, 5)?;
            put_row(out, row)
        }
    }
}

// Writes a password.
#[tactic(auto, unfolding(crate::specs::records::Records::password))]
fn put_password(out: &mut Vec<u8>, password: &Password) -> Result<(), AllocError>
    ensures text { OnOk result
        (out.new.items ≡ out.old.items ++ password_form.spell password.now) }
    ensures fits { OnOk result (password_form.Fits password.now) }
{
    out.extend_from_slice(password.as_bytes())
}

// Writes a row of a snapshot.
#[tactic(auto, unfolding(crate::specs::records::Records::row))]
fn put_row(out: &mut Vec<u8>, row: &Row) -> Result<(), AllocError>
    ensures text { OnOk result (out.new.items ≡ out.old.items ++ row_form.spell row.now) }
    ensures fits { OnOk result (row_form.Fits row.now) }
{
    put_sized(out, row.as_slice())
}

/// Writes the id of a server.
#[tactic(auto, unfolding(crate::specs::records::Records::server))]
pub fn put_server(out: &mut Vec<u8>, server: ServerId) -> Result<(), AllocError>
    ensures text { OnOk result (out.new.items ≡ out.old.items ++ server_form.spell server) }
    ensures fits { OnOk result (server_form.Fits server) }
{
    put_u8(out, server.number())
}
