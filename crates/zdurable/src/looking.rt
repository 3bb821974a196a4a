//! The tree that a file holds, read without changing the file.
//!
//! # Why
//! An export reads the folder without a front end, so it changes nothing there and takes the memory
//! of one tree.

ghost use Rattle.std.specs.Prelude.{◌≡◌, ◌<◌, ◌≤◌, false, length, IfErr, IfOk};
ghost use Rattle.zjournal.specs.Device.{LeavesOnly, Only};
ghost use Rattle.zdurable.specs.Faults.{disk_failed, IsSuchFile};
ghost use Rattle.zdurable.specs.Incarnations.{FileKeeps};
ghost use Rattle.zdurable.specs.Looking.{EndsThere, IsLook, IsStatOf, ReportsOfPasswords};

use crate::fault::OpenFault;
use std::alloc::Global;
use zjournal::{Device, read_text};
use zprotocol::ServerId;
use zsnapshots::export::{FolderStat, counts};
use zsnapshots::folder::{Found, read};

/// What a file holds.
#[derive(Drop)]
pub struct Looked {
    /// Its tree, and of what its text consists.
    pub found: Found,
    /// Where the last block that counts ends.
    pub end: usize,
    /// How many bytes the file has.
    pub size: usize,
}

/// Reads the tree that a file holds, how many bytes of its text are the snapshot with which it
/// begins, and where its last block ends. The file is not changed.
pub fn look<D: Device>(
    alloc: Global,
    device: &mut D,
    servers: ServerId,
) -> Result<Looked, OpenFault>
    requires durable { Only (D.seen device.old) (D.may_leave device.old) }
    ensures keeps { IfOk result (λ it.
        FileKeeps servers it.found.tree.tree (D.seen device.old)) }
    ensures look { IfOk result (λ it.
        IsLook servers (D.seen device.old) it.found.tree.tree it.found.snapshot) }
    ensures passwords { IfOk result (λ it.
        ReportsOfPasswords servers (D.seen device.old) it.found.had_passwords) }
    ensures whole { IfOk result (λ it. it.found.tree.is_broken ≡ false) }
    ensures end { IfOk result (λ it. EndsThere servers (D.seen device.old) it.end) }
    ensures size { IfOk result (λ it. it.size ≡ length (D.seen device.old)) }
    ensures seen { D.seen device.new ≡ D.seen device.old }
    ensures durable { Only (D.seen device.new) (D.may_leave device.new) }
    ensures any_moment { LeavesOnly D.moment D.left_since device.old device.new
        (λ c. c ≡ D.seen device.old) }
    ensures fault { IfErr result (IsSuchFile servers (D.seen device.old)) }
    ensures failed { IfErr result (λ e. e ≡ disk_failed
        → D.faults device.old < D.faults device.new) }
    ensures faults { D.faults device.old ≤ D.faults device.new }
{
    let content = match read_text(alloc, device, servers.number()) {
        Ok(content) => content,
        Err(e) => return Err(OpenFault::Journal(e)),
    };
    match read(alloc, &content.text) {
        Ok(found) => Ok(Looked {
            found,
            end: content.end,
            size: content.size,
        }),
        Err(fault) => Err(OpenFault::from(fault)),
    }
}

/// Counts the content of a file, and returns where its last block ends. The file is not changed.
pub fn folder_stat<D: Device>(
    alloc: Global,
    device: &mut D,
    servers: ServerId,
) -> Result<(FolderStat, usize), OpenFault>
    requires durable { Only (D.seen device.old) (D.may_leave device.old) }
    ensures stat { IfOk result (λ it. IsStatOf servers (D.seen device.old) it.0) }
    ensures end { IfOk result (λ it. EndsThere servers (D.seen device.old) it.1) }
    ensures seen { D.seen device.new ≡ D.seen device.old }
    ensures fault { IfErr result (IsSuchFile servers (D.seen device.old)) }
{
    let looked = look(alloc, device, servers)?;
    let tree = counts(looked.found.tree.machine()?)?;
    let stat = FolderStat {
        tree,
        journal: looked.size as u64,
        snapshot: looked.found.snapshot as u64,
    };
    Ok((stat, looked.end))
}
