//! What holds after a refused allocation where a tree is made durable: on its own, and in the file
//! of a service. Each story is one call. If one of its allocations is refused, that is reported,
//! and nothing durable is lost. `./test memory` refuses each allocation in turn, one a run.
#![tactic(auto)]

mod files;
mod services;
mod tree_stories;
mod trees;

use services::{
    change_is_compacted, change_is_kept, service_is_compacted, service_is_limited,
    service_is_opened,
};
use std::io;
use tree_stories::{entry_is_applied, snapshot_is_written, text_is_read};
use ztesting::{report_end, tell};

fn main(rt: HostRuntime) -> io::Result<()> {
    tell(
        &rt,
        "a tree is read from its text",
        text_is_read(rt.alloc()),
    )?;
    tell(
        &rt,
        "a tree writes its snapshot",
        snapshot_is_written(rt.alloc()),
    )?;
    tell(&rt, "a tree applies an entry", entry_is_applied(rt.alloc()))?;
    tell(&rt, "a service is opened", service_is_opened(rt.alloc()))?;
    tell(
        &rt,
        "a service is opened with other limits",
        service_is_limited(rt.alloc()),
    )?;
    tell(&rt, "a service keeps a change", change_is_kept(rt.alloc()))?;
    tell(
        &rt,
        "a service is shortened",
        service_is_compacted(rt.alloc()),
    )?;
    tell(
        &rt,
        "a service is shortened with a change",
        change_is_compacted(rt.alloc()),
    )?;
    report_end(&rt, rt.alloc())
}
