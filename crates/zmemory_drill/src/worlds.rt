//! The stories of a world, and of scripts that are played.

use crate::beginning::world_begins;
use crate::ordering::{server_joins, server_leaves};
use crate::playing::{plays_over_one, plays_over_three};
use crate::running::events_are_run;
use std::alloc::Global;
use std::io;
use std::io::Print;
use ztesting::tell;

/// Runs these stories in order.
pub(crate) fn report_worlds(rt: &impl Print, alloc: Global) -> io::Result<()> {
    tell(rt, "a world begins", world_begins(alloc))?;
    tell(rt, "a world runs events", events_are_run(alloc))?;
    tell(rt, "a server is to join", server_joins(alloc))?;
    tell(rt, "a server is to leave", server_leaves(alloc))?;
    tell(rt, "one server plays a script", plays_over_one(alloc))?;
    tell(rt, "three servers play a script", plays_over_three(alloc))
}
