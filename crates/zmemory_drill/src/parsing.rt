//! A path for which memory runs out while it is read: nothing is left of it.

use std::alloc::Global;
use zpath::{Path, PathFault};
use ztesting::Ended;

/// Reads a path of three names.
pub(crate) fn path_is_parsed(alloc: Global) -> Ended {
    match has_its_names(alloc) {
        Ok(is_so) => Ended::done(is_so),
        Err(PathFault::Memory) => Ended::refused(has_its_names(alloc) == Ok(true)),
        Err(_) => Ended::Wrong,
    }
}

// Returns whether the path has the names that its text spells.
fn has_its_names(alloc: Global) -> Result<bool, PathFault> {
    let path = Path::parse(alloc, "/a/bc/d")?;
    let is_so = is_of_three(&path);
    drop(path);
    Ok(is_so)
}

fn is_of_three(path: &Path) -> bool {
    match path.names() {
        [first, second, third] => {
            first.as_str() == "a" && second.as_str() == "bc" && third.as_str() == "d"
        }
        _ => false,
    }
}
