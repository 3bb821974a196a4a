//! The parts of a file: how they are found and read, and how a new one is made.
//!
//! The last part is `journal`. A part that begins with `after 0000000007` and a newline continues
//! `journal.7`; else it is whole. The content is that of the parts in order, without these 17
//! bytes. Each part but the last counts without its last byte: that one is a clear commit byte, and
//! the next part has one of its own. A numbered file that no part continues counts for nothing.
//!
//! # Why
//! The number is in the part itself, so one rename changes the name and what it continues at once.

ghost use Rattle.std.specs.Prelude.{◌<◌};

use crate::file::marks::mark_failed;
use crate::file::opening::{new_file, remove_old};
use crate::file::place::Place;
use crate::file::{FileFault, calls};
use std::fs;
use std::fs::{File, Files, OpenOptions};
use std::io::{ErrorKind, Read, Seek, SeekFrom};
use std::os::unix::fs::FileExt;

/// How many bytes a part that continues another has before its content.
pub(crate) const HEADING: usize = 17;

// The highest number of a part.
const MOST: u64 = 9_999_999_999;

/// A new part of one clear commit byte, before it takes the name of the last one.
#[derive(Drop)]
pub(crate) struct NewPart {
    /// Its file, locked as long as it is open.
    pub(crate) file: File,
    /// The number of the part that it continues.
    pub(crate) number: u64,
    /// The index in the content at which it begins.
    pub(crate) start: usize,
}

// A part before the last one.
#[derive(Drop)]
struct Part {
    file: File,
    skip: usize,
}

/// Returns the number of the part that this one continues, or 0 if it is whole.
pub(crate) fn part_before(file: &File) -> Result<u64, FileFault> {
    let mut front = [0; HEADING];
    match file.read_exact_at(&mut front, 0) {
        Err(error) if error.kind() == ErrorKind::UnexpectedEof => return Ok(0),
        read => read?,
    }
    match number_in(&front) {
        Some(0) => Err(FileFault::Parts),
        Some(number) => Ok(number),
        None => Ok(0),
    }
}

/// Reads all parts of which this file is the last, and notes in the place where it begins.
pub(crate) fn read_parts<R: Files<File = File>>(
    files: &R,
    place: &mut Place,
    last: &File,
) -> Result<Vec<u8>, FileFault> {
    let before = part_before(last)?;
    let earlier = open_before(files, place, before)?;
    let mut bytes = Vec::new(place.alloc());
    for part in earlier.iter().rev() {
        let start = bytes.len();
        read_from(&part.file, part.skip, &mut bytes)?;
        if bytes.len() <= start {
            return Err(FileFault::Parts);
        }
        bytes.pop(); // the next part has this commit byte
    }
    place.part = before;
    place.start = bytes.len();
    place.skip = skip_of(before);
    read_from(last, place.skip, &mut bytes)?;
    Ok(bytes)
}

// The part of this number and those before it, the last one first, durable. Their numbers decrease.
fn open_before<R: Files<File = File>>(
    files: &R,
    place: &Place,
    last: u64,
) -> Result<Vec<Part>, FileFault> {
    let mut parts = Vec::new(place.alloc());
    let mut number = last;
    while number > 0 {
        let file = open_part(files, &place.path_of(number)?)?;
        let before = part_before(&file)?;
        if before >= number {
            return Err(FileFault::Parts);
        }
        if let Err(error) = file.sync_all() {
            mark_failed(files, place);
            return Err(FileFault::from(error));
        }
        let skip = skip_of(before);
        parts.push(Part { file, skip })?;
        number = before;
    }
    Ok(parts)
}

/// Opens a part. No link is followed at its name. Its descriptor is copied to one above 2.
pub(crate) fn open_part<R: Files<File = File>>(files: &R, path: &str) -> Result<File, FileFault> {
    let is_file = match fs::symlink_metadata(files, path) {
        Err(error) if error.kind() == ErrorKind::NotFound => return Err(FileFault::Parts),
        found => found?.is_file(),
    };
    if !is_file {
        return Err(FileFault::NotFile);
    }
    let mut options = OpenOptions::new();
    options.read(true).write(true);
    Ok(options.open(files, path)?.try_clone()?)
}

// Reads what a file has from this offset on.
fn read_from(mut file: &File, skip: usize, bytes: &mut Vec<u8>) -> Result<(), FileFault> {
    file.seek(SeekFrom::Start(skip as u64))?;
    file.read_to_end(bytes)?;
    Ok(())
}

/// Gives the last part its numbered name too, and makes a new part that continues it by one clear
/// commit byte. It is locked before it can take the name of the last one.
pub(crate) fn new_part<R: Files<File = File>>(
    files: &R,
    place: &Place,
    last: &File,
) -> Result<NewPart, FileFault> {
    let len = last.metadata()?.len();
    let (number, start) = match (place.part.checked_add(1), place.last_index(len as usize)) {
        (Some(number), Some(start)) if number <= MOST => (number, start),
        _ => return Err(FileFault::Parts),
    };
    let path = place.path_of(number)?;
    remove_old(files, &path)?;
    fs::hard_link(files, &place.path, &path)?;
    let file = new_file(files, &place.new_path)?;
    file.write_all_at(&heading(number), 0)?;
    file.write_all_at(&[0], HEADING as u64)?;
    Ok(NewPart {
        file,
        number,
        start,
    })
}

/// Removes the parts before the last one, downward as far as that can be done. Each loses its name
/// before its bytes are freed, so who copies it sees that it isn't whole.
pub(crate) fn remove_before<R: Files<File = File>>(files: &R, place: &Place) {
    let mut number = place.part;
    while number > 0 {
        let path = match place.path_of(number) {
            Ok(path) => path,
            Err(_) => return,
        };
        let part = open_part(files, &path);
        if !calls::remove(files, &path) {
            return;
        }
        if let Ok(part) = &part {
            calls::free(part);
        }
        number -= 1;
    }
}

// How many bytes come before the content of a part that continues this one.
fn skip_of(before: u64) -> usize {
    if before > 0 { HEADING } else { 0 }
}

// What a part begins with that continues the one of this number.
fn heading(number: u64) -> [u8; HEADING] {
    [
        b'a',
        b'f',
        b't',
        b'e',
        b'r',
        b' ',
        digit(number, 1_000_000_000),
        digit(number, 100_000_000),
        digit(number, 10_000_000),
        digit(number, 1_000_000),
        digit(number, 100_000),
        digit(number, 10_000),
        digit(number, 1_000),
        digit(number, 100),
        digit(number, 10),
        digit(number, 1),
        b'\n',
    ]
}

// The decimal digit of a number at this unit.
fn digit(number: u64, unit: u64) -> u8
    requires { 0 < unit }
{
    b'0' + (number / unit % 10) as u8
}

// The number in what a part begins with. It is written again and compared.
fn number_in(front: &[u8; HEADING]) -> Option<u64> {
    let mut number: u64 = 0;
    for byte in &front[6..16] {
        let digit = u64::from(*byte).wrapping_sub(48);
        number = number.wrapping_mul(10).wrapping_add(digit);
    }
    if *front == heading(number) {
        Some(number)
    } else {
        None
    }
}
