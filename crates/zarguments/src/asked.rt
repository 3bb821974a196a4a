//! The words of a command line, and the numbers that they give.

ghost use Rattle.std.specs.Prelude.{◌≡◌, ◌≢◌, IsErr, IsOk};
ghost use Rattle.clap.specs.Walk.{rows_of};
ghost use Rattle.clap.specs.Matches.{found_of};
ghost use Rattle.zarguments.specs.Asked.{GivesNumbers, asked_of, number_in, numbers_of, spellings, texts_of};

use crate::line::command_line;
use crate::options::NumberOption;
use clap::ArgMatches;
use clap::error::ErrorKind;
use std::alloc::{AllocError, Global};

/// Reads `zk NAME [--OPTION N] ..`, whose first word may be any. Returns the numbers of the
/// options, in their order. An option may be given at most once. Returns `None` for all other
/// words, also for a request for help.
///
/// `Err` means out of memory, and nothing else.
pub fn numbers_asked<'a>(
    alloc: Global,
    name: &'a str,
    options: &'a [NumberOption<'a>],
    words: &'a [&'a str],
) -> Result<Option<Vec<u16>>, AllocError>
    ensures { GivesNumbers result (asked_of name.now (spellings options.now) (texts_of words.now)) }
{
    let command = command_line(alloc, name, options)?;
    let matches = match command.try_get_matches_from(words) {
        Ok(matches) => matches,
        Err(error) => {
            distinct(error.kind())?;
            return Ok(None);
        }
    };
    match matches.subcommand_matches(name) {
        Some(given) => numbers_in(alloc, options, given),
        None => Ok(None),
    }
}

// Distinguishes out of memory from all other faults of a parse, which are the words' own.
fn distinct(kind: ErrorKind) -> Result<(), AllocError>
    ensures memory { IsErr result → kind ≡ ErrorKind.OutOfMemory }
    ensures words { IsOk result → kind ≢ ErrorKind.OutOfMemory }
{
    match kind {
        ErrorKind::OutOfMemory => Err(AllocError),
        _ => Ok(()),
    }
}

// Returns the numbers of the options among a subcommand's matches.
fn numbers_in(
    alloc: Global,
    options: &[NumberOption],
    given: &ArgMatches,
) -> Result<Option<Vec<u16>>, AllocError>
    ensures { GivesNumbers result (
        numbers_of (spellings options.now) (rows_of (found_of given.now))) }
{
    let mut numbers = Vec::new(alloc);
    for option in options {
        let Some(number) = number_in(given, option.name) else {
            return Ok(None);
        };
        numbers.push(number)?;
    }
    Ok(Some(numbers))
}

// Returns the number of an option.
fn number_in(given: &ArgMatches, name: &str) -> Option<u16>
    ensures { result ≡ number_in name.now (rows_of (found_of given.now)) }
{
    given.get_one::<u16>(name)
}
