//! The command line of a subcommand with options, as `clap` takes it.

ghost use Rattle.std.specs.Prelude.{◌≡◌, IfOk, false};
ghost use Rattle.clap.specs.Words.{app_of, rule_of};
ghost use Rattle.zarguments.specs.Asked.{command_of, rule_for, spelling_of, spellings};

use crate::options::NumberOption;
use clap::{Arg, Command, value_parser};
use std::alloc::{AllocError, Global};

/// Returns the command line `zk NAME [--OPTION N] ..`.
pub(crate) fn command_line<'a>(
    alloc: Global,
    name: &'a str,
    options: &'a [NumberOption<'a>],
) -> Result<Command<'a>, AllocError>
    ensures { IfOk result (λ command.
        app_of command ≡ command_of name.now (spellings options.now)) }
{
    let mut subcommand = Command::new(alloc, name);
    for option in options {
        subcommand = subcommand.arg(argument(alloc, *option))?;
    }
    Command::new(alloc, "zk").subcommand(subcommand)
}

// Returns an option as an argument of a command.
fn argument<'a>(alloc: Global, option: NumberOption<'a>) -> Arg<'a>
    ensures rule { rule_of result ≡ rule_for (spelling_of option.entry) }
    ensures local { result.global ≡ false }
{
    Arg::new(alloc, option.name)
        .long(option.name)
        .value_parser(value_parser!(u16))
        .default_value(option.default)
}
