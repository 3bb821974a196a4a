//! Lines of calls that a number draws.

ghost use Rattle.std.specs.Prelude.{◌<◌};

use crate::trouble::Trouble;
use std::alloc::Global;

/// How many calls a seed draws.
pub(crate) const CALLS: usize = 12_000;

// The calls. A number from 1 to 31 replaces each @, one below 64 each #, and data each *.
const KINDS: [&str; 25] = [
    "@ create /d# p -",
    "@ create /d#/n# p *",
    "@ create /d#/n# p *",
    "@ create /d#/n# p *",
    "@ create /d#/n# p -",
    "@ create /d#/n# c -",
    "@ create /d#/n# p *",
    "@ create /d#/n# t:# *",
    "@ create /d#/n#/below p *",
    "@ create /d#/s- ps *",
    "@ create /d#/s- es:# *",
    "@ create /d#/e# e:# *",
    "@ set /d#/n# any *",
    "@ set /d#/n# any *",
    "@ set /d# # *",
    "@ delete /d#/n# any",
    "@ delete /d#/e# 0",
    "@ open 1000",
    "@ open 2#",
    "@ close #",
    "@ ping #",
    "0 tick",
    "@ multi create /d#/m# p * ; set /d#/m# any - ; check /d# any",
    "@ multi set /d#/n# any * ; delete /d#/n# any ; create /d#/m- ps -",
    "retry c@",
];

// The most groups of three bytes that data has; a few are longer.
const GROUPS: u64 = 60;

const LONG: u64 = 2_000;

/// Numbers that look drawn, each by the one before it (Knuth's linear congruence).
#[derive(Drop)]
pub(crate) struct Chance {
    number: u64,
}

impl Chance {
    /// Begins with a seed.
    pub(crate) fn new(seed: u64) -> Chance {
        Chance { number: seed }
    }

    // Draws a number below this one.
    fn below(&mut self, bound: u64) -> u64
        requires { 0 < bound }
        ensures { result < bound }
    {
        self.number = self
            .number
            .wrapping_mul(6364136223846793005)
            .wrapping_add(1442695040888963407);
        (self.number >> 33) % bound
    }
}

/// Draws a line.
pub(crate) fn draw_line(alloc: Global, chance: &mut Chance) -> Result<String, Trouble> {
    let kind = KINDS[chance.below(25) as usize];
    let mut line = String::new(alloc);
    for letter in kind.chars() {
        match letter {
            '@' => put_number(&mut line, chance.below(31) + 1)?,
            '#' => put_number(&mut line, chance.below(64))?,
            '*' => put_data(&mut line, chance.below(GROUPS))?,
            other => line.push(other)?,
        }
    }
    Ok(line)
}

fn put_number(line: &mut String, number: u64) -> Result<(), Trouble> {
    write!(line, "{number}")?;
    Ok(())
}

// Appends data of this many groups. One number means many groups, another none.
fn put_data(line: &mut String, groups: u64) -> Result<(), Trouble> {
    if groups == 0 {
        line.push('-')?;
    }
    let groups = if groups == 1 { LONG } else { groups };
    for _ in 0..groups {
        line.push_str("QUJD")?;
    }
    Ok(())
}
