//! The text of a stat. The numbers are written into one buffer from the last to the first, since
//! the position of each is then known.

ghost use Rattle.std.specs.Prelude.{◌≡◌, ◌+◌, ◌*◌, ◌≤◌, ◌++◌, ◌∷◌, length, drop, OnOk, IsAscii};
ghost use Rattle.std.specs.Fmt.{decimal};
ghost use Rattle.std.specs.List.{flat_map};
ghost use Rattle.zscript_text.specs.Texts.{Writes};
ghost use Rattle.zscript_text.specs.Reply.{stat_text, spaced_number};
ghost use Rattle.zscript_text.specs.declared.stat_text.TheConstants.{NUMBER_ROOM, FRONT_ROOM, ROOM};

use itoa::write_digits;
use std::str;
use zalloc::Memory;
use zcalls::Stat;

// The most bytes of a number with the space before it.
const NUMBER_ROOM: usize = 21;

// The most bytes of the text before a stat.
const FRONT_ROOM: usize = 8;

// Room for the text before a stat, and for its ten numbers.
const ROOM: usize = FRONT_ROOM + 10 * NUMBER_ROOM;

/// Appends a short text and the numbers of a stat.
pub(crate) fn write_stat_behind(front: &str, stat: &Stat, out: &mut String) -> Result<(), Memory>
    requires { length front.now ≤ FRONT_ROOM }
    ensures { OnOk result (Writes out.old out.new (front.now ++ stat_text stat.now)) }
{
    let mut text = [0u8; ROOM];
    let numbers = put_stat(stat, &mut text);
    let start = numbers - front.len();
    text[start..numbers].copy_from_slice(front.as_bytes());
    let Ok(text) = str::from_utf8(&text[start..]) else {
        // It is a text, then digits and spaces: valid UTF-8.
        unreachable!();
    };
    out.push_str(text)?;
    Ok(())
}

// Writes the ten numbers of a stat at the end of a buffer, each with a space before it. Returns
// where they begin.
fn put_stat(stat: &Stat, place: &mut [u8]) -> usize
    requires { length place.old ≡ ROOM }
    ensures reported { drop result place.new ≡ stat_text stat.now }
    ensures ascii { IsAscii (drop result place.new) }
    ensures len { length place.new ≡ length place.old }
    ensures room { FRONT_ROOM ≤ result }
    ensures within { result ≤ length place.new }
{
    let numbers = [
        stat.czxid.number(),
        stat.mzxid.number(),
        stat.pzxid.number(),
        stat.ctime,
        stat.mtime,
        stat.version,
        stat.cversion,
        stat.owner,
        stat.length,
        stat.children,
    ];
    put_numbers(&numbers, place)
}

// Writes numbers at the end of a buffer, each with a space before it. Returns where they begin.
#[inline(always)]
fn put_numbers(numbers: &[u64], place: &mut [u8]) -> usize
    requires { NUMBER_ROOM * length numbers.now ≤ length place.old }
    ensures reported { drop result place.new ≡ flat_map spaced_number numbers.now }
    ensures ascii { IsAscii (drop result place.new) }
    ensures len { length place.new ≡ length place.old }
    ensures room { length place.old ≤ result + NUMBER_ROOM * length numbers.now }
    ensures within { result ≤ length place.new }
{
    let mut start = place.len();
    let mut left = numbers.len();
    while left > 0 {
        left -= 1;
        start = put_number(numbers[left], place, start);
    }
    start
}

// Writes a number with a space before it, so that it ends at `end`. Returns where it begins.
#[inline(always)]
fn put_number(number: u64, place: &mut [u8], end: usize) -> usize
    requires room { NUMBER_ROOM ≤ end }
    requires within { end ≤ length place.old }
    ensures reported { drop result place.new ≡ spaced_number number ++ drop end place.old }
    ensures ascii { IsAscii (spaced_number number) }
    ensures len { length place.new ≡ length place.old }
    ensures room { end ≤ result + NUMBER_ROOM }
    ensures before { result ≤ end }
{
    let start = write_digits(number, place, end) - 1;
    place[start] = b' ';
    start
}
