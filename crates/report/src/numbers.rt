//! Numbers at the end of a text, each behind a space, many at once.
//!
//! Numbers are put at the end of a text a hundred at once. Their digits are written from the last to the first, where
//! others were before, so that nothing is moved; then all are copied behind the text. To put each by itself takes two
//! copies of a few bytes, and more instructions than its digits.
ghost use Rattle.std.specs.Prelude.{◌≡◌, ◌+◌, ◌≤◌, ◌++◌, OnOk, drop, length};
ghost use Rattle.std.specs.String.{string_bytes};
ghost use Rattle.std.specs.List.{flat_map};
ghost use Rattle.std.specs.Fmt.{decimal};
ghost use Rattle.report.specs.ScheduleTexts.{spaced};
ghost use Rattle.report.specs.declared.numbers.TheConstants.{AT_ONCE, ROOM};

use itoa::write_digits;
use std::alloc::AllocError;
use std::str;

/// How many numbers are put at the end of a text at once.
const AT_ONCE: usize = 100;

/// The bytes that so many numbers take at most: 39 digits each, and a space.
pub(crate) const ROOM: usize = 4000;

/// Puts numbers, each behind a space, at the end of a text. Their bytes are made in the room, for many numbers at
/// once, since to put each by itself costs more than its digits.
pub(crate) fn put_spaced(
    text: &mut String,
    numbers: &[u128],
    room: &mut [u8; ROOM],
) -> Result<(), AllocError>
    ensures { OnOk result (string_bytes text.new ≡ string_bytes text.old ++ flat_map spaced numbers.now) }
{
    for some in numbers.chunks(AT_ONCE) {
        put_some(text, some, room)?;
    }
    Ok(())
}

/// Puts so few numbers that they have room.
fn put_some(text: &mut String, numbers: &[u128], room: &mut [u8; ROOM]) -> Result<(), AllocError>
    requires { length numbers.now ≤ AT_ONCE }
    ensures { OnOk result (string_bytes text.new ≡ string_bytes text.old ++ flat_map spaced numbers.now) }
{
    let from = write_spaced(numbers, room);
    let Ok(written) = str::from_utf8(&room[from..]) else {
        unreachable!();
    };
    text.push_str(written)
}

/// Writes numbers, each behind a space, so that they end where the room does, and tells where they start.
fn write_spaced(numbers: &[u128], room: &mut [u8; ROOM]) -> usize
    requires { length numbers.now ≤ AT_ONCE }
    ensures within { result ≤ ROOM }
    ensures written { drop result room.new ≡ flat_map spaced numbers.now }
{
    let mut at = ROOM;
    for i in (0..numbers.len()).rev() {
        at = write_number(numbers[i], room, at) - 1;
        room[at] = b' ';
    }
    at
}

/// Writes the digits of a number so that they end at `end`, and tells where they start. Those past 64 bits go one at
/// a time.
fn write_number(number: u128, room: &mut [u8; ROOM], end: usize) -> usize
    requires { (39 ≤ end) × (end ≤ ROOM) }
    ensures short { end ≤ result + 39 }
    ensures start { result + length (decimal number) ≡ end }
    ensures written { drop result room.new ≡ decimal number ++ drop end room.old }
{
    let mut left = number;
    let mut at = end;
    while left > u64::MAX as u128 {
        at -= 1;
        room[at] = b'0' + (left % 10) as u8;
        left /= 10;
    }
    write_digits(left as u64, room, at)
}
