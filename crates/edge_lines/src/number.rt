// A decimal number at a cursor, of any length.
ghost use Rattle.std.specs.Prelude.{◌≡◌, ◌≤◌, ◌<◌, false, MatchOption, drop};
ghost use Rattle.searches.specs.Ordering.{at};
ghost use Rattle.wording.specs.Decimal as decimal;
ghost use Rattle.wording.specs.Reading.{front, behind};
ghost use Rattle.edge_lines.specs.Reading.{is_numeral, appended, NumberOf};

use crate::Cursor;
use fields::field::byte_at;

// Every number from 10^19 on is given as 10^19, which is more than any count of lines.
const MOST: u64 = 10000000000000000000;

// A tenth of it.
const TENTH: u64 = 1000000000000000000;

// A number, which has digits and no leading zero, and where the digits end.
#[derive(Clone, Copy)]
pub struct Number {
    pub value: Option<u64>,
    pub rest: Cursor,
}

// Whether a digit stands at `i`.
fn digit_at(line: &[u8], i: usize) -> bool
    ensures { result ≡ decimal.is_digit (at line.now i) }
{
    let byte = byte_at(line, i);
    (47 < byte) & (byte < 58)
}

// `x` with one more digit. From 10^18 on that is `MOST`, so no number wraps.
fn append(x: u64, byte: u8) -> u64
    requires { (48 ≤ byte) × (byte < 58) }
    ensures { result ≡ appended x byte }
{
    if x < TENTH {
        10 * x + (byte - 48) as u64
    } else {
        MOST
    }
}

// The number at the cursor, and where the digits there end, whether they are a number or not.
pub fn read_number(line: &[u8], cursor: Cursor) -> Number
    ensures value { MatchOption result.value (is_numeral (front decimal.is_digit (drop cursor.at line.now)) ≡ false) (NumberOf (front decimal.is_digit (drop cursor.at line.now))) }
    ensures rest { drop result.rest.at line.now ≡ behind decimal.is_digit (drop cursor.at line.now) }
{
    let start = cursor.at;
    let mut end = start;
    let mut value = 0u64;
    // `end` is a position and is answered, and the cursor may stand behind the line, where no slice begins: an iterator would count it again.
    while digit_at(line, end) {
        value = append(value, byte_at(line, end));
        end = end + 1;
    }
    let count = end - start;
    let unpadded = byte_at(line, start) != 48;
    let sound = (0 < count) & (unpadded | (count == 1));
    Number {
        value: if sound { Some(value) } else { None },
        rest: Cursor { at: end },
    }
}

// One byte further, where there is one.
pub fn next(line: &[u8], cursor: Cursor) -> Cursor
    ensures { drop result.at line.now ≡ drop 1 (drop cursor.at line.now) }
{
    let at = cursor.at;
    if at < line.len() {
        Cursor { at: at + 1 }
    } else {
        Cursor { at }
    }
}
