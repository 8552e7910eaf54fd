// One field: four columns of a decimal number.
ghost use Rattle.std.specs.Prelude.{◌≡◌, ◌<◌, MatchOption};
ghost use Rattle.searches.specs.Ordering.{at};
ghost use Rattle.fields.specs.Field.{ones, lead, digit_value, digits_at, field_at};

// The byte at `i`; 0 behind the end.
// 0 and no Option, as `at` of `searches` has it, by which `field_at` and all forms of lines are said; no form has a byte 0.
pub fn byte_at(bytes: &[u8], i: usize) -> u8
    ensures { result ≡ at bytes.now i }
{
    bytes.get(i).copied().unwrap_or(0)
}

// The digit that a byte is; 0 where it is none.
// 0 and no Option, as `digit_value` has it: `field` compares the columns, so what is no digit is refused there.
fn digit(byte: u8) -> usize
    ensures { result ≡ digit_value byte }
{
    if byte.is_ascii_digit() {
        (byte - 48) as usize
    } else {
        0
    }
}

// A column before the last, with the number `y` from there to the left.
pub fn lead_of(y: usize) -> u8
    ensures { result ≡ lead y }
{
    if y == 0 { 32 } else { (48 + y % 10) as u8 }
}

// The last column of `x`.
pub fn ones_of(x: usize) -> u8
    ensures { result ≡ ones x }
{
    (48 + x % 10) as u8
}

// What the four bytes from `i` on count.
fn digits(bytes: &[u8], i: usize) -> usize
    requires { i < 1000000 }
    ensures { result ≡ digits_at bytes.now i }
{
    let a = digit(byte_at(bytes, i));
    let b = digit(byte_at(bytes, i + 1));
    let c = digit(byte_at(bytes, i + 2));
    let d = digit(byte_at(bytes, i + 3));
    1000 * a + 100 * b + 10 * c + d
}

// The number whose field stands in `bytes` from `i` on, if one does. No other number than the digits' has that field.
pub fn field(bytes: &[u8], i: usize) -> Option<usize>
    requires { i < 1000000 }
    ensures { MatchOption result (field_at bytes.now i ≡ 10000) (λ x. (x < 10000) × (x ≡ field_at bytes.now i)) }
{
    let x = digits(bytes, i);
    let a = byte_at(bytes, i) == lead_of(x / 10 / 10 / 10);
    let b = byte_at(bytes, i + 1) == lead_of(x / 10 / 10);
    let c = byte_at(bytes, i + 2) == lead_of(x / 10);
    let d = byte_at(bytes, i + 3) == ones_of(x);
    if (a & b) & (c & d) { Some(x) } else { None }
}
