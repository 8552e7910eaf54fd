// Decimal numbers below 10000, and words with two of them, written to a list that the caller owns.
ghost use Rattle.std.specs.Prelude.{◌≡◌, [], ◌∷◌, ◌++◌, ◌+◌, ◌≤◌, ◌<◌, length};
ghost use Rattle.std.proofs.lemmas.List.Edits.{sets};
ghost use Rattle.wording.specs.Decimal.{decimal};
ghost use Rattle.edge_lines.specs.Writing.{pair_text};
ghost use Rattle.plan_text.specs.Text.{shown};

use fields::field::ones_of;
use wording::write::put;

// Writes the last digit of `y`, or nothing where `y` is 0, and answers where it ends.
fn put_unless_zero(output: &mut [u8], at: usize, y: usize) -> usize
    requires { at + length (shown y) ≤ length output.old }
    ensures output { output.new ≡ sets output.old at (shown y) }
    ensures end { result ≡ at + length (shown y) }
{
    if y == 0 {
        return at;
    }
    output[at] = ones_of(y);
    at + 1
}

// Writes the decimal number of `x`, which has one digit to four, and answers where it ends.
fn put_decimal(output: &mut [u8], at: usize, x: usize) -> usize
    requires { (x < 10000) × (at + length (decimal x) ≤ length output.old) }
    ensures output { output.new ≡ sets output.old at (decimal x) }
    ensures end { result ≡ at + length (decimal x) }
{
    let hundreds = put_unless_zero(output, at, x / 10 / 10 / 10);
    let tens = put_unless_zero(output, hundreds, x / 10 / 10);
    let ones = put_unless_zero(output, tens, x / 10);
    output[ones] = ones_of(x);
    ones + 1
}

// Writes a line: `words`, the number `x`, a space and the number `y`. Answers where the next line begins.
pub fn put_pair(output: &mut [u8], at: usize, words: &[u8], x: usize, y: usize) -> usize
    requires { (x < 10000) × (y < 10000) × (at + length (pair_text words.now x y ++ 10 ∷ []) ≤ length output.old) }
    ensures output { output.new ≡ sets output.old at (pair_text words.now x y ++ 10 ∷ []) }
    ensures end { result ≡ at + length (pair_text words.now x y ++ 10 ∷ []) }
{
    let first = put(output, at, words);
    let gap = put_decimal(output, first, x);
    let second = put(output, gap, b" ");
    let end = put_decimal(output, second, y);
    put(output, end, b"\n")
}
