// Lines of fields, written to a list that the caller owns.
ghost use Rattle.std.specs.Prelude.{◌≡◌, ◌+◌, ◌*◌, ◌≤◌, length};
ghost use Rattle.std.proofs.lemmas.List.Edits.{sets};
ghost use Rattle.fields.specs.Field.{field};
ghost use Rattle.fields.specs.Field.{line};

use crate::field::{lead_of, ones_of};

// Writes the field of `x` to `output` from `at` on, and answers where it ends.
fn put(output: &mut [u8], at: usize, x: usize) -> usize
    requires { at + 4 ≤ length output.old }
    ensures output { output.new ≡ sets output.old at (field x) }
    ensures at { result ≡ at + 4 }
{
    output[at] = lead_of(x / 10 / 10 / 10);
    output[at + 1] = lead_of(x / 10 / 10);
    output[at + 2] = lead_of(x / 10);
    output[at + 3] = ones_of(x);
    at + 4
}

// Writes the line with these numbers to `output` from `at` on, and answers where it ends.
pub fn line_of(output: &mut [u8], at: usize, numbers: &[usize]) -> usize
    requires { at + (4 * length numbers.now + 1) ≤ length output.old }
    ensures output { output.new ≡ sets output.old at (line numbers.now) }
    ensures at { result ≡ at + (4 * length numbers.now + 1) }
{
    let mut end = at;
    for x in numbers {
        end = put(output, end, *x);
    }
    output[end] = 10;
    end + 1
}
