// The lines of a text: the first one, and that of a link, in either format.
// The format is a parameter, as it is one of `head_text` and `link_text` of specs/Text.antt. `n` and `m` are numbers that are written, no lengths of a list.
ghost use Rattle.std.specs.Prelude.{◌≡◌, ◌+◌, ◌≤◌, ◌<◌, length};
ghost use Rattle.std.proofs.lemmas.List.Edits.{sets};
ghost use Rattle.plan_text.specs.Text.{head_text, link_text};

use crate::Format;
use crate::decimal::put_pair;
use fields::write::line_of;

// Writes the first line for `n` vertices and `m` links to the front of `output`, and answers where the next one begins.
pub fn write_head(format: Format, n: usize, m: usize, output: &mut [u8]) -> usize
    requires { (n < 10000) × (m < 10000) × (length (head_text format n m) ≤ length output.old) }
    ensures output { output.new ≡ sets output.old 0 (head_text format n m) }
    ensures end { result ≡ length (head_text format n m) }
{
    match format {
        Format::Edges => put_pair(output, 0, b"p edge ", n, m),
        Format::Sheet => line_of(output, 0, &[n, m, 0]),
    }
}

// Writes the line of the link with number `c` to `output` from `at` on, and answers where the next one begins.
pub fn write_link(format: Format, c: usize, output: &mut [u8], at: usize) -> usize
    requires { (c < 4096) × (at + length (link_text format c) ≤ length output.old) }
    ensures output { output.new ≡ sets output.old at (link_text format c) }
    ensures end { result ≡ at + length (link_text format c) }
{
    match format {
        Format::Edges => put_pair(output, at, b"e ", c / 64 + 1, c % 64 + 1),
        Format::Sheet => line_of(output, at, &[c / 64, c % 64]),
    }
}
