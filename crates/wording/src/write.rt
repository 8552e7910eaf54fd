// Bytes and numbers, written to a list that the caller owns.
ghost use Rattle.std.specs.Prelude.{◌≡◌, ◌++◌, ◌+◌, ◌≤◌, length};
ghost use Rattle.std.proofs.lemmas.List.Edits.{sets};
ghost use Rattle.wording.specs.Decimal.{decimal};

use fields::field::ones_of;
use searches::Vertex;

// Writes `bytes` to `output` from `at` on, and answers where they end.
pub fn put(output: &mut [u8], at: usize, bytes: &[u8]) -> usize
    requires { at + length bytes.now ≤ length output.old }
    ensures output { output.new ≡ sets output.old at bytes.now }
    ensures end { result ≡ at + length bytes.now }
{
    let end = at + bytes.len();
    output[at..end].copy_from_slice(bytes);
    end
}

// Writes the decimal number of a vertex, which has one digit, two or three.
fn put_number(output: &mut [u8], at: usize, vertex: Vertex) -> usize
    requires { at + 3 ≤ length output.old }
    ensures output { output.new ≡ sets output.old at (decimal vertex.0) }
    ensures end { result ≡ at + length (decimal vertex.0) }
{
    let x = vertex.0 as usize;
    if x < 10 {
        output[at] = ones_of(x);
        return at + 1;
    }
    if x < 100 {
        output[at] = ones_of(x / 10);
        output[at + 1] = ones_of(x);
        return at + 2;
    }
    output[at] = ones_of(x / 10 / 10);
    output[at + 1] = ones_of(x / 10);
    output[at + 2] = ones_of(x);
    at + 3
}

// Writes `words`, and behind them the number of a vertex.
pub fn put_clause(output: &mut [u8], at: usize, words: &[u8], vertex: Vertex) -> usize
    requires { at + (length words.now + 3) ≤ length output.old }
    ensures output { output.new ≡ sets output.old at (words.now ++ decimal vertex.0) }
    ensures end { result ≡ at + length (words.now ++ decimal vertex.0) }
{
    let number = put(output, at, words);
    put_number(output, number, vertex)
}
