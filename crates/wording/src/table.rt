// The names of the searches in words, as a table.
ghost use Rattle.std.specs.Prelude.{◌≡◌, ◌≤◌, ◌<◌, length};
ghost use Rattle.std.proofs.lemmas.List.Edits.{sets};
ghost use Rattle.searches.specs.Kind.{search_of};
ghost use Rattle.wording.specs.Sentence.{name};

use crate::write::put;
use searches::Kind;

// A row of bytes for each kind. Behind a name its row is 0. A constant table of rows, with their lengths beside it, is a form that the requirements name.
const NAMES: [[u8; 7]; 7] = [
    [b'G', b'e', b'n', b'e', b'r', b'i', b'c'],
    [b'B', b'F', b'S', 0, 0, 0, 0],
    [b'D', b'F', b'S', 0, 0, 0, 0],
    [b'L', b'e', b'x', b'B', b'F', b'S', 0],
    [b'L', b'e', b'x', b'D', b'F', b'S', 0],
    [b'M', b'N', b'S', 0, 0, 0, 0],
    [b'M', b'C', b'S', 0, 0, 0, 0],
];

// How many bytes of its row each name has.
const LENGTHS: [usize; 7] = [7, 3, 3, 6, 6, 3, 3];

// Writes the name of a search to the front of `output`, and answers where it ends.
pub fn put_name(output: &mut [u8], kind: Kind) -> usize
    requires { (kind.0 < 7) × (7 ≤ length output.old) }
    ensures output { output.new ≡ sets output.old 0 (name (search_of kind.0)) }
    ensures end { result ≡ length (name (search_of kind.0)) }
{
    let k = kind.0 as usize;
    let row = NAMES[k];
    let count = LENGTHS[k];
    put(output, 0, &row[..count])
}
