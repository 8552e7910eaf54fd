// Import: a DIMACS edge file read into the rows of a two-way graph.
ghost use Rattle.std.specs.Prelude.{◌≡◌};
ghost use Rattle.searches.specs.Answer.{first_refusal, refusal_of};
ghost use Rattle.dimacs.specs.Drawing.{drawing_tests};
ghost use Rattle.dimacs.specs.Import.{import_answer, import_output, imported_of};

use crate::draw::{Drawing, read_lines};
use searches::Refusal;

// The first of refusals 27, 2, 27, 4 and 10, in this order, that applies to what a file came to and an output list of `size` entries, else `Ok`.
fn drawing_refusal(drawing: Drawing, size: usize) -> Result<(), Refusal>
    ensures { refusal_of result ≡ first_refusal (drawing_tests drawing size) }
{
    let n = drawing.n;
    let malformed = !(drawing.sound & (drawing.edges == drawing.m));
    let looped = drawing.looped;
    if !drawing.headed {
        return Err(Refusal::MalformedFile);
    }
    if 64 < n {
        return Err(Refusal::TooManyVertices);
    }
    if malformed {
        return Err(Refusal::MalformedFile);
    }
    if looped {
        return Err(Refusal::SelfLoop);
    }
    if (size as u64) < n {
        return Err(Refusal::OutputTooShort);
    }
    Ok(())
}

// Reads a DIMACS edge file, any bytes: comment lines, which begin with c, at any place; one line "p edge n m", before any link; m lines "e u v", points counted
// from 1. Writes the rows of the plan to the front of `rows`, and answers how many; the entries behind them stay. A link may come more than once, either way
// round. Refused (27 for the form up to and with the p line, 2, 27 for the other lines, 4 for a link of a point with itself, 10 for `rows` with fewer than n
// entries), `rows` stay as they were. `file` is not altered.
pub fn import(file: &[u8], rows: &mut [u64]) -> Result<usize, Refusal>
    ensures answer { imported_of result ≡ import_answer file.now rows.old }
    ensures rows { rows.new ≡ import_output file.now rows.old }
{
    let drawing = read_lines(file);
    drawing_refusal(drawing, rows.len())?;
    let n = drawing.n as usize;
    rows[..n].copy_from_slice(&drawing.rows[..n]);
    Ok(n)
}
