// Export: a two-way graph as the bytes of a DIMACS edge file.
ghost use Rattle.std.specs.Prelude.{◌≡◌};
ghost use Rattle.dimacs.specs.Export.{export_answer, export_output, exported_of};

use checks::two_way::two_way_refusal;
use plan_text::{Format, write_plan};
use searches::{Mark, Refusal};

// Writes the DIMACS edge file of a two-way graph to the front of `output`: "p edge n m", with m its number of links, then "e u v" for every link, the smaller
// vertex first, ascending, vertices counted from 1. Answered is how many bytes that are; what stands behind them stays. Refused (2, 3, 4, 25 for a one-way
// graph, 5, then 10 for an `output` that is too short for the text), `output` stays as it was. `rows` are not altered.
pub fn export(mark: Mark, rows: &[u64], output: &mut [u8]) -> Result<usize, Refusal>
    ensures answer { exported_of result ≡ export_answer mark rows.now output.old }
    ensures output { output.new ≡ export_output mark rows.now output.old }
{
    two_way_refusal(mark, rows)?;
    let mut text = [0u8; 18159];
    let length = write_plan(Format::Edges, rows, &mut text);
    if output.len() < length {
        return Err(Refusal::OutputTooShort);
    }
    wording::write::put(output, 0, &text[..length]);
    Ok(length)
}
