// A drawing that comes as a DIMACS edge file, as a sheet.
#![tactic(auto)]

ghost use Rattle.std.specs.Prelude.{◌≡◌};
ghost use Rattle.drawing.specs.Sheet.{sheet_in, sheet_length};

use checks::number::number;
use dimacs::import::import;
use fields::write::line_of;
use plan_text::{Format, write_plan};

// Writes the sheet of the plan that a DIMACS edge file gives, with an empty walk, to the front of `output`; for a file that is refused, a line with the number of
// the refusal. Answers how many bytes that are; what stands behind them stays. An `output` of less than 18,159 bytes stays as it was, and 0 is answered. `file`
// is not altered.
pub fn sheet_of(file: &[u8], output: &mut [u8]) -> usize
    ensures output { output.new ≡ sheet_in file.now output.old }
    ensures length { result ≡ sheet_length file.now output.old }
{
    if output.len() < 18159 {
        return 0;
    }
    let mut rows = [0u64; 64];
    match import(file, &mut rows) {
        Ok(n) => write_plan(Format::Sheet, &rows[..n], output),
        Err(refusal) => line_of(output, 0, &[number(refusal) as usize]),
    }
}
