// Ways back on 64 points.
ghost use Rattle.std.specs.Prelude.{◌≤◌};

use crate::lines::trace;
use searches::Mark;

// All points but 1.
const OTHERS: u64 = 18446744073709551613;

// One call, with the walk over the first k points.
fn trace_on(mark: Mark, rows: &[u64], k: usize, vertex: u8, room: usize)
    requires { (k ≤ 64) × (room ≤ 66) }
{
    let points = notation::all_points();
    trace(mark, rows, &points[..k], vertex, room);
}

// To some points, with all points walked or the first 40.
fn traced(mark: Mark, rows: &[u64]) {
    trace_on(mark, rows, 64, 1, 64);
    trace_on(mark, rows, 64, 63, 64);
    trace_on(mark, rows, 64, 62, 66);
    trace_on(mark, rows, 40, 39, 64);
    trace_on(mark, rows, 40, 40, 64);
    trace_on(mark, rows, 64, 64, 64);
    trace_on(mark, rows, 64, 63, 63);
}

// The rows, where that of the point 1 is `one` and each other is `others`.
fn round_one(one: u64, others: u64) -> [u64; 64] {
    let mut rows = [others; 64];
    rows[1] = one;
    rows
}

// In a row, and round the point 1: linked to all others; leading to all of them; led to by all of them.
pub fn largest() {
    traced(Mark::TwoWay, &notation::in_a_row());
    traced(Mark::OneWay, &notation::in_a_row());
    traced(Mark::TwoWay, &round_one(OTHERS, 2));
    traced(Mark::OneWay, &round_one(OTHERS, 0));
    traced(Mark::OneWay, &round_one(0, 2));
}
