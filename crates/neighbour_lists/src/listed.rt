// Calls on a plan and on its lists. The lists are made by the conversion, without a line.
ghost use Rattle.std.specs.Prelude.{◌≤◌, length};

use crate::calls;
use searches::Mark;

// Writes the lists of a valid plan. Returns how many neighbours there are.
fn write(mark: Mark, rows: &[u64], offsets: &mut [u16], neighbours: &mut [u8]) -> usize {
    // not refused: the plan is valid, and there is room
    let _ = conversion::to_lists(mark, rows, offsets, neighbours);
    let n = rows.len();
    if n < offsets.len() {
        usize::from(offsets[n])
    } else {
        0
    }
}

fn judge_on(
    mark: Mark,
    rows: &[u64],
    barred: u64,
    walk: &[u8],
    offsets: &mut [u16],
    neighbours: &mut [u8],
) {
    let n = rows.len();
    let count = write(mark, rows, offsets, neighbours);
    if n < offsets.len() && count <= neighbours.len() {
        calls::judge(mark, &offsets[..n + 1], &neighbours[..count], barred, walk);
    }
}

// A walk on the lists of a plan.
pub fn judge(mark: Mark, rows: &[u64], barred: u64, walk: &[u8]) {
    let mut offsets = [0u16; 65];
    let mut neighbours = [0u8; 4032];
    judge_on(mark, rows, barred, walk, &mut offsets, &mut neighbours);
}

fn convert_back(mark: Mark, rows: &[u64], room: usize, offsets: &mut [u16], neighbours: &mut [u8])
    requires { room ≤ 68 }
{
    let n = rows.len();
    let count = write(mark, rows, offsets, neighbours);
    if n < offsets.len() && count <= neighbours.len() {
        calls::to_rows(mark, &offsets[..n + 1], &neighbours[..count], room);
    }
}

// From the lists of a plan to so many rows.
pub fn to_rows(mark: Mark, rows: &[u64], room: usize)
    requires { room ≤ 68 }
{
    let mut offsets = [0u16; 65];
    let mut neighbours = [0u8; 4032];
    convert_back(mark, rows, room, &mut offsets, &mut neighbours);
}

// How many neighbours the lists of a plan have.
fn count(mark: Mark, rows: &[u64]) -> usize {
    let mut offsets = [0u16; 65];
    let mut neighbours = [0u8; 4032];
    write(mark, rows, &mut offsets, &mut neighbours)
}

// From a plan to lists with room for so many entries more than there will be.
pub fn to_lists(mark: Mark, rows: &[u64], more: usize)
    requires { (length rows.now ≤ 64) × (more ≤ 3) }
{
    let n = rows.len();
    let needed = count(mark, rows);
    if needed < 4033 {
        calls::to_lists(mark, rows, n + 1 + more, needed + more);
    }
}

// From a plan to lists with room for an offset too few, and to lists with room for a neighbour too few.
pub fn to_short_lists(mark: Mark, rows: &[u64])
    requires { length rows.now ≤ 64 }
{
    let n = rows.len();
    let needed = count(mark, rows);
    if needed < 4033 {
        calls::to_lists(mark, rows, n, needed);
        if 0 < needed {
            calls::to_lists(mark, rows, n + 1, needed - 1);
        }
    }
}
