// Plans exported, and what is written then imported. The lengths are found by exports without a line.
ghost use Rattle.std.specs.Prelude.{◌≤◌};

use crate::calls;
use searches::Mark;

// Writes the file of a valid plan. Returns how many bytes it has.
fn write(rows: &[u64], text: &mut [u8]) -> usize {
    dimacs::export::export(Mark::TwoWay, rows, text).unwrap_or(0)
}

fn import_written(rows: &[u64], room: usize, text: &mut [u8])
    requires { room ≤ 68 }
{
    let length = write(rows, text);
    if length <= text.len() {
        calls::import(&text[..length], room);
    }
}

// From the file of a plan to so many rows.
pub fn import(rows: &[u64], room: usize)
    requires { room ≤ 68 }
{
    let mut text = [0u8; 15650];
    import_written(rows, room, &mut text);
}

// How many bytes the file of a plan has.
fn length(rows: &[u64]) -> usize {
    let mut text = [0u8; 15650];
    write(rows, &mut text)
}

// A plan, to so many bytes more than are needed.
pub fn export(mark: Mark, rows: &[u64], more: usize)
    requires { more ≤ 50 }
{
    let needed = length(rows);
    if needed < 15600 {
        calls::export(mark, rows, needed + more);
    }
}

// A plan, to a byte fewer than are needed.
pub fn export_short(rows: &[u64]) {
    let needed = length(rows);
    if 0 < needed && needed < 15600 {
        calls::export(Mark::TwoWay, rows, needed - 1);
    }
}
