// The calls, each with the line that it prints.
ghost use Rattle.std.specs.Prelude.{◌≤◌};

use crate::answers;
use notation::{put, show, show_bar, show_list, show_plan};
use searches::Mark;
use std::array;

fn play_import(file: &[u8], rows: &mut [u64]) {
    put(b'i');
    show_bar();
    show_list(file);
    show_bar();
    show(rows.len() as u64);
    show_bar();
    answers::show_imported(dimacs::import::import(file, rows));
    show_bar();
    show_plan(rows);
    put(b'\n');
}

fn play_export(mark: Mark, rows: &[u64], output: &mut [u8]) {
    put(b'x');
    show_bar();
    show(mark as u64);
    show_bar();
    show_plan(rows);
    show_bar();
    show(output.len() as u64);
    show_bar();
    answers::show_exported(dimacs::export::export(mark, rows, output));
    show_bar();
    show_list(output);
    put(b'\n');
}

// Rows before a call: the one at place p is 1000 + p.
fn fresh_rows() -> [u64; 68] {
    array::from_fn(|p| 1000 + p as u64)
}

// Bytes before a call: the letters a to z, again and again.
fn fresh_bytes() -> [u8; 15650] {
    array::from_fn(|p| b'a' + (p % 26) as u8)
}

// Import of a file to so many rows.
pub fn import(file: &[u8], room: usize)
    requires { room ≤ 68 }
{
    let mut rows = fresh_rows();
    play_import(file, &mut rows[..room]);
}

// Export of a plan to so many bytes.
pub fn export(mark: Mark, rows: &[u64], room: usize)
    requires { room ≤ 15650 }
{
    let mut output = fresh_bytes();
    play_export(mark, rows, &mut output[..room]);
}
