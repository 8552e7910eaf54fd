// The calls, each with the line that it prints.
ghost use Rattle.std.specs.Prelude.{◌≤◌};

use crate::lines;
use notation::{put, show, show_bar, show_list, show_plan};
use searches::{Kind, Mark};
use std::array;

fn play_to_lists(mark: Mark, rows: &[u64], offsets: &mut [u16], neighbours: &mut [u8]) {
    lines::show_call(b'l', mark);
    show_bar();
    show_plan(rows);
    show_bar();
    show(offsets.len() as u64);
    show(neighbours.len() as u64);
    lines::show_outcome(conversion::to_lists(mark, rows, offsets, neighbours));
    show_bar();
    lines::show_offsets(offsets);
    show_bar();
    show_list(neighbours);
    put(b'\n');
}

fn play_to_rows(mark: Mark, offsets: &[u16], neighbours: &[u8], rows: &mut [u64]) {
    lines::show_call(b'r', mark);
    show_bar();
    lines::show_offsets(offsets);
    show_bar();
    show_list(neighbours);
    show_bar();
    show(rows.len() as u64);
    lines::show_outcome(conversion::to_rows(mark, offsets, neighbours, rows));
    show_bar();
    show_plan(rows);
    put(b'\n');
}

// Offsets before a call: the one at place p is 50000 + p.
fn fresh_offsets() -> [u16; 68] {
    array::from_fn(|p| 50000 + p as u16)
}

// Neighbours before a call: the one at place p is 100 + p modulo 100.
fn fresh_neighbours() -> [u8; 4100] {
    array::from_fn(|p| 100 + (p % 100) as u8)
}

// Rows before a call: the one at place p is 1000 + p.
fn fresh_rows() -> [u64; 68] {
    array::from_fn(|p| 1000 + p as u64)
}

// From rows to lists of so many offsets and so many neighbours.
pub fn to_lists(mark: Mark, rows: &[u64], offset_room: usize, neighbour_room: usize)
    requires { (offset_room ≤ 68) × (neighbour_room ≤ 4100) }
{
    let mut offsets = fresh_offsets();
    let mut neighbours = fresh_neighbours();
    play_to_lists(
        mark,
        rows,
        &mut offsets[..offset_room],
        &mut neighbours[..neighbour_room],
    );
}

// From lists to so many rows.
pub fn to_rows(mark: Mark, offsets: &[u16], neighbours: &[u8], room: usize)
    requires { room ≤ 68 }
{
    let mut rows = fresh_rows();
    play_to_rows(mark, offsets, neighbours, &mut rows[..room]);
}

fn judge_as(kind: u8, mark: Mark, offsets: &[u16], neighbours: &[u8], barred: u64, walk: &[u8]) {
    lines::show_judgement(sparse::judge(Kind(kind), mark, offsets, neighbours, barred, walk));
}

fn judge_as_each(mark: Mark, offsets: &[u16], neighbours: &[u8], barred: u64, walk: &[u8]) {
    for kind in 0u8..8 {
        judge_as(kind, mark, offsets, neighbours, barred, walk);
    }
    judge_as(255, mark, offsets, neighbours, barred, walk);
}

// A walk on lists, judged for the kinds 0 to 7 and 255.
pub fn judge(mark: Mark, offsets: &[u16], neighbours: &[u8], barred: u64, walk: &[u8]) {
    lines::show_call(b'j', mark);
    show_bar();
    lines::show_offsets(offsets);
    show_bar();
    show_list(neighbours);
    show_bar();
    show(barred);
    show_bar();
    show_list(walk);
    show_bar();
    judge_as_each(mark, offsets, neighbours, barred, walk);
    put(b'\n');
}
