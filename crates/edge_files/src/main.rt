// DIMACS edge files imported and exported: a sound file, cut at each byte and with each byte changed to thirteen others; files that are written out, sound and
// malformed; all two-way plans of up to four points, random ones of up to nine and of 64, and the plan with every link, each exported and imported again; output
// lists that are long enough, longer, too short by one entry, and empty; refused exports, each with everything wrong that is tried later.
// A line for each import: the letter i; after a bar each the bytes of the file, how many entries the output list has, the answer, and the whole output list after
// the call. Before the call the entry at place p of the list, counted from 0, is 1000 + p. The answer is n and how many points there are, or r and the number of
// a refusal.
// A line for each export: the letter x; after a bar each the mark (0 two-way, 1 one-way), the rows, how many bytes the output list has, the answer, and the bytes
// of the whole output list after the call. Before the call the list holds the letters a to z, again and again. The answer is w and how many bytes were written, or
// r and the number of a refusal.
#![tactic(auto)]

mod answers;
mod calls;
mod damaged;
mod exported;
mod refused;
mod written;

ghost use Rattle.std.specs.Prelude.{◌≤◌, length};

use plans::{Links, next};
use searches::Mark;
use std::array;

// A random number for each n and number of links.
fn seed(n: usize, links: Links) -> u64 {
    next(next(next((n as u64) ^ ((links as u64) << 8) ^ 0x9e3779b97f4a7c15)))
}

// Export with output lists of every length that matters, and import of what it wrote.
fn play(rows: &[u64])
    requires { length rows.now ≤ 64 }
{
    let n = rows.len();
    exported::export(Mark::TwoWay, rows, 0);
    exported::export(Mark::TwoWay, rows, 3);
    exported::export_short(rows);
    exported::import(rows, n);
    exported::import(rows, n + 2);
    if 0 < n {
        exported::import(rows, n - 1);
    }
}

// Random plans of n points, two-way and one-way.
fn play_random(n: usize, links: Links)
    requires { n ≤ 64 }
{
    let r = seed(n, links);
    let two_way = plans::small(Mark::TwoWay, n, links as u8, r);
    let one_way = plans::small(Mark::OneWay, n, links as u8, r);
    play(&two_way[..n]);
    exported::export(Mark::OneWay, &one_way[..n], 50);
    exported::export(Mark::OneWay, &two_way[..n], 0);
}

fn play_each_size() {
    for n in 0..10 {
        play_random(n, Links::Half);
        play_random(n, Links::Many);
    }
}

// The plans of n points with the numbers below `count`.
fn play_numbered(n: usize, count: u64)
    requires { n ≤ 4 }
{
    for number in 0..count {
        let rows = plans::numbered(n, number);
        exported::export(Mark::TwoWay, &rows[..n], 0);
        exported::import(&rows[..n], n);
    }
}

fn play_small() {
    play_numbered(0, 1);
    play_numbered(1, 1);
    play_numbered(2, 2);
    play_numbered(3, 8);
    play_numbered(4, 64);
}

// 64 points with every link: the longest file.
fn complete() -> [u64; 64] {
    array::from_fn(|u| bitset::remove(u64::MAX, u))
}

fn play_complete() {
    let rows = complete();
    exported::export(Mark::TwoWay, &rows, 0);
    exported::export_short(&rows);
    exported::import(&rows, 64);
}

fn main() {
    damaged::play_all();
    written::play_all();
    play_small();
    play_each_size();
    play(&notation::in_a_row());
    play(&plans::largest(Mark::TwoWay, seed(64, Links::Few)));
    play_complete();
    refused::play_all(Mark::TwoWay);
    refused::play_all(Mark::OneWay);
}
