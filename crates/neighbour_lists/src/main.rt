// Conversions of plans to neighbour lists and back, and walks judged on such lists: all two-way plans of up to four points and all one-way plans of up to three;
// random plans of either mark with up to nine points, with and without barred points; plans of 64 points, the one with every link among them; output lists that
// are long enough, longer and too short; lists and rows with one fault and with several.
// A line for each conversion: its letter, l to lists and r to rows, and the mark (0 two-way, 1 one-way); after a bar the rows, or after two the offsets and the
// neighbours; after another how many entries the output lists have, for lists the offsets first, and the answer; then, after a bar each, the whole output lists
// after the call. Before the call the offset at place p of the list, counted from 0, is 50000 + p, the neighbour 100 + p modulo 100, the row 1000 + p. The answer
// is d for done, or r and the number of a refusal.
// A line for each walk: the letter j and the mark; after a bar each the offsets, the neighbours, the barred set and the walk; after another the answers for the
// kinds 0 to 7 and 255. An answer is p for passes, f and the triple a, b, c for fails, or r and the number of a refusal.
#![tactic(auto)]

mod calls;
mod lines;
mod listed;
mod refused;
mod small;
mod walks;

ghost use Rattle.std.specs.Prelude.{◌≤◌, length};

use plans::{Links, next};
use searches::Mark;
use std::array;

// A random number for each mark, n and number of links.
fn seed(mark: Mark, n: usize, links: Links) -> u64 {
    let digits = (n as u64) ^ ((links as u64) << 8) ^ ((mark as u64) << 24);
    next(next(next(digits ^ 0x9e3779b97f4a7c15)))
}

// One of the seven kinds.
fn any_kind(random: u64) -> u8 {
    ((random >> 20) % 7) as u8
}

// Both conversions, with output lists that are long enough, longer and too short.
fn convert(mark: Mark, rows: &[u64])
    requires { length rows.now ≤ 64 }
{
    let n = rows.len();
    listed::to_lists(mark, rows, 0);
    listed::to_lists(mark, rows, 3);
    listed::to_short_lists(mark, rows);
    listed::to_rows(mark, rows, n);
    listed::to_rows(mark, rows, n + 2);
    if 0 < n {
        listed::to_rows(mark, rows, n - 1);
    }
}

// A walk that passes a kind, a random one, and two places of another.
fn judge_some(mark: Mark, rows: &[u64], barred: u64, random: u64)
    requires { length rows.now ≤ 64 }
{
    let r = next(random);
    walks::judge_passing(any_kind(random), mark, rows, barred, random);
    walks::judge_all(mark, rows, barred, r);
    walks::judge_random(mark, rows, barred, next(r), 2);
}

fn play(mark: Mark, n: usize, links: Links)
    requires { n ≤ 64 }
{
    let r = seed(mark, n, links);
    let rows = plans::small(mark, n, links as u8, r);
    let barred = bitset::full_below(n) & (r >> 9) & (r >> 40);
    convert(mark, &rows[..n]);
    judge_some(mark, &rows[..n], 0, r);
    judge_some(mark, &rows[..n], barred, next(r));
}

// Plans of n points.
fn play_each(n: usize)
    requires { n ≤ 64 }
{
    play(Mark::TwoWay, n, Links::Half);
    play(Mark::TwoWay, n, Links::Many);
    play(Mark::OneWay, n, Links::Few);
    play(Mark::OneWay, n, Links::Half);
}

fn play_each_size() {
    for n in 0..10 {
        play_each(n);
    }
}

// Walks on a plan of 64 points, one for each kind that it passes.
fn judge_each_kind(mark: Mark, rows: &[u64], random: u64)
    requires { length rows.now ≤ 64 }
{
    for kind in 0u8..7 {
        walks::judge_passing(kind, mark, rows, 0, random);
    }
}

// The same with barred points; walks that pass LexBFS, LexDFS and MCS pass the other kinds, too.
fn judge_barring(mark: Mark, rows: &[u64], barred: u64, random: u64)
    requires { length rows.now ≤ 64 }
{
    walks::judge_passing(3, mark, rows, barred, random);
    walks::judge_passing(4, mark, rows, barred, random);
    walks::judge_passing(6, mark, rows, barred, random);
}

// A random plan of 64 points.
fn play_largest(mark: Mark) {
    let r = seed(mark, 64, Links::Few);
    let rows = plans::largest(mark, r);
    let barred = (r >> 3) & (r << 7) & next(r);
    listed::to_lists(mark, &rows, 0);
    listed::to_rows(mark, &rows, 64);
    judge_each_kind(mark, &rows, r);
    judge_barring(mark, &rows, barred, r);
    walks::judge_all(mark, &rows, 0, r);
    walks::judge_all(mark, &rows, barred, r);
}

// The first k of 64 points in a row.
fn judge_row(mark: Mark, barred: u64, k: usize)
    requires { k ≤ 64 }
{
    let points = notation::all_points();
    listed::judge(mark, &notation::in_a_row(), barred, &points[..k]);
}

// 64 points in a row.
fn play_row(mark: Mark) {
    convert(mark, &notation::in_a_row());
    judge_row(mark, 0, 64);
    judge_row(mark, 0x8000, 15);
}

// 64 points with every link.
fn complete() -> [u64; 64] {
    array::from_fn(|u| bitset::remove(u64::MAX, u))
}

fn play_complete() {
    let rows = complete();
    let points = notation::all_points();
    listed::to_lists(Mark::TwoWay, &rows, 0);
    listed::to_lists(Mark::OneWay, &rows, 3);
    listed::to_rows(Mark::OneWay, &rows, 64);
    listed::to_rows(Mark::TwoWay, &rows, 65);
    listed::judge(Mark::TwoWay, &rows, 0, &points);
    listed::judge(Mark::OneWay, &rows, 0, &points);
}

fn main() {
    small::play_all();
    play_each_size();
    play(Mark::TwoWay, 8, Links::Pieces);
    play(Mark::OneWay, 8, Links::Pieces);
    play_largest(Mark::TwoWay);
    play_largest(Mark::OneWay);
    play_row(Mark::TwoWay);
    play_row(Mark::OneWay);
    play_complete();
    refused::play_all(Mark::TwoWay);
    refused::play_all(Mark::OneWay);
}
