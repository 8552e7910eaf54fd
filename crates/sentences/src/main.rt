// Walks judged in words: examples on four points; random plans of either mark with up to nine points, with and without barred points; plans of 64 points;
// output lists of exactly 96 bytes, of more and of fewer; refused calls, each with everything wrong that is tried later, and once more with an output list that
// is long enough.
// A line for each walk: the mark (0 two-way, 1 one-way); after a bar each the rows, the barred set, the walk, and how many bytes the output list has. Behind it a
// line for each of the kinds 0 to 7 and 255: the kind; the answer, w and the length of the sentence, or r and the number of a refusal; after a bar the bytes of
// the whole output list after the call. Before the call the list holds the letters a to z, again and again.
#![tactic(auto)]

mod four_points;
mod lines;

ghost use Rattle.std.specs.Prelude.{◌≤◌, length};

use crate::lines::say;
use plans::{Links, next, shuffled};
use searches::{Kind, Mark};

// How many bytes an output list must have.
const ENOUGH: usize = 96;

// A random number for each mark, n and number of links.
fn seed(mark: Mark, n: usize, links: Links) -> u64 {
    let digits = (n as u64) ^ ((links as u64) << 8) ^ ((mark as u64) << 24);
    next(next(next(digits ^ 0x2545f4914f6cdd1d)))
}

// The points of a plan that are not barred.
fn unbarred(n: usize, barred: u64) -> u64 {
    bitset::without(bitset::full_below(n), barred)
}

// An order of all unbarred points that passes this kind.
fn passing(kind: u8, mark: Mark, rows: &[u64], barred: u64, random: u64) -> [u8; 64]
    requires { length rows.now ≤ 64 }
{
    let n = rows.len();
    let tie_break = shuffled(bitset::full_below(n), random);
    let mut walk = [0u8; 64];
    // where it is refused, the walk is that of zeros
    let _ = engine::carry_on(
        Kind(kind),
        mark,
        rows,
        barred,
        &tie_break[..n],
        &mut walk,
        0,
    );
    walk
}

fn say_passing(kind: u8, mark: Mark, rows: &[u64], barred: u64, random: u64, size: usize)
    requires { (length rows.now ≤ 64) × (size ≤ 128) }
{
    let k = bitset::size(unbarred(rows.len(), barred));
    let walk = passing(kind, mark, rows, barred, random);
    if k < 65 {
        say(mark, rows, barred, &walk[..k], size);
    }
}

// All unbarred points in a random order, and the first two of them; then orders that pass LexBFS, LexDFS and MCS. Each other kind is passed by one of these.
fn say_some(mark: Mark, rows: &[u64], barred: u64, random: u64, size: usize)
    requires { (length rows.now ≤ 64) × (size ≤ 128) }
{
    let points = unbarred(rows.len(), barred);
    let k = bitset::size(points);
    let walk = shuffled(points, random);
    if k < 65 {
        say(mark, rows, barred, &walk[..k], size);
    }
    say(mark, rows, barred, &walk[..2], size);
    say_passing(3, mark, rows, barred, random, size);
    say_passing(4, mark, rows, barred, random, size);
    say_passing(6, mark, rows, barred, random, size);
}

// A random plan, with nothing barred and with a random set.
fn play(mark: Mark, n: usize, links: Links)
    requires { n ≤ 64 }
{
    let r = seed(mark, n, links);
    let rows = plans::small(mark, n, links as u8, r);
    let barred = bitset::full_below(n) & (r >> 9) & (r >> 40);
    say_some(mark, &rows[..n], 0, r, ENOUGH);
    say_some(mark, &rows[..n], barred, next(r), 128);
}

fn play_each_size(mark: Mark) {
    for n in 0..10 {
        play(mark, n, Links::Half);
    }
}

// Random plans of 64 points.
fn play_largest(mark: Mark) {
    let r = seed(mark, 64, Links::Few);
    let rows = plans::largest(mark, r);
    say_some(mark, &rows, 0, r, 97);
    say_some(mark, &rows, (r >> 3) & (r << 7) & next(r), r, ENOUGH);
}

// 64 points with the link 61-63, and the walk 61 62: the longest sentences.
fn say_longest(mark: Mark) {
    let mut rows = [0u64; 64];
    rows[61] = 1 << 63;
    rows[63] = 1 << 61;
    say(mark, &rows, 0, &[61, 62], ENOUGH);
}

fn main() {
    four_points::examples(Mark::TwoWay);
    four_points::examples(Mark::OneWay);
    play_each_size(Mark::TwoWay);
    play_each_size(Mark::OneWay);
    play(Mark::TwoWay, 8, Links::Pieces);
    play(Mark::OneWay, 8, Links::Pieces);
    play_largest(Mark::TwoWay);
    play_largest(Mark::OneWay);
    say_longest(Mark::TwoWay);
    say_longest(Mark::OneWay);
    four_points::play_all(Mark::TwoWay);
    four_points::play_all(Mark::OneWay);
}
