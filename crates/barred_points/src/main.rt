// Open walks with points out of service, of every kind: on random plans of either mark with 0 to 6 points, with none, one, several or all of them
// barred, from nothing placed to all unbarred points placed and after takings back; on plans of 64 points; on walks that pass only because of what
// is barred; on damaged states; and opens, many of them refused.
// The line of an open: the kind, the mark (0 two-way, 1 one-way), after a bar the rows, after another the barred set; after a semicolon the answer
// (0, or a refusal's number), and after another the open walk that is handed back.
// For each open walk that is tried: a line that shows it; a line with what `offered` answers and its set, and after semicolons what taking back
// answers and the open walk that it hands back; and a line for each of some numbers: the number, a colon, how the point of this number stands to that
// of each number here, in the order of their lines (a for ahead, b for behind, l for level, n for neither, or the number of a refusal), and after
// semicolons what placing it answers and the open walk that this hands back. Each call is given the open walk that the last `offered` or comparison
// handed back.
// An open walk is shown as the kind, the mark, how many points there are and how many are placed; after a bar the rows, after another the placed
// points, after another the barred set. A row or a place that is not used comes behind the others if it is not 0, with its number and a colon before
// it.
#![tactic(auto)]

mod calls;
mod lines;
mod made;
mod opens;

ghost use Rattle.std.specs.Prelude.{◌≤◌};

use calls::{grown, grown_by, open, try_each};
use plans::{Links, next};
use searches::Mark;
use traversal::Traversal;

// The points of a small plan, and then numbers that are none.
const POINTS: [u8; 10] = [0, 1, 2, 3, 4, 5, 6, 7, 8, 9];

// Some of 64 points, and two numbers that are none.
const SPREAD: [u8; 8] = [0, 9, 27, 36, 54, 63, 64, 255];

// How many points are barred.
#[derive(Clone, Copy)]
enum Barred {
    Nothing,
    One,
    Two,
    Quarter,
    Most,
    All,
}

// A set of one point, taken from the given set; of 0, if that is empty.
fn one_of(set: u64, random: u64) -> u64 {
    bitset::insert(0, plans::chosen(set, random) as usize)
}

// A random set of so many of the points below n.
fn barred_set(how_many: Barred, n: usize, random: u64) -> u64 {
    let points = bitset::full_below(n);
    let r = next(random);
    let first = one_of(points, random);
    match how_many {
        Barred::Nothing => 0,
        Barred::One => first,
        Barred::Two => first | one_of(bitset::without(points, first), r),
        Barred::Quarter => points & random & r,
        Barred::Most => points & (random | r),
        Barred::All => points,
    }
}

// The numbers 0 to n, where n is at most 9.
fn try_all(traversal: Traversal) -> Traversal {
    let n = traversal.n;
    if n < 10 {
        let points = POINTS;
        try_each(traversal, &points[..n + 1])
    } else {
        traversal
    }
}

// A random number for each kind, mark, n, number of links and number of barred points.
fn seed(kind: u8, mark: Mark, n: usize, links: Links, how_many: Barred) -> u64 {
    let digits = (n as u64)
        ^ ((links as u64) << 8)
        ^ (u64::from(kind) << 16)
        ^ ((mark as u64) << 24)
        ^ ((how_many as u64) << 32);
    next(next(next(digits ^ 0x9e3779b97f4a7c15)))
}

// A walk over all unbarred points of a small plan.
fn play(kind: u8, mark: Mark, n: usize, links: Links, how_many: Barred) -> Traversal
    requires { n ≤ 9 }
{
    let r = seed(kind, mark, n, links, how_many);
    let barred = barred_set(how_many, n, r);
    let unbarred = bitset::size(bitset::without(bitset::full_below(n), barred));
    let mut t = try_all(open(kind, mark, plans::small(mark, n, links as u8, r), n, barred));
    let mut random = r;
    for _ in 0..unbarred {
        random = next(random);
        t = try_all(grown(t, random));
    }
    t
}

// A walk over three of four points; two are taken back, and one is placed.
fn play_back(kind: u8, mark: Mark) {
    let t = play(kind, mark, 4, Links::Half, Barred::One);
    let once = t.take_back();
    let t = once.traversal;
    let twice = t.take_back();
    let t = try_all(twice.traversal);
    try_all(grown(t, seed(kind, mark, 4, Links::Half, Barred::All)));
}

// A walk over so many of 64 points, or over all that are not barred.
fn play_on_largest(kind: u8, mark: Mark, how_many: Barred, placed: usize) {
    let r = seed(kind, mark, 64, Links::Few, how_many);
    let t = open(
        kind,
        mark,
        plans::largest(mark, r),
        64,
        barred_set(how_many, 64, r),
    );
    let points = SPREAD;
    try_each(grown_by(t, placed, r), &points);
}

fn marked(kind: u8, mark: Mark) {
    play(kind, mark, 0, Links::Half, Barred::Nothing);
    play(kind, mark, 1, Links::Half, Barred::All);
    play(kind, mark, 2, Links::Many, Barred::One);
    play(kind, mark, 3, Links::Half, Barred::All);
    play(kind, mark, 3, Links::Half, Barred::Nothing);
    play_back(kind, mark);
    play(kind, mark, 5, Links::Pieces, Barred::Two);
    play(kind, mark, 6, Links::Half, Barred::One);
    made::passing(kind, mark);
    made::damaged(kind, mark);
    opens::refused(kind, mark);
}

fn played(kind: u8) {
    marked(kind, Mark::TwoWay);
    marked(kind, Mark::OneWay);
}

fn main() {
    for kind in 0u8..7 {
        played(kind);
    }
    made::damaged(7, Mark::TwoWay);
    made::damaged(255, Mark::OneWay);
    opens::ordered(Mark::TwoWay);
    opens::ordered(Mark::OneWay);
    play_on_largest(0, Mark::TwoWay, Barred::Quarter, 16);
    play_on_largest(1, Mark::OneWay, Barred::Quarter, 16);
    play_on_largest(2, Mark::TwoWay, Barred::Quarter, 16);
    play_on_largest(3, Mark::OneWay, Barred::Quarter, 16);
    play_on_largest(4, Mark::TwoWay, Barred::Quarter, 16);
    play_on_largest(5, Mark::OneWay, Barred::Quarter, 16);
    play_on_largest(6, Mark::TwoWay, Barred::Quarter, 16);
    play_on_largest(5, Mark::TwoWay, Barred::Most, 8);
    play_on_largest(6, Mark::OneWay, Barred::Most, 64);
}
