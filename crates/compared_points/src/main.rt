// Points compared with each other, on open walks of every kind: on random plans of either mark with 0 to 9 points, with few links, with many and in
// pieces, from nothing placed to all placed and after takings back; on plans of 64 points; on walks that pass some kinds and fail others; on damaged
// states, and on states of kinds that there are not.
// For each open walk: a line that shows it, a line for each of some numbers, and a line that shows it again. Each call is given the open walk that
// the call before it handed back, and the last line shows the one that the last call handed back.
// The line of an open walk: the kind, the mark (0 two-way, 1 one-way), how many points there are and how many are placed; after a bar the rows, and
// after another the placed points. A row or a place that is not used comes behind these if it is not 0, with its number and a colon before it.
// The line of a number: the number, a colon, and how the point of this number stands to that of each number here, in the order of their lines: a for
// ahead, b for behind, l for level, n for neither, or the number of a refusal.
#![tactic(auto)]

mod lines;

ghost use Rattle.std.specs.Prelude.{◌≤◌};

use plans::{Links, next};
use searches::{Kind, Mark, Vertex};
use traversal::Traversal;

// The points of the largest of the small plans, and one that it does not have.
const POINTS: [u8; 10] = [0, 1, 2, 3, 4, 5, 6, 7, 8, 9];

// Some of 64 points, and two numbers that are none.
const SPREAD: [u8; 10] = [0, 9, 18, 27, 36, 45, 54, 63, 64, 255];

// With four points of which 1 is placed: an unplaced point, a placed one, and a number that is none.
const OF_EACH_SORT: [u8; 3] = [0, 1, 4];

// Plans and walks are written as digits (`rows_of` and `places_of` of `notation`).

// The links 0-1, 1-2, 2-3, 0-3.
const RING: u64 = 0x0a050a05_00000000;

// The links 0-1, 0-3, 1-3, and 0-2.
const PENDANT_ON_0: u64 = 0x0e090103_00000000;

// The links 0-1, 0-3, 1-3, and 1-2.
const PENDANT_ON_1: u64 = 0x0a0d0203_00000000;

// One call.
fn compare(traversal: Traversal, first: u8, second: u8) -> Traversal {
    let compared = traversal.compare(Vertex(first), Vertex(second));
    let standing = compared.standing;
    notation::show_standing(standing.map_err(|refusal| refusal as u64));
    compared.traversal
}

// The line of a number: it is compared with each number of the list.
fn against_each(traversal: Traversal, first: u8, points: &[u8]) -> Traversal {
    notation::show_first(first);
    let mut t = traversal;
    for point in points {
        t = compare(t, first, *point);
    }
    notation::put(b'\n');
    t
}

// Each number of the list compared with each of them.
fn compare_each(traversal: Traversal, points: &[u8]) -> Traversal {
    lines::show_walk(traversal);
    let mut t = traversal;
    for point in points {
        t = against_each(t, *point, points);
    }
    lines::show_walk(t);
    t
}

// The numbers 0 to n, where n is at most 9.
fn compare_all(traversal: Traversal) -> Traversal {
    let n = traversal.n;
    if n < 10 {
        let points = POINTS;
        compare_each(traversal, &points[..n + 1])
    } else {
        traversal
    }
}

// With an offered point placed; where all are placed, as it was. `plans` and `notation` know no open walk, so `barred_points` has its own.
fn grown(traversal: Traversal, random: u64) -> Traversal {
    let seen = traversal.offered();
    let set = seen.set.unwrap_or(0);
    let t = seen.traversal;
    let stepped = t.place(Vertex(plans::chosen(set, random)));
    stepped.traversal
}

fn grown_by_four(traversal: Traversal, random: u64) -> Traversal {
    let mut t = traversal;
    let mut r = random;
    for _ in 0..4 {
        r = next(r);
        t = grown(t, r);
    }
    t
}

fn grown_by_sixteen(traversal: Traversal, random: u64) -> Traversal {
    let mut t = traversal;
    let mut r = random;
    for _ in 0..4 {
        r = next(r);
        t = grown_by_four(t, r);
    }
    t
}

// A point placed and all compared.
fn step(traversal: Traversal, random: u64) -> Traversal {
    compare_all(grown(traversal, random))
}

// A point taken back and all compared.
fn step_back(traversal: Traversal) -> Traversal {
    let stepped = traversal.take_back();
    let t = stepped.traversal;
    compare_all(t)
}

// A random number for each kind, mark, n and number of links.
fn seed(kind: u8, mark: Mark, n: usize, links: Links) -> u64 {
    let digits = (n as u64)
        ^ ((links as u64) << 8)
        ^ (u64::from(kind) << 16)
        ^ ((mark as u64) << 24);
    next(next(next(digits ^ 0x9e3779b97f4a7c15)))
}

// Nothing placed on a plan of n points.
fn start(kind: u8, mark: Mark, n: usize, rows: [u64; 64]) -> Traversal {
    Traversal {
        kind: Kind(kind),
        mark,
        n,
        rows,
        barred: 0,
        k: 0,
        ordering: [0u8; 64],
    }
}

// A walk over all of at most six points.
fn play(kind: u8, mark: Mark, n: usize, links: Links) -> Traversal
    requires { n ≤ 9 }
{
    let r = seed(kind, mark, n, links);
    let mut t = compare_all(start(kind, mark, n, plans::small(mark, n, links as u8, r)));
    let mut random = r;
    for _ in 0..n {
        random = next(random);
        t = step(t, random);
    }
    t
}

// A walk over all of four points; three are taken back, and one is placed.
fn play_back(kind: u8, mark: Mark) {
    let t = play(kind, mark, 4, Links::Half);
    let t = step_back(t);
    let t = step_back(t);
    let t = step_back(t);
    step(t, seed(kind, mark, 3, Links::Half));
}

// A walk over four of nine points, and then six.
fn play_on_nine(kind: u8, mark: Mark) {
    let r = seed(kind, mark, 9, Links::Half);
    let t = start(kind, mark, 9, plans::small(mark, 9, plans::HALF, r));
    let t = compare_all(grown_by_four(t, r));
    compare_all(grown(grown(t, r), next(r)));
}

// A walk over 16 of 64 points, and then 32.
fn play_on_largest(kind: u8, mark: Mark) {
    let r = seed(kind, mark, 64, Links::Few);
    let rows = plans::largest(mark, r);
    let opened = Traversal::open(Kind(kind), mark, &rows, 0);
    let t = opened.traversal;
    let points = SPREAD;
    let t = compare_each(grown_by_sixteen(t, r), &points);
    compare_each(grown_by_sixteen(t, next(r)), &points);
}

// An open walk that nobody opened.
fn made(kind: u8, mark: Mark, n: usize, k: usize, plan: u64, walk: u64) -> Traversal {
    Traversal {
        kind: Kind(kind),
        mark,
        n,
        rows: notation::rows_of(plan),
        barred: 0,
        k,
        ordering: notation::places_of(walk),
    }
}

// A walk over three of four points.
fn third(kind: u8, mark: Mark, plan: u64, walk: u64) {
    compare_all(made(kind, mark, 4, 3, plan, walk));
}

// Walks that fail BFS and LexBFS; DFS and LexDFS; all kinds but Generic and BFS; all kinds but Generic and DFS.
fn failing(kind: u8, mark: Mark) {
    third(kind, mark, RING, 0x012_00000);
    third(kind, mark, RING, 0x013_00000);
    third(kind, mark, PENDANT_ON_0, 0x012_00000);
    third(kind, mark, PENDANT_ON_1, 0x012_00000);
}

// The points of each sort compared.
fn compare_sorts(traversal: Traversal) {
    let points = OF_EACH_SORT;
    compare_each(traversal, &points);
}

fn sorts(kind: u8, mark: Mark, n: usize, k: usize, plan: u64, walk: u64) {
    compare_sorts(made(kind, mark, n, k, plan, walk));
}

// With 1 for the last of the 64 rows.
fn damaged_row(kind: u8, mark: Mark) {
    let mut row = made(kind, mark, 4, 1, RING, 0x10_000000);
    row.rows[63] = 1;
    compare_sorts(row);
}

// With 3 for the last of the 64 places.
fn damaged_place(kind: u8, mark: Mark) {
    let mut place = made(kind, mark, 4, 1, RING, 0x10_000000);
    place.ordering[63] = 3;
    compare_sorts(place);
}

// Well formed at first, then with one part damaged at a time. In the last one 3 leads to 0 and 0 not to 3: damaged if two-way.
fn damaged(kind: u8, mark: Mark) {
    sorts(kind, mark, 4, 1, RING, 0x10_000000);
    sorts(kind, mark, 65, 1, RING, 0x10_000000);
    sorts(kind, mark, 18446744073709551615, 1, RING, 0x10_000000);
    sorts(kind, mark, 0, 0, RING, 0x00_000000);
    sorts(kind, mark, 4, 5, RING, 0x10_000000);
    sorts(kind, mark, 4, 65, RING, 0x10_000000);
    sorts(kind, mark, 4, 18446744073709551615, RING, 0x10_000000);
    sorts(kind, mark, 4, 1, 0x1a050a05_00000000, 0x10_000000);
    sorts(kind, mark, 4, 1, 0x0b050a05_00000000, 0x10_000000);
    damaged_row(kind, mark);
    sorts(kind, mark, 4, 1, RING, 0x70_000000);
    sorts(kind, mark, 4, 2, RING, 0x11_000000);
    sorts(kind, mark, 4, 2, RING, 0x13_000000);
    sorts(kind, mark, 4, 1, RING, 0x13_000000);
    damaged_place(kind, mark);
    sorts(kind, mark, 4, 1, 0x02050a05_00000000, 0x10_000000);
}

fn marked(kind: u8, mark: Mark) {
    play(kind, mark, 0, Links::Half);
    play(kind, mark, 1, Links::Half);
    play(kind, mark, 2, Links::Half);
    play(kind, mark, 4, Links::Many);
    play(kind, mark, 5, Links::Pieces);
    play(kind, mark, 6, Links::Few);
    play_back(kind, mark);
    play_on_nine(kind, mark);
    failing(kind, mark);
    damaged(kind, mark);
}

fn played(kind: u8) {
    marked(kind, Mark::TwoWay);
    marked(kind, Mark::OneWay);
}

fn main() {
    for kind in 0u8..7 {
        played(kind);
    }
    damaged(7, Mark::TwoWay);
    damaged(255, Mark::OneWay);
    play_on_largest(0, Mark::TwoWay);
    play_on_largest(1, Mark::OneWay);
    play_on_largest(2, Mark::TwoWay);
    play_on_largest(3, Mark::OneWay);
    play_on_largest(4, Mark::TwoWay);
    play_on_largest(5, Mark::OneWay);
    play_on_largest(5, Mark::TwoWay);
    play_on_largest(6, Mark::OneWay);
}
