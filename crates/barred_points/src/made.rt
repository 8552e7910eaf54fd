// Open walks that nobody opened. Plans and walks are written as digits (`rows_of` and `places_of` of `notation`).
use crate::calls::try_each;
use searches::{Kind, Mark};
use traversal::Traversal;

// The links 0-1, 1-2, 2-3, 0-3.
const RING: u64 = 0x0a050a05_00000000;

// The links 0-1, 0-3, 1-3, and 0-2.
const PENDANT: u64 = 0x0e090103_00000000;

// The links 0-1, 0-2, 2-3.
const PATH: u64 = 0x06010904_00000000;

// With 1 placed and 3 barred, of four points: an unplaced point, a placed one, a barred one, and two numbers that are none.
const OF_EACH_SORT: [u8; 5] = [0, 1, 3, 4, 255];

// With 0 placed, of five points: the others.
const BUT_0: [u8; 4] = [1, 2, 3, 4];

// For states that are damaged, or may be: a point that is unplaced there as a rule, and one that is barred as a rule.
const OF_DAMAGED: [u8; 2] = [0, 3];

// Each parameter is one field of `Traversal`, so a struct for them would be `Traversal` itself.
fn made(kind: u8, mark: Mark, n: usize, k: usize, plan: u64, barred: u64, walk: u64) -> Traversal {
    Traversal {
        kind: Kind(kind),
        mark,
        n,
        rows: notation::rows_of(plan),
        barred,
        k,
        ordering: notation::places_of(walk),
    }
}

// Of five points, of which 4 has no links.
fn with_five(kind: u8, mark: Mark, k: usize, plan: u64, barred: u64, walk: u64) {
    let points = BUT_0;
    try_each(made(kind, mark, 5, k, plan, barred, walk), &points);
}

// Three walks that would fail if nothing were barred: BFS and LexBFS; all kinds but Generic and BFS; all kinds. In the last one 1 and 2 are level:
// the barred point next to 2 is not placed.
pub fn passing(kind: u8, mark: Mark) {
    with_five(kind, mark, 3, RING, 0x08, 0x012_00000);
    with_five(kind, mark, 3, PENDANT, 0x08, 0x012_00000);
    with_five(kind, mark, 2, RING, 0x0a, 0x02_000000);
    with_five(kind, mark, 1, PATH, 0x08, 0x00_000000);
}

fn damage(kind: u8, mark: Mark, n: usize, k: usize, plan: u64, barred: u64, walk: u64) {
    let points = OF_DAMAGED;
    try_each(made(kind, mark, n, k, plan, barred, walk), &points);
}

// A set with a number that is no point; a barred point that is placed; a walk that fails even without the barred point.
fn wrong_sets(kind: u8, mark: Mark) {
    damage(kind, mark, 4, 1, RING, 0x18, 0x10_000000);
    damage(kind, mark, 4, 1, RING, 0x80000000_00000008, 0x10_000000);
    damage(kind, mark, 0, 0, 0, 0x01, 0);
    damage(kind, mark, 4, 1, RING, 0x02, 0x10_000000);
    damage(kind, mark, 4, 3, RING, 0x02, 0x012_00000);
    damage(kind, mark, 4, 4, RING, 0x0f, 0x0123_0000);
    damage(kind, mark, 4, 2, RING, 0x08, 0x02_000000);
}

// The plan is wrong at a barred point only: it leads to a number that is no point; to itself; to a point that does not lead back, which is damaged
// if two-way.
fn wrong_rows(kind: u8, mark: Mark) {
    damage(kind, mark, 4, 1, 0x0a050a25_00000000, 0x08, 0x10_000000);
    damage(kind, mark, 4, 1, 0x0a050a0d_00000000, 0x08, 0x10_000000);
    damage(kind, mark, 4, 1, 0x02050a05_00000000, 0x08, 0x10_000000);
}

// Too many points, and an unused place that is not 0.
fn wrong_rest(kind: u8, mark: Mark) {
    damage(kind, mark, 65, 1, RING, 0x08, 0x10_000000);
    damage(kind, mark, 4, 1, RING, 0x08, 0x12_000000);
}

// Well formed at first, then with one part damaged at a time.
pub fn damaged(kind: u8, mark: Mark) {
    let points = OF_EACH_SORT;
    try_each(made(kind, mark, 4, 1, RING, 0x08, 0x10_000000), &points);
    wrong_sets(kind, mark);
    wrong_rows(kind, mark);
    wrong_rest(kind, mark);
}
