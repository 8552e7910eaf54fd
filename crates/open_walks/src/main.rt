// Open walks played from a fixed list of calls: on a plan in one piece and one in two, and on two one-way plans, for each kind; on a plan whose links
// all go both ways as a one-way plan; damaged states of either mark; opens of either mark, most of them refused.
// A line for each call: the kind, the call (a point to place, or 254 for taking back), its answer (0, or a refusal's number), what `offered`
// then answers, its set, the mark of the open walk (0 two-way, 1 one-way), how many points there are and how many are placed, and the first five
// places. The line of an open has the mark that was asked for in the place of the call.
#![tactic(auto)]

ghost use Rattle.std.specs.Prelude.{◌≤◌};

use notation::show;
use searches::{Kind, Mark, Vertex};
use traversal::{Stepped, Traversal};

// Plans and walks are written as digits (`rows_of` and `places_of` of `notation`).

// The links 0-1, 1-2, 2-3, 0-3.
const RING: u64 = 0x0a050a05_00000000;

// The links 0-1, 0-2, 1-2, 1-3, and a point by itself.
const PIECES: u64 = 0x060d030200_000000;

// One-way: 0 leads to 1 and 3, 1 to 2 and 3, 2 to 4, 3 to 2, 4 to 0. After 1 and 3, both lead to 2 and none to 0, which leads to both.
const INFLOW: u64 = 0x0a0c100401_000000;

// One-way: 1 leads to 2 and 3, 2 to 4, 3 to 0 and 4, 4 to 1, and 0 and 4 to each other.
const BRANCHES: u64 = 0x100c101103_000000;

// In the place of a point to place: take one back.
const BACK: u8 = 254;

// The calls on an open walk.
const CALLS: [u8; 16] = [BACK, 1, 9, 1, 3, 2, 0, BACK, 0, 2, 3, 4, 0, BACK, BACK, 3];

// Prints what an open walk offers and holds, and hands it back.
fn shown(traversal: Traversal) -> Traversal {
    let seen = traversal.offered();
    let next = seen.traversal;
    let mark = next.mark;
    let places = next.ordering;
    notation::show_answer(seen.set.map_err(|refusal| refusal as u64));
    show(mark as u64);
    show(next.n as u64);
    show(next.k as u64);
    notation::show_list(&places[..5]);
    notation::put(b'\n');
    next
}

// The line of a call, from what it answered.
fn told(kind: u8, call: u64, stepped: Stepped) -> Traversal {
    let outcome = stepped.outcome;
    let next = stepped.traversal;
    io::print_decimal(1, u64::from(kind));
    show(call);
    show(notation::outcome(outcome.map_err(|refusal| refusal as u64)));
    shown(next)
}

fn step(traversal: Traversal, call: u8) -> Traversal {
    let kind = traversal.kind;
    let stepped = if call == BACK {
        traversal.take_back()
    } else {
        traversal.place(Vertex(call))
    };
    told(kind.0, u64::from(call), stepped)
}

// Opened on the first n rows of a plan.
fn open(kind: u8, mark: Mark, plan: u64, n: usize) -> Stepped
    requires { n ≤ 64 }
{
    let rows = notation::rows_of(plan);
    Traversal::open(Kind(kind), mark, &rows[..n], 0)
}

fn play(kind: u8, mark: Mark, plan: u64, n: usize)
    requires { n ≤ 64 }
{
    let opened = open(kind, mark, plan, n);
    let mut t = opened.traversal;
    for call in CALLS {
        t = step(t, call);
    }
}

// A point placed and taken back.
fn tried(traversal: Traversal) {
    step(step(traversal, 0), BACK);
}

// What an open hands back; refused, a two-way open walk of kind 0 without points.
fn show_open(kind: u8, mark: Mark, opened: Stepped) {
    tried(told(kind, mark as u64, opened));
}

// An open walk that nobody opened. Where it is damaged, each call hands it back as it is.
fn made(kind: u8, mark: Mark, n: usize, k: usize, plan: u64, walk: u64) -> Traversal {
    Traversal {
        kind: Kind(kind),
        mark,
        n,
        rows: notation::rows_of(plan),
        barred: 0,
        k,
        ordering: notation::places_of(walk),
    }
}

fn try_made(kind: u8, mark: Mark, n: usize, k: usize, plan: u64, walk: u64) {
    tried(made(kind, mark, n, k, plan, walk));
}

// With 1 for the last of the 64 rows.
fn damaged_row(kind: u8, mark: Mark) {
    let mut row = made(kind, mark, 4, 1, RING, 0x10_000000);
    row.rows[63] = 1;
    tried(row);
}

// With 3 for the last of the 64 places.
fn damaged_place(kind: u8, mark: Mark) {
    let mut place = made(kind, mark, 4, 1, RING, 0x10_000000);
    place.ordering[63] = 3;
    tried(place);
}

// Well formed at first, then with one part damaged at a time.
fn damaged(kind: u8, mark: Mark) {
    try_made(kind, mark, 4, 1, RING, 0x10_000000);
    try_made(kind, mark, 65, 1, RING, 0x10_000000);
    try_made(kind, mark, 4, 65, RING, 0x10_000000);
    try_made(kind, mark, 4, 5, RING, 0x10_000000);
    try_made(kind, mark, 4, 1, 0x1a050a05_00000000, 0x10_000000);
    try_made(kind, mark, 4, 1, 0x0b050a05_00000000, 0x10_000000);
    damaged_row(kind, mark);
    try_made(kind, mark, 4, 1, RING, 0x70_000000);
    try_made(kind, mark, 4, 2, RING, 0x11_000000);
    try_made(kind, mark, 4, 2, RING, 0x13_000000);
    try_made(kind, mark, 4, 1, RING, 0x13_000000);
    damaged_place(kind, mark);
}

// On a ring in which 3 leads to 0 and 0 not to 3: damaged if two-way. If one-way, the walks 1 and 3 0 pass, and 0 3 fails.
fn valve(kind: u8, mark: Mark) {
    try_made(kind, mark, 4, 1, 0x02050a05_00000000, 0x10_000000);
    try_made(kind, mark, 4, 2, 0x02050a05_00000000, 0x30_000000);
    try_made(kind, mark, 4, 2, 0x02050a05_00000000, 0x03_000000);
}

fn played(kind: u8) {
    play(kind, Mark::TwoWay, RING, 4);
    play(kind, Mark::TwoWay, PIECES, 5);
    play(kind, Mark::OneWay, INFLOW, 5);
    play(kind, Mark::OneWay, BRANCHES, 5);
    damaged(kind, Mark::TwoWay);
    valve(kind, Mark::TwoWay);
    valve(kind, Mark::OneWay);
}

fn open_crowd(mark: Mark) {
    let crowd = [0u64; 65];
    show_open(0, mark, Traversal::open(Kind(0), mark, &crowd, 0));
}

// Refused with 1 to 4 under either mark. The last two have links that go one way only: refused with 5 if two-way, opened if one-way.
fn opens(mark: Mark) {
    show_open(7, mark, open(7, mark, RING, 4));
    open_crowd(mark);
    show_open(1, mark, open(1, mark, 0x1a050a05_00000000, 4));
    show_open(2, mark, open(2, mark, 0x0b050a05_00000000, 4));
    show_open(3, mark, open(3, mark, 0x02050a05_00000000, 4));
    show_open(6, mark, open(6, mark, INFLOW, 5));
}

fn main() {
    for kind in 0u8..7 {
        played(kind);
    }
    play(6, Mark::OneWay, RING, 4);
    damaged(6, Mark::OneWay);
    damaged(7, Mark::TwoWay);
    damaged(7, Mark::OneWay);
    opens(Mark::TwoWay);
    opens(Mark::OneWay);
}
