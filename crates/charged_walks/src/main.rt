// Walks charged from a fixed list of calls, each with halves to the even cent and with halves up: for each kind on plans in one piece and in two, on
// one-way plans, and on plans whose links all go both ways under either mark, at several rates; halves of a cent, and every remainder of 60 above an
// even and an odd number of cents, with small and with large products; refused calls, each with everything wrong that is tried later; the largest
// charge there is; a plan without points.
// A line for the two calls: the kind, the mark (0 two-way, 1 one-way), how many points, places and minutes there are, the rate, then of `charge` and
// of `charge_halves_up` the answer (0, or a refusal's number) and the cents.
#![tactic(auto)]

mod lines;
mod products;

ghost use Rattle.std.specs.Prelude.{◌≤◌};

use crate::lines::play;
use notation::{places_of, rows_of};
use searches::Mark;

// Plans and walks are written as digits (`rows_of` and `places_of` of `notation`). Beside a walk stands how many of its places count.

// The links 0-1, 0-2, 1-3.
const TREE: u64 = 0x06090102_00000000;

// The links 0-1, 1-2, 2-3, 0-3.
const RING: u64 = 0x0a050a05_00000000;

// The links 0-1, 0-2, 1-2, 1-3, and a point by itself.
const PIECES: u64 = 0x060d030200_000000;

// One-way: 0 leads to 1 and 2, 1 to 3.
const DOWN: u64 = 0x06080000_00000000;

// One-way: 0 leads to 1, 1 to 2, 2 to 3, 3 to 0.
const ROUND: u64 = 0x02040801_00000000;

// Four points, the last two either way round, and the five of `PIECES`, the one by itself in front.
const IN_TURN: u64 = 0x0123_0000;

const TURNED: u64 = 0x0132_0000;

const RESTARTED: u64 = 0x43102_000;

// In `DOWN` 1 leads to 3 and 0 to 1: the first two steps go against the links.
const UPSTREAM: u64 = 0x3102_0000;

// On the ring this fails every search, and its first point alone passes.
const FAILING: u64 = 0x02_000000;

const MINUTES: [u16; 4] = [10, 20, 5, 30];

const LONG: [u16; 5] = [999, 0, 1, 998, 7];

// The rates, among them the largest, and one above it.
const RATES: [u64; 7] = [0, 29, 30, 31, 4530, 99999, 100000];

// A walk at each rate.
fn rated(kind: u8, mark: Mark, rows: &[u64], ordering: &[u8], minutes: &[u16]) {
    for rate in RATES {
        play(kind, mark, rows, ordering, minutes, rate);
    }
}

// On a plan of four points.
fn on_four(kind: u8, mark: Mark, plan: u64, walk: u64, k: usize)
    requires { k ≤ 64 }
{
    let rows = rows_of(plan);
    let places = places_of(walk);
    let minutes = MINUTES;
    rated(kind, mark, &rows[..4], &places[..k], &minutes);
}

fn on_pieces(kind: u8, mark: Mark, walk: u64, k: usize)
    requires { k ≤ 64 }
{
    let rows = rows_of(PIECES);
    let places = places_of(walk);
    let minutes = LONG;
    rated(kind, mark, &rows[..5], &places[..k], &minutes);
}

// On plans whose links all go both ways.
fn both_ways(kind: u8, mark: Mark) {
    on_four(kind, mark, TREE, IN_TURN, 4);
    on_four(kind, mark, TREE, TURNED, 4);
    on_four(kind, mark, TREE, UPSTREAM, 4);
    on_four(kind, mark, RING, IN_TURN, 4);
    on_four(kind, mark, RING, TURNED, 4);
    on_four(kind, mark, RING, TURNED, 3);
    on_four(kind, mark, RING, FAILING, 2);
    on_pieces(kind, mark, RESTARTED, 5);
    on_pieces(kind, mark, IN_TURN, 1);
    on_pieces(kind, mark, IN_TURN, 0);
}

// On plans whose links all go one way.
fn one_way(kind: u8, mark: Mark) {
    on_four(kind, mark, DOWN, IN_TURN, 4);
    on_four(kind, mark, DOWN, TURNED, 4);
    on_four(kind, mark, DOWN, UPSTREAM, 4);
    on_four(kind, mark, ROUND, IN_TURN, 4);
    on_four(kind, mark, ROUND, TURNED, 4);
}

// The last one is a one-way plan as if it were two-way.
fn played(kind: u8) {
    both_ways(kind, Mark::TwoWay);
    both_ways(kind, Mark::OneWay);
    one_way(kind, Mark::OneWay);
    on_four(kind, Mark::TwoWay, DOWN, UPSTREAM, 4);
}

// A walk over four points, with a list of minutes that is too short and has entries above 999, and with a rate that is too high.
fn wrong(mark: Mark, plan: u64, walk: u64, k: usize)
    requires { k ≤ 64 }
{
    let rows = rows_of(plan);
    let places = places_of(walk);
    play(
        6,
        mark,
        &rows[..4],
        &places[..k],
        &[1000, 1000, 1000],
        100000,
    );
}

// More points than there can be, and everything else wrong as well.
fn crowded(kind: u8, mark: Mark) {
    let rows = [1u64; 65];
    let ordering = [99u8; 66];
    let few = [1000u16; 3];
    play(kind, mark, &rows, &ordering, &few, 100000);
}

// Refused by judge's own tests: each call is given everything wrong that is tried after what it is refused for. The plans are the ring with another
// first row. Where that is 2 the ring has a link that goes one way only: refused with 5 if two-way, and if one-way with what is tried next.
fn refused_walks(mark: Mark) {
    crowded(7, mark);
    crowded(6, mark);
    wrong(mark, 0x13050a05_00000000, 0x99999_000, 5);
    wrong(mark, 0x03050a05_00000000, 0x99999_000, 5);
    wrong(mark, 0x02050a05_00000000, 0x99999_000, 5);
    wrong(mark, RING, 0x99999_000, 5);
    wrong(mark, RING, 0x99999_000, 2);
    wrong(mark, RING, 0x010_00000, 3);
}

// The walk that fails, or its first point alone.
fn billed(mark: Mark, k: usize, minutes: &[u16], rate: u64)
    requires { k ≤ 64 }
{
    let rows = rows_of(RING);
    let places = places_of(FAILING);
    play(6, mark, &rows[..4], &places[..k], minutes, rate);
}

// Refused with 18, 19 and 20 likewise: for a list that is too short, too long, or has an entry above 999, for the rate, and for the walk. Then with
// nothing wrong but an entry of a point that is not placed, and with nothing wrong at all.
fn refused_bills(mark: Mark) {
    let minutes = MINUTES;
    let long = LONG;
    billed(mark, 2, &minutes[..3], 100000);
    billed(mark, 2, &long, 100000);
    billed(mark, 2, &[10, 20, 5, 1000], 100000);
    billed(mark, 2, &[65535, 20, 5, 30], 100000);
    billed(mark, 2, &minutes, 100000);
    billed(mark, 2, &minutes, 18446744073709551615);
    billed(mark, 2, &minutes, 99999);
    billed(mark, 1, &[10, 20, 5, 1000], 99999);
    billed(mark, 1, &minutes, 99999);
}

// No points at all.
fn empty(kind: u8, mark: Mark) {
    rated(kind, mark, &[], &[], &[]);
}

fn main() {
    for kind in 0u8..7 {
        played(kind);
    }
    products::halves();
    products::small_products();
    products::large_products();
    refused_walks(Mark::TwoWay);
    refused_walks(Mark::OneWay);
    refused_bills(Mark::TwoWay);
    refused_bills(Mark::OneWay);
    products::largest(0, Mark::TwoWay);
    products::largest(1, Mark::TwoWay);
    products::largest(2, Mark::TwoWay);
    products::largest(3, Mark::TwoWay);
    products::largest(4, Mark::TwoWay);
    products::largest(5, Mark::TwoWay);
    products::largest(6, Mark::TwoWay);
    products::largest(6, Mark::OneWay);
    empty(0, Mark::TwoWay);
    empty(6, Mark::TwoWay);
    empty(6, Mark::OneWay);
}
