// Plans, each told to have no ring without a chord, with an elimination order, or shown such a ring: all two-way plans of at most six points; rings of every
// length from 3 to 64, some beside other points, and the plans with all the other links; random plans without such a ring, and random plans; plans with all
// links and with none; output lists of n bytes, of more and of fewer; refused calls, each with everything wrong that is tried later.
// First come the plans of at most six points, from 0 points to 6, and by their numbers (`numbered` of `plans`). A line for each: the answer, and the bytes of
// the whole output list after the call, without spaces. The list has n + 1 bytes, and before the call all are 9.
// Then come the others. A line for each: the mark (0 two-way, 1 one-way) and how many rows there are; after a bar the rows; after another how many bytes the
// output list has, and the answer; after a third the bytes of the whole output list after the call. Before the call the byte at place p of the list, counted
// from 0, is 100 + p.
// An answer is y, or n and the length of the ring, or r and the number of a refusal.
#![tactic(auto)]

mod lines;
mod shapes;
mod small;

ghost use Rattle.std.specs.Prelude.{◌≤◌};

use crate::lines::decide;
use crate::shapes::{complement, ring};
use plans::{Links, next};
use searches::Mark;

// Plans are written as digits (`rows_of` of `notation`).

// The links 0-1, 0-2, 1-3.
const TREE: u64 = 0x06090102_00000000;

// Without a link.
fn empty() -> [u64; 64] {
    [0u64; 64]
}

fn two_way(rows: &[u64], room: usize)
    requires { room ≤ 66 }
{
    decide(Mark::TwoWay, rows, room);
}

// A ring of n points, and n points with all the other links.
fn rings(n: usize)
    requires { n ≤ 64 }
{
    let rows = ring(n);
    let others = complement(n, rows);
    two_way(&rows[..n], n);
    two_way(&others[..n], n);
}

// A ring of n of 64 points.
fn ring_of_some(n: usize)
    requires { n ≤ 64 }
{
    two_way(&ring(n), 66);
}

// With every link, and with none.
fn all_or_none(n: usize)
    requires { n ≤ 64 }
{
    let none = empty();
    let all = complement(n, none);
    two_way(&all[..n], n);
    two_way(&none[..n], n);
}

// A random number for each number of points.
fn seed(n: usize) -> u64 {
    next(next(next((n as u64) ^ 0x9e3779b97f4a7c15)))
}

// A random plan of n points that has no ring without a chord.
fn without_rings(n: usize)
    requires { n ≤ 64 }
{
    let rows = plans::grown(n, seed(n));
    two_way(&rows[..n], n + 1);
}

// A random plan of n points, with an output list of so many bytes.
fn random(n: usize, links: Links, random: u64, room: usize)
    requires { (n ≤ 64) × (room ≤ 66) }
{
    let rows = plans::small(Mark::TwoWay, n, links as u8, random);
    two_way(&rows[..n], room);
}

// Random plans of n points.
fn any_links(n: usize)
    requires { n ≤ 64 }
{
    let r = seed(n);
    random(n, Links::Few, r, n + 1);
    random(n, Links::Half, next(r), n);
    random(n, Links::Many, next(next(r)), n + 2);
    random(n, Links::Pieces, r, n);
}

// Plans of n points. There are more of them where n is from 7 to 30.
fn decide_some(n: usize)
    requires { n ≤ 64 }
{
    rings(n);
    without_rings(n);
    if 6 < n && n < 31 {
        any_links(n);
    }
}

fn decide_each_size() {
    for n in 3..65 {
        decide_some(n);
    }
}

// Four points, as digits, with an output list of three bytes.
fn wrong(mark: Mark, plan: u64) {
    let rows = notation::rows_of(plan);
    decide(mark, &rows[..4], 3);
}

// Each call is given everything wrong that is tried after what it is refused for. Three plans are the tree with another first row: with 0 linked to itself, to 1
// and to 4; to itself and to 1; to 1 alone. In each of them 2 leads to 0, and 0 not to 2.
fn refused(mark: Mark) {
    let crowd = [1u64; 65];
    decide(mark, &crowd, 0);
    wrong(mark, 0x13090102_00000000);
    wrong(mark, 0x03090102_00000000);
    wrong(mark, 0x02090102_00000000);
    wrong(mark, TREE);
}

// With an output list of just n bytes, of one byte fewer, of none, and on no points.
fn rooms(mark: Mark) {
    let tree = notation::rows_of(TREE);
    let none = empty();
    decide(mark, &tree[..4], 4);
    decide(mark, &tree[..4], 0);
    decide(mark, &none, 63);
    decide(mark, &none, 64);
    decide(mark, &none[..1], 0);
    decide(mark, &none[..0], 0);
    decide(mark, &none[..0], 3);
}

fn main() {
    small::decide_all();
    decide_each_size();
    any_links(64);
    ring_of_some(4);
    ring_of_some(5);
    ring_of_some(33);
    ring_of_some(63);
    all_or_none(1);
    all_or_none(2);
    all_or_none(7);
    all_or_none(33);
    all_or_none(63);
    all_or_none(64);
    two_way(&plans::largest(Mark::TwoWay, seed(65)), 64);
    two_way(&notation::in_a_row(), 64);
    refused(Mark::TwoWay);
    refused(Mark::OneWay);
    rooms(Mark::TwoWay);
    rooms(Mark::OneWay);
}
