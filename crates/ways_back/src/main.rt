// Ways back from a fixed list of calls: to each point of plans in one piece and in several, of rings and of one-way plans, and of plans whose links
// all go both ways under either mark; in whole walks, in walks that are broken off, in the empty one and in walks that fail BFS; on 64 points, on one
// and on none; with output lists of n bytes, of more and of fewer; refused calls, each with everything wrong that is tried later.
// A line for each call: the mark (0 two-way, 1 one-way), how many points and places there are, the given point, how many bytes the output list has,
// the answer (0, or a refusal's number), how many points were written, and the bytes of the whole output list after the call. Before the call the
// byte at place p of the list, counted from 0, is 100 + p.
#![tactic(auto)]

mod largest;
mod lines;

ghost use Rattle.std.specs.Prelude.{◌≤◌};

use crate::lines::trace;
use notation::{places_of, rows_of};
use searches::Mark;

// Plans and walks are written as digits (`rows_of` and `places_of` of `notation`). Beside a plan stands how many points it has, and beside a walk how
// many of its places count.

// The links 0-1, 0-2, 1-3.
const TREE: u64 = 0x06090102_00000000;

// The links 0-1, 1-2, 2-3, 3-4, 4-5, 0-5.
const RING: u64 = 0x22050a142811_0000;

// The links 0-1, 0-2, 1-2, then 3-4, and a point by itself.
const PIECES: u64 = 0x060503100800_0000;

// The links 0-1, 0-2, 0-3, 1-4, 2-4, 3-4, 3-5, 4-5.
const MESH: u64 = 0x0e1111312e18_0000;

// One-way: 0 leads to 1 and 2, 1 to 3.
const DOWN: u64 = 0x06080000_00000000;

// One-way: 0 leads to 1, 1 to 2, 2 to 3, 3 to 0.
const ROUND: u64 = 0x02040801_00000000;

// One-way: 0 leads to 1 and 2, 1 to 3; 4 to 3 and 5, 5 to 0.
const INFLOW: u64 = 0x060800002801_0000;

// One-way: 1 leads to 2 and 3, 2 to 4, 3 to 0 and 4, 4 to 1, and 0 and 4 to each other.
const BRANCHES: u64 = 0x100c101103_000000;

// Walks of four points: on `TREE` and `DOWN` the first passes BFS, and the second fails it in its last step but one. In `DOWN` the first two steps of
// the third go against the links.
const IN_TURN: u64 = 0x0123_0000;

const TURNED: u64 = 0x0132_0000;

const UPSTREAM: u64 = 0x3102_0000;

// On `ROUND`.
const ROUND_FROM_2: u64 = 0x2301_0000;

// Round `RING` on both sides at once, either side first; and on one side only, which fails BFS.
const RING_FROM_0: u64 = 0x015243_00;

const RING_TURNED: u64 = 0x051423_00;

const RING_ROUND: u64 = 0x012345_00;

// On `PIECES`, the point by itself first, and between the others.
const PIECES_FROM_5: u64 = 0x521034_00;

const PIECES_FROM_4: u64 = 0x435102_00;

// On `MESH`. In the first the earliest neighbour of 4 is neither the latest nor the one with the smallest number. The last fails LexBFS, MNS and MCS.
const MESH_FROM_0: u64 = 0x023145_00;

const MESH_FROM_5: u64 = 0x543120_00;

const MESH_FROM_4: u64 = 0x451230_00;

// On `INFLOW`. In the first two a later piece leads back into earlier ones; the last is one piece.
const INFLOW_FROM_0: u64 = 0x012345_00;

const INFLOW_FROM_3: u64 = 0x302145_00;

const INFLOW_FROM_4: u64 = 0x453012_00;

// On `BRANCHES`.
const BRANCHES_FROM_0: u64 = 0x04123_000;

const BRANCHES_FROM_1: u64 = 0x12340_000;

// To each point of a plan of at most six, and to one or more that it does not have.
fn traced(mark: Mark, plan: u64, n: usize, walk: u64, k: usize, room: usize)
    requires { (n ≤ 64) × (k ≤ 64) × (room ≤ 66) }
{
    let rows = rows_of(plan);
    let places = places_of(walk);
    for vertex in 0u8..6 {
        trace(mark, &rows[..n], &places[..k], vertex, room);
    }
    trace(mark, &rows[..n], &places[..k], 255, room);
}

fn on_the_tree(mark: Mark) {
    traced(mark, TREE, 4, IN_TURN, 4, 4);
    traced(mark, TREE, 4, UPSTREAM, 4, 6);
    traced(mark, TREE, 4, UPSTREAM, 3, 5);
    traced(mark, TREE, 4, TURNED, 4, 4);
}

fn on_the_ring(mark: Mark) {
    traced(mark, RING, 6, RING_FROM_0, 6, 6);
    traced(mark, RING, 6, RING_TURNED, 6, 6);
    traced(mark, RING, 6, RING_TURNED, 5, 6);
    traced(mark, RING, 6, RING_TURNED, 1, 6);
    traced(mark, RING, 6, RING_TURNED, 0, 6);
    traced(mark, RING, 6, RING_ROUND, 2, 6);
    traced(mark, RING, 6, RING_ROUND, 6, 6);
}

fn on_pieces(mark: Mark) {
    traced(mark, PIECES, 6, PIECES_FROM_5, 6, 6);
    traced(mark, PIECES, 6, PIECES_FROM_4, 6, 6);
    traced(mark, PIECES, 6, PIECES_FROM_4, 4, 6);
}

fn on_the_mesh(mark: Mark) {
    traced(mark, MESH, 6, MESH_FROM_0, 6, 6);
    traced(mark, MESH, 6, MESH_FROM_5, 6, 6);
    traced(mark, MESH, 6, MESH_FROM_5, 3, 6);
    traced(mark, MESH, 6, MESH_FROM_4, 6, 6);
}

// On plans whose links all go both ways.
fn both_ways(mark: Mark) {
    on_the_tree(mark);
    on_the_ring(mark);
    on_pieces(mark);
    on_the_mesh(mark);
}

// On one-way plans: down a tree and against it, and round a ring.
fn one_way(mark: Mark) {
    traced(mark, DOWN, 4, IN_TURN, 4, 4);
    traced(mark, DOWN, 4, IN_TURN, 2, 4);
    traced(mark, DOWN, 4, UPSTREAM, 4, 5);
    traced(mark, DOWN, 4, TURNED, 4, 4);
    traced(mark, ROUND, 4, ROUND_FROM_2, 4, 4);
    traced(mark, ROUND, 4, ROUND_FROM_2, 3, 6);
    traced(mark, ROUND, 4, TURNED, 4, 4);
}

// And where points lead back into earlier pieces, and to earlier points.
fn leading_back(mark: Mark) {
    traced(mark, INFLOW, 6, INFLOW_FROM_0, 6, 6);
    traced(mark, INFLOW, 6, INFLOW_FROM_3, 6, 6);
    traced(mark, INFLOW, 6, INFLOW_FROM_4, 6, 6);
    traced(mark, INFLOW, 6, INFLOW_FROM_4, 5, 6);
    traced(mark, BRANCHES, 5, BRANCHES_FROM_0, 5, 5);
    traced(mark, BRANCHES, 5, BRANCHES_FROM_1, 5, 6);
    traced(mark, BRANCHES, 5, BRANCHES_FROM_1, 4, 5);
}

// On a plan of one point, or of none.
fn trace_few(mark: Mark, n: usize, k: usize, vertex: u8, room: usize)
    requires { (n ≤ 64) × (k ≤ 64) × (room ≤ 66) }
{
    let rows = rows_of(0);
    let places = places_of(0);
    trace(mark, &rows[..n], &places[..k], vertex, room);
}

// One point, placed and not, and no points at all.
fn smallest(mark: Mark) {
    trace_few(mark, 1, 1, 0, 1);
    trace_few(mark, 1, 1, 0, 3);
    trace_few(mark, 1, 1, 1, 1);
    trace_few(mark, 1, 1, 0, 0);
    trace_few(mark, 1, 0, 0, 1);
    trace_few(mark, 0, 0, 0, 0);
    trace_few(mark, 0, 0, 0, 3);
    trace_few(mark, 0, 0, 255, 0);
}

// A walk over four points, to a point that there is not, with a list that is too short.
fn wrong(mark: Mark, plan: u64, walk: u64, k: usize)
    requires { k ≤ 64 }
{
    let rows = rows_of(plan);
    let places = places_of(walk);
    trace(mark, &rows[..4], &places[..k], 77, 3);
}

// Refused by judge's own tests: each call is given everything wrong that is tried after what it is refused for. Three plans are the tree with another
// first row. Where that is 2 the tree has a link that goes one way only: refused with 5 if two-way, and if one-way with what is tried next.
fn refused_walks(mark: Mark) {
    let crowd = [1u64; 65];
    let crowded = [99u8; 66];
    trace(mark, &crowd, &crowded, 77, 64);
    wrong(mark, 0x13090102_00000000, 0x99999_000, 5);
    wrong(mark, 0x03090102_00000000, 0x99999_000, 5);
    wrong(mark, 0x02090102_00000000, 0x99999_000, 5);
    wrong(mark, TREE, 0x99999_000, 5);
    wrong(mark, TREE, 0x99999_000, 2);
    wrong(mark, TREE, 0x121_00000, 3);
}

// On the tree, where the walk 1 2 fails and 1 alone passes.
fn from_one(mark: Mark, k: usize, vertex: u8, room: usize)
    requires { (k ≤ 64) × (room ≤ 66) }
{
    let rows = rows_of(TREE);
    let places = places_of(0x12_000000);
    trace(mark, &rows[..4], &places[..k], vertex, room);
}

// Refused with 21, 22 and 10 likewise. Then with nothing wrong.
fn refused_ways(mark: Mark) {
    from_one(mark, 2, 0, 3);
    from_one(mark, 2, 4, 0);
    from_one(mark, 2, 255, 3);
    from_one(mark, 2, 2, 3);
    from_one(mark, 2, 1, 4);
    from_one(mark, 1, 2, 3);
    from_one(mark, 1, 3, 0);
    from_one(mark, 1, 4, 3);
    from_one(mark, 1, 63, 3);
    from_one(mark, 1, 64, 3);
    from_one(mark, 1, 255, 3);
    from_one(mark, 1, 1, 3);
    from_one(mark, 1, 1, 0);
    from_one(mark, 1, 1, 4);
}

fn main() {
    both_ways(Mark::TwoWay);
    both_ways(Mark::OneWay);
    one_way(Mark::OneWay);
    leading_back(Mark::OneWay);
    traced(Mark::TwoWay, BRANCHES, 5, BRANCHES_FROM_1, 5, 5);
    largest::largest();
    smallest(Mark::TwoWay);
    smallest(Mark::OneWay);
    refused_walks(Mark::TwoWay);
    refused_walks(Mark::OneWay);
    refused_ways(Mark::TwoWay);
    refused_ways(Mark::OneWay);
}
