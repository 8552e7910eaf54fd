// Refused calls. Plans, walks and lists are written as digits (`rows_of` and `places_of` of `notation`).
ghost use Rattle.std.specs.Prelude.{◌≤◌};

use crate::calls;
use searches::Mark;
use std::array;

// Offsets and neighbours of the ring 0-1, 1-2, 2-3, 0-3.
const STEPS: u64 = 0x02468000;

const RING: u64 = 0x13021302;

// Offsets and neighbours of this ring where 0 does not lead to 3.
const VALVE_STEPS: u64 = 0x01357000;

const VALVE: u64 = 0x10213020;

// Eight offsets, a digit for each, from the first on.
fn offsets_of(digits: u64) -> [u16; 8] {
    let places = notation::places_of(digits);
    array::from_fn(|u| u16::from(places[u]))
}

// With everything wrong that is tried later, and with nothing else wrong.
fn try_on(mark: Mark, offsets: &[u16], neighbours: &[u8]) {
    let mut wrong = [9u8; 70];
    wrong[1] = 255;
    calls::to_rows(mark, offsets, neighbours, 0);
    calls::to_rows(mark, offsets, neighbours, 6);
    calls::judge(mark, offsets, neighbours, 0x80000000_00000200, &wrong);
    calls::judge(mark, offsets, neighbours, 0, &wrong[..0]);
}

// So many offsets, and so many neighbours.
fn try_lists(mark: Mark, offsets: u64, entries: usize, neighbours: u64, count: usize)
    requires { (entries ≤ 8) × (count ≤ 8) }
{
    let steps = offsets_of(offsets);
    let list = notation::places_of(neighbours);
    try_on(mark, &steps[..entries], &list[..count]);
}

// The ring with other offsets.
fn try_steps(mark: Mark, offsets: u64) {
    try_lists(mark, offsets, 5, RING, 8);
}

// The ring with other neighbours.
fn try_neighbours(mark: Mark, neighbours: u64) {
    try_lists(mark, STEPS, 5, neighbours, 8);
}

// No offset; a first one that is not 0; one that is less than the one before; a last one that is too large, and too small.
fn wrong_offsets(mark: Mark) {
    try_lists(mark, 0, 0, 0, 0);
    try_lists(mark, 0, 0, RING, 8);
    try_steps(mark, 0x12468000);
    try_lists(mark, 0x30000000, 1, RING, 3);
    try_steps(mark, 0x04268000);
    try_lists(mark, 0x01010000, 4, 0x10000000, 1);
    try_steps(mark, 0x02469000);
    try_steps(mark, 0x02467000);
    try_lists(mark, 0, 1, RING, 8);
}

// A neighbour that stands there twice; one before a smaller one; one that is no point.
fn wrong_neighbours(mark: Mark) {
    try_neighbours(mark, 0x11021302);
    try_neighbours(mark, 0x13021320);
    try_neighbours(mark, 0x14021302);
    try_neighbours(mark, 0x1302130f);
}

// A point linked to itself; this and links in one direction; this and such links on lists that are no layout; a link in one direction alone; nothing wrong.
fn wrong_links(mark: Mark) {
    try_lists(mark, 0x01000000, 2, 0, 1);
    try_neighbours(mark, 0x01021302);
    try_neighbours(mark, 0x10021302);
    try_lists(mark, VALVE_STEPS, 5, VALVE, 7);
    try_steps(mark, STEPS);
    try_lists(mark, 0, 1, 0, 0);
}

// The largest offset: as the last one, in the middle, and as the first.
fn far_offsets(mark: Mark) {
    let last = [0u16, 65535];
    let middle = [0u16, 65535, 0];
    let first = [65535u16, 65535];
    let none = [0u8; 0];
    try_on(mark, &last, &none);
    try_on(mark, &middle, &none);
    try_on(mark, &first, &none);
}

// 66 offsets: without a link; with 64 linked to itself and leading to 0; and such that they are no layout.
fn too_many_offsets(mark: Mark) {
    let mut offsets = [0u16; 66];
    let none = [0u8; 0];
    let links = [0u8, 64];
    try_on(mark, &offsets, &none);
    offsets[65] = 2;
    try_on(mark, &offsets, &links);
    try_on(mark, &offsets, &none);
}

// 65 offsets: without a link; with a neighbour that is no point; and such that they are no layout.
fn most_offsets(mark: Mark) {
    let mut offsets = [0u16; 65];
    let none = [0u8; 0];
    let outside = [64u8];
    let far_outside = [255u8];
    calls::to_rows(mark, &offsets, &none, 64);
    try_on(mark, &offsets, &none);
    offsets[64] = 1;
    try_on(mark, &offsets, &outside);
    try_on(mark, &offsets, &far_outside);
    try_on(mark, &offsets, &none);
}

// The ring, with so many places of a walk.
fn judge_ring(mark: Mark, barred: u64, walk: u64, k: usize)
    requires { k ≤ 8 }
{
    let steps = offsets_of(STEPS);
    let list = notation::places_of(RING);
    let places = notation::places_of(walk);
    calls::judge(mark, &steps[..5], &list[..8], barred, &places[..k]);
}

// Each walk has everything wrong that is tried after what it is refused for. The last three are not refused.
fn wrong_walks(mark: Mark) {
    judge_ring(mark, 0x18, 0x99333000, 5);
    judge_ring(mark, 0x08, 0x99333000, 5);
    judge_ring(mark, 0x08, 0x99330000, 4);
    judge_ring(mark, 0x08, 0x33000000, 2);
    judge_ring(mark, 0x08, 0x13000000, 2);
    judge_ring(mark, 0x08, 0x10200000, 3);
    judge_ring(mark, 0x08, 0x02000000, 2);
    judge_ring(mark, 0x0f, 0, 0);
}

// Four points, as digits, with room for so many offsets and neighbours.
fn try_rows(mark: Mark, plan: u64, offset_room: usize, neighbour_room: usize)
    requires { (offset_room ≤ 8) × (neighbour_room ≤ 10) }
{
    let rows = notation::rows_of(plan);
    calls::to_lists(mark, &rows[..4], offset_room, neighbour_room);
}

// Each plan has everything wrong that is tried after what it is refused for. Three are the tree 0-1, 0-2, 1-3 with another first row: with 0 linked to itself,
// to 1 and to 4; to itself and to 1; to 1 alone. In each of them 2 leads to 0, and 0 not to 2.
fn wrong_rows(mark: Mark) {
    let crowd = [1u64; 65];
    let mut outside = [0u64; 63];
    outside[62] = 0x80000000_00000000;
    calls::to_lists(mark, &crowd, 0, 0);
    calls::to_lists(mark, &outside, 64, 1);
    try_rows(mark, 0x13090102_00000000, 4, 0);
    try_rows(mark, 0x03090102_00000000, 4, 0);
    try_rows(mark, 0x02090102_00000000, 4, 0);
}

// The tree, with room for too few offsets, too few neighbours, too few of both, just enough and more; no points; and 64 without a link.
fn rooms(mark: Mark) {
    let tree = 0x06090102_00000000;
    let empty = [0u64; 64];
    try_rows(mark, tree, 4, 6);
    try_rows(mark, tree, 5, 5);
    try_rows(mark, tree, 4, 5);
    try_rows(mark, tree, 0, 0);
    try_rows(mark, tree, 5, 6);
    try_rows(mark, tree, 8, 10);
    calls::to_lists(mark, &empty[..0], 0, 0);
    calls::to_lists(mark, &empty[..0], 1, 0);
    calls::to_lists(mark, &empty[..0], 3, 2);
    calls::to_lists(mark, &empty, 64, 0);
    calls::to_lists(mark, &empty, 65, 0);
}

pub fn play_all(mark: Mark) {
    wrong_offsets(mark);
    wrong_neighbours(mark);
    wrong_links(mark);
    far_offsets(mark);
    too_many_offsets(mark);
    most_offsets(mark);
    wrong_walks(mark);
    wrong_rows(mark);
    rooms(mark);
}
