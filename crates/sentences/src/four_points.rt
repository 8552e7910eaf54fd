// Calls on four points: examples, and refused ones. Plans and walks are written as digits (`rows_of` and `places_of` of `notation`).
ghost use Rattle.std.specs.Prelude.{◌≤◌};

use crate::lines::say;
use notation::{places_of, rows_of};
use searches::Mark;

// The links 0-1, 0-2, 1-3.
const TREE: u64 = 0x06090102_00000000;

// The links 0-1, 1-2, 2-3, 0-3.
const RING: u64 = 0x0a050a05_00000000;

// On four points, with an output list of so many bytes.
fn say_on(mark: Mark, plan: u64, barred: u64, walk: u64, k: usize, size: usize)
    requires { (k ≤ 64) × (size ≤ 128) }
{
    let rows = rows_of(plan);
    let places = places_of(walk);
    say(mark, &rows[..4], barred, &places[..k], size);
}

// Walks that pass some kinds and fail others, one that fails all, and one that is empty; then no points at all.
pub fn examples(mark: Mark) {
    say_on(mark, TREE, 0, 0x01230000, 4, 96);
    say_on(mark, TREE, 0, 0x01320000, 4, 97);
    say_on(mark, TREE, 0, 0x21000000, 2, 128);
    say_on(mark, RING, 0, 0x01230000, 4, 96);
    say_on(mark, RING, 0, 0x01320000, 4, 96);
    say_on(mark, TREE, 1, 0x12000000, 2, 96);
    say_on(mark, TREE, 0, 0, 0, 96);
    say(mark, &[], 0, &[], 96);
}

// With an output list that is too short by one byte, and with one that is not.
fn say_wrong(mark: Mark, plan: u64, barred: u64, walk: u64, k: usize)
    requires { k ≤ 64 }
{
    say_on(mark, plan, barred, walk, k, 95);
    say_on(mark, plan, barred, walk, k, 96);
}

// 65 points, of which 0 is linked to itself, and each other one leads to it.
fn too_many(mark: Mark) {
    let rows = [1u64; 65];
    let mut walk = [99u8; 66];
    walk[0] = 0;
    say(mark, &rows, 1, &walk, 95);
    say(mark, &rows, 0, &walk[..1], 96);
}

// Each call has everything wrong that is tried after what it is refused for. Three plans are the tree with another first row: with 0 linked to itself, to 1 and
// to 4; to itself and to 1; to 1 alone. In each of them 2 leads to 0, and 0 not to 2: refused with 5 if two-way, and if one-way with what is tried next.
fn wrong_plans(mark: Mark) {
    say_wrong(mark, 0x13090102_00000000, 0x18, 0x99333000, 5);
    say_wrong(mark, 0x03090102_00000000, 0x18, 0x99333000, 5);
    say_wrong(mark, 0x02090102_00000000, 0x18, 0x99333000, 5);
}

// Likewise on the tree itself, with a set or a walk that is refused.
fn wrong_walks(mark: Mark) {
    say_wrong(mark, TREE, 0x18, 0x99333000, 5);
    say_wrong(mark, TREE, 0x08, 0x99333000, 5);
    say_wrong(mark, TREE, 0x08, 0x99330000, 4);
    say_wrong(mark, TREE, 0x08, 0x33000000, 2);
    say_wrong(mark, TREE, 0x08, 0x13000000, 2);
}

// The output list alone is too short, for a walk that passes every kind and for one that fails every kind.
fn short_lists(mark: Mark) {
    say_on(mark, TREE, 0, 0x13000000, 2, 95);
    say_on(mark, TREE, 0, 0x13000000, 2, 50);
    say_on(mark, TREE, 0, 0x21000000, 2, 95);
    say_on(mark, TREE, 0, 0x21000000, 2, 0);
}

pub fn play_all(mark: Mark) {
    too_many(mark);
    wrong_plans(mark);
    wrong_walks(mark);
    short_lists(mark);
}
