// Refused exports. Plans are written as digits (`rows_of` of `notation`).
use crate::calls;
use searches::Mark;

// Four points, with an output list that is too short, and with one that is not.
fn try_plan(mark: Mark, plan: u64) {
    let rows = notation::rows_of(plan);
    calls::export(mark, &rows[..4], 0);
    calls::export(mark, &rows[..4], 60);
}

// Each plan has everything wrong that is tried after what it is refused for. Three are the tree 0-1, 0-2, 1-3 with another first row: with 0 linked to itself,
// to 1 and to 4; to itself and to 1; to 1 alone. In each of them 2 leads to 0, and 0 not to 2: refused with 5 if two-way. The last one is the tree itself.
fn wrong_plans(mark: Mark) {
    try_plan(mark, 0x13090102_00000000);
    try_plan(mark, 0x03090102_00000000);
    try_plan(mark, 0x02090102_00000000);
    try_plan(mark, 0x06090102_00000000);
}

// 65 points, of which 0 is linked to itself, and each other one leads to it.
fn too_many(mark: Mark) {
    let rows = [1u64; 65];
    calls::export(mark, &rows, 0);
    calls::export(mark, &rows, 800);
}

pub fn play_all(mark: Mark) {
    too_many(mark);
    wrong_plans(mark);
}
