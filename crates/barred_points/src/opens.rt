// Opens by themselves, most of them refused. Plans are written as digits (`rows_of` of `notation`).
use crate::calls::{open, open_on};
use searches::Mark;

// The links 0-1, 1-2, 2-3, 0-3.
const RING: u64 = 0x0a050a05_00000000;

// In this ring 3 leads to 0 and 0 not to 3.
const VALVE: u64 = 0x02050a05_00000000;

// On four points.
fn on_four(kind: u8, mark: Mark, plan: u64, barred: u64) {
    open(kind, mark, notation::rows_of(plan), 4, barred);
}

// Refused with 23; the last two with 5 if two-way, and if one-way with 23 and opened.
pub fn refused(kind: u8, mark: Mark) {
    on_four(kind, mark, RING, 0x10);
    on_four(kind, mark, RING, 0x80000000_00000002);
    on_four(kind, mark, VALVE, 0x10);
    on_four(kind, mark, VALVE, 0x08);
}

// Refused with 1 to 4: first though the set has a number that is no point, then where only a barred point is wrong. At the end, no points and 64.
pub fn ordered(mark: Mark) {
    let crowd = [0u64; 65];
    let row = notation::in_a_row();
    on_four(7, mark, RING, 0x10);
    open_on(0, mark, &crowd, 0x10);
    on_four(1, mark, 0x1a050a05_00000000, 0x10);
    on_four(2, mark, 0x0b050a05_00000000, 0x10);
    on_four(7, mark, RING, 0x01);
    on_four(3, mark, 0x1a050a05_00000000, 0x01);
    on_four(4, mark, 0x0b050a05_00000000, 0x01);
    open(5, mark, row, 0, 0x01);
    open(6, mark, row, 64, 0xffffffff_ffffffff);
}
