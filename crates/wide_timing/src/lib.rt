// The calls of the wide form for the program that times them, which is written in Rust. No part of the library: the firmware's archive has none of this.
#![tactic(auto)]

mod code;

use searches::{Kind, Mark};

fn mark_of(one_way: u8) -> Mark {
    if one_way == 0 {
        Mark::TwoWay
    } else {
        Mark::OneWay
    }
}

#[unsafe(no_mangle)]
pub extern "C" fn vezhanip_timed_wide_judge(
    kind: u8,
    one_way: u8,
    table: &[u64],
    walk: &[u16],
) -> u64 {
    code::of_judgement(wide::judge(Kind(kind), mark_of(one_way), table, walk))
}

#[unsafe(no_mangle)]
pub extern "C" fn vezhanip_timed_wide_carry_on(
    kind: u8,
    one_way: u8,
    table: &[u64],
    preference: &[u16],
    output: &mut [u16],
    k: usize,
) -> u64 {
    code::of_carrying_on(wide::carry_on(Kind(kind), mark_of(one_way), table, preference, output, k))
}
