// All small plans, two-way and one-way.
ghost use Rattle.std.specs.Prelude.{◌≤◌, length};

use crate::{listed, walks};
use searches::Mark;

// The six orders of three points, as digits (`places_of` of `notation`).
const ORDERS: [u64; 6] = [
    0x01200000, 0x02100000, 0x10200000, 0x12000000, 0x20100000, 0x21000000,
];

// The one-way plan of n points with this number: bit j, from 0 on, is the j-th of the pairs 0-1, 0-2, .., 1-0, 1-2, .., which go by their first point, then by
// the second one.
fn directed(n: usize, number: u64) -> [u64; 64]
    requires { n ≤ 3 }
{
    let mut rows = [0u64; 64];
    let mut rest = number;
    for (u, row) in rows[..n].iter_mut().enumerate() {
        let others = rest & bitset::full_below(n - 1);
        let smaller = others & bitset::full_below(u);
        *row = smaller | ((others ^ smaller) << 1);
        rest = rest >> (n - 1);
    }
    rows
}

// The first n places of each order. Where n is below 3 most of them name a point that is none.
fn judge_each(mark: Mark, rows: &[u64])
    requires { length rows.now ≤ 3 }
{
    let n = rows.len();
    for order in ORDERS {
        let walk = notation::places_of(order);
        listed::judge(mark, rows, 0, &walk[..n]);
    }
}

fn convert(mark: Mark, rows: &[u64])
    requires { length rows.now ≤ 4 }
{
    listed::to_lists(mark, rows, 1);
    listed::to_rows(mark, rows, rows.len() + 1);
}

// The two-way plans of n points with the numbers below `count`.
fn two_way(n: usize, count: u64)
    requires { n ≤ 3 }
{
    for number in 0..count {
        let rows = plans::numbered(n, number);
        convert(Mark::TwoWay, &rows[..n]);
        judge_each(Mark::TwoWay, &rows[..n]);
    }
}

// The one-way plans of n points with the numbers below `count`.
fn one_way(n: usize, count: u64)
    requires { n ≤ 3 }
{
    for number in 0..count {
        let rows = directed(n, number);
        convert(Mark::OneWay, &rows[..n]);
        judge_each(Mark::OneWay, &rows[..n]);
    }
}

// Random walks, with nothing barred and with a random set.
fn judge_some(rows: &[u64], number: u64) {
    let r = plans::next(plans::next(number ^ 0x9e3779b97f4a7c15));
    walks::judge_all(Mark::TwoWay, rows, 0, r);
    walks::judge_all(Mark::TwoWay, rows, (r >> 20) & (r >> 30) & 15, r);
}

fn two_way_of_four() {
    for number in 0..64 {
        let rows = plans::numbered(4, number);
        convert(Mark::TwoWay, &rows[..4]);
        judge_some(&rows[..4], number);
    }
}

pub fn play_all() {
    two_way(0, 1);
    two_way(1, 1);
    two_way(2, 2);
    two_way(3, 8);
    two_way_of_four();
    one_way(0, 1);
    one_way(1, 1);
    one_way(2, 4);
    one_way(3, 64);
}
