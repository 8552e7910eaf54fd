// Walks on the lists of a plan: random ones, and such as carry-on makes.
ghost use Rattle.std.specs.Prelude.{◌≤◌, length};

use crate::listed;
use plans::shuffled;
use searches::{Kind, Mark};

fn unbarred(n: usize, barred: u64) -> u64 {
    bitset::without(bitset::full_below(n), barred)
}

// The first k of all unbarred points, in a random order.
pub fn judge_random(mark: Mark, rows: &[u64], barred: u64, random: u64, k: usize)
    requires { k ≤ 64 }
{
    let walk = shuffled(unbarred(rows.len(), barred), random);
    listed::judge(mark, rows, barred, &walk[..k]);
}

// All unbarred points, in a random order.
pub fn judge_all(mark: Mark, rows: &[u64], barred: u64, random: u64) {
    let k = bitset::size(unbarred(rows.len(), barred));
    if k < 65 {
        judge_random(mark, rows, barred, random, k);
    }
}

// All unbarred points, in an order that passes this kind.
pub fn judge_passing(kind: u8, mark: Mark, rows: &[u64], barred: u64, random: u64)
    requires { length rows.now ≤ 64 }
{
    let n = rows.len();
    let k = bitset::size(unbarred(n, barred));
    let tie_break = shuffled(bitset::full_below(n), random);
    let mut output = [0u8; 64];
    // not refused: plan and list are valid
    let _ = engine::carry_on(
        Kind(kind),
        mark,
        rows,
        barred,
        &tie_break[..n],
        &mut output,
        0,
    );
    if k < 65 {
        listed::judge(mark, rows, barred, &output[..k]);
    }
}
