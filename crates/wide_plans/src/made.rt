// Plans of up to 513 points by rule, and orders of their points. The numbers are the same in every run.
ghost use Rattle.std.specs.Prelude.{◌≤◌, ◌<◌};

use plans::next;
use searches::Mark;

// A random number for the ordered pair u, v.
fn hash(seed: u64, u: usize, v: usize) -> u64
    requires { (u < 1024) × (v < 1024) }
{
    let pair = (u * 1024 + v + 1) as u64;
    next(next(next(seed ^ pair)))
}

// Whether u leads to v: with `chance` of 64, if both have the same remainder by `pieces`, 1 or 2. Two-way, the smaller point decides for both.
fn leads_to(mark: Mark, chance: u64, pieces: u8, seed: u64, u: usize, v: usize) -> bool
    requires { (u < 1024) × (v < 1024) }
{
    if u == v {
        return false;
    }
    if pieces == 2 && u % 2 != v % 2 {
        return false;
    }
    let drawn = match mark {
        Mark::TwoWay => {
            if u < v {
                hash(seed, u, v)
            } else {
                hash(seed, v, u)
            }
        }
        Mark::OneWay => hash(seed, u, v),
    };
    (drawn >> 33) % 64 < chance
}

// Word i of the row of u.
fn word(mark: Mark, n: usize, chance: u64, pieces: u8, seed: u64, u: usize, i: usize) -> u64
    requires { (u < 1024) × (i < 8) }
{
    let mut set = 0u64;
    for q in 0..64 {
        let v = 64 * i + q;
        if v < n {
            if leads_to(mark, chance, pieces, seed, u, v) {
                set = bitset::insert(set, q);
            }
        }
    }
    set
}

// The table of a plan of n points, and 0 behind it.
pub fn table_of(mark: Mark, n: usize, chance: u64, pieces: u8, seed: u64) -> [u64; 4105]
    requires { n ≤ 513 }
{
    let mut table = [0u64; 4105];
    for (p, entry) in table[..8 * n].iter_mut().enumerate() {
        *entry = word(mark, n, chance, pieces, seed, p / 8, p % 8);
    }
    table
}

// The table with damage: 1 sets bit n in row 0, 2 the bit of the last point in its own row, 4 sets bit 1 in row 0 and clears bit 0 in row 1; several as a sum.
pub fn damaged(table: [u64; 4105], n: usize, damage: u8) -> [u64; 4105]
    requires { (0 < n) × (n ≤ 512) }
{
    let mut all = table;
    if damage % 2 == 1 && n < 512 {
        let i = n / 64;
        all[i] = bitset::insert(all[i], n % 64);
    }
    if damage / 2 % 2 == 1 {
        let last = n - 1;
        let i = 8 * last + last / 64;
        all[i] = bitset::insert(all[i], last % 64);
    }
    if damage / 4 % 2 == 1 {
        all[0] = bitset::insert(all[0], 1);
        all[8] = bitset::remove(all[8], 0);
    }
    all
}

// The points 0 to n - 1 in the order first, first + step, first + 2 * step and so on, modulo n; behind them 0.
pub fn stepped(n: usize, first: usize, step: usize) -> [u16; 520]
    requires { (n ≤ 513) × (first < 1024) × (step < 1024) }
{
    let mut order = [0u16; 520];
    let mut reached = first;
    for point in order[..n].iter_mut() {
        *point = (reached % n) as u16;
        reached = reached + step;
    }
    order
}
