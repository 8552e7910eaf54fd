// Random plans, and random points and orders of the points of a set. The numbers are the same in every run.
#![tactic(auto)]

ghost use Rattle.std.specs.Prelude.{◌<◌, ◌≤◌};

use searches::Mark;

// How many of the possible links a plan has: a quarter, half, three quarters; or three quarters of those between two even points or two odd ones.
#[derive(Clone, Copy, PartialEq, Eq)]
pub enum Links {
    Few,
    Half,
    Many,
    Pieces,
}

// The same as numbers.
pub const FEW: u8 = 0;

pub const HALF: u8 = 1;

pub const MANY: u8 = 2;

pub const PIECES: u8 = 3;

const EVEN: u64 = 0x5555555555555555;

const ODD: u64 = 0xaaaaaaaaaaaaaaaa;

// The random number after this one (xorshift), which is not 0 and does not become 0.
pub fn next(random: u64) -> u64 {
    let x = random ^ (random << 13);
    let y = x ^ (x >> 7);
    y ^ (y << 17)
}

// A random part of the set; the whole set where that part would be empty.
fn part(set: u64, random: u64) -> u64 {
    let some = set & random;
    if some != 0 { some } else { set }
}

// A point of the set: the smallest of a small part of it.
pub fn chosen(set: u64, random: u64) -> u8 {
    let half = part(set, random);
    let quarter = part(half, next(random));
    let few = part(quarter, next(next(random)));
    (u64::trailing_zeros(few) % 64) as u8
}

// The points of the set in a random order; the places behind them are 0.
pub fn shuffled(set: u64, random: u64) -> [u8; 64] {
    let mut walk = [0u8; 64];
    let mut left = set;
    let mut r = random;
    for place in walk.iter_mut() {
        r = next(r);
        let point = chosen(left, r);
        *place = point;
        left = bitset::remove(left, point as usize);
    }
    walk
}

fn random_set(links: Links, random: u64) -> u64 {
    let x = random >> 20;
    let y = random >> 40;
    match links {
        Links::Few => x & y,
        Links::Half => x,
        Links::Many | Links::Pieces => x | y,
    }
}

// The points that u may be linked to, or may lead to.
fn others(n: usize, links: Links, u: usize) -> u64 {
    let points = bitset::remove(bitset::full_below(n), u);
    if links != Links::Pieces {
        return points;
    }
    if u % 2 == 0 {
        points & EVEN
    } else {
        points & ODD
    }
}

// The rows with u linked to the points of the set that are smaller.
fn linked(rows: [u64; 64], set: u64, u: usize) -> [u64; 64]
    requires { u < 64 }
{
    let mut all = rows;
    all[u] = set & bitset::full_below(u);
    for (v, row) in all[..u].iter_mut().enumerate() {
        *row = *row | (((set >> v) & 1) << u);
    }
    all
}

// What a number stands for: three quarters where it is none of the four.
fn links_of(number: u8) -> Links {
    match number {
        FEW => Links::Few,
        HALF => Links::Half,
        PIECES => Links::Pieces,
        _ => Links::Many,
    }
}

// A plan of n points; the other rows are 0. One-way, u leads to each point that is drawn for it; two-way, it is linked to the smaller ones of them.
// `links` is one of the four numbers, and any other number stands for `MANY`.
pub fn small(mark: Mark, n: usize, links: u8, random: u64) -> [u64; 64]
    requires { n ≤ 64 }
{
    let links = links_of(links);
    let mut rows = [0u64; 64];
    let mut r = random;
    // two-way, the step for u writes the rows of smaller points as well, so it takes all rows
    for u in 0..n {
        r = next(r);
        let drawn = others(n, links, u) & random_set(links, r);
        match mark {
            Mark::TwoWay => rows = linked(rows, drawn, u),
            Mark::OneWay => rows[u] = drawn,
        }
    }
    rows
}

// The two-way plan of n points with this number: bit j, from 0 on, is the j-th of the pairs 0-1, 0-2, 1-2, 0-3, .., which go by their larger point, then by
// the smaller one.
pub fn numbered(n: usize, number: u64) -> [u64; 64]
    requires { n ≤ 64 }
{
    let mut rows = [0u64; 64];
    let mut rest = number;
    for u in 0..n {
        // assigned in one step, the check would not take the loop
        let more = linked(rows, rest, u);
        rows = more;
        rest = rest >> u;
    }
    rows
}

// A random two-way plan of n points that has no ring without a chord. Each point is linked to some of these: a point c before it, and those before c to which
// c is linked. They are all linked to one another.
pub fn grown(n: usize, random: u64) -> [u64; 64]
    requires { n ≤ 64 }
{
    let mut rows = [0u64; 64];
    let mut r = random;
    for u in 1..n {
        r = next(r);
        let c = ((r >> 20) % (u as u64)) as usize;
        let clique = bitset::insert(rows[c] & bitset::full_below(c), c);
        rows = linked(rows, clique & random_set(Links::Many, next(r)), u);
    }
    rows
}

// The set with each number one smaller or one larger, round and round: the row after this one.
fn turned(mark: Mark, set: u64) -> u64 {
    match mark {
        Mark::TwoWay => (set >> 1) | (set << 63),
        Mark::OneWay => (set << 1) | (set >> 63),
    }
}

// A plan of 64 points, from a random set with about an eighth of the numbers 0 to 63: two-way, u and v are linked if it has u + v; one-way, u leads
// to v if it has v - u. Sums and differences are taken modulo 64.
pub fn largest(mark: Mark, random: u64) -> [u64; 64] {
    let mut set = random & next(random) & next(next(random));
    let mut rows = [0u64; 64];
    for (u, row) in rows.iter_mut().enumerate() {
        *row = bitset::remove(set, u);
        set = turned(mark, set);
    }
    rows
}
