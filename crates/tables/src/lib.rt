// Tables of eight words a row: vertex v stands in word v div 64 at bit v mod 64. A graph is such a table, the labels of all vertices are another, with a
// row of positions for each vertex, and a set of vertices is a single row.
#![tactic(auto)]

ghost use Rattle.std.specs.Prelude.{◌≡◌, ◌&&◌, ◌+◌, ◌*◌, ◌<◌, ◌≤◌, length};
ghost use Rattle.bitset.specs.Below.{first_below, count_below, only, past_last};
ghost use Rattle.bitset.specs.Word.{member};
ghost use Rattle.searches.specs.Ordering.{at};
ghost use Rattle.searches.specs.Table.{arcs_wide};
ghost use Rattle.tables.specs.Rows.{in_set, with_bit, without_bit, EmptiedRow};

use searches::{Position, WideVertex};

// The vertex at `position`.
pub fn vertex_at(ordering: &[u16], position: Position) -> WideVertex
    requires { position.0 < length ordering.now }
    ensures { result.0 ≡ at ordering.now position.0 }
{
    let p = position.0;
    WideVertex(ordering[p])
}

// Whether the row of `u` has `v`.
pub fn contains(table: &[u64], u: usize, v: usize) -> bool
    requires { (8 * u + 8 ≤ length table.now) × (v < 512) }
    ensures { result ≡ arcs_wide 8 table.now u v }
{
    bitset::contains(table[8 * u + v / 64], v % 64)
}

// Whether `v` is in the set.
pub fn in_set(set: &[u64; 8], v: usize) -> bool
    requires { v < 512 }
    ensures { result ≡ in_set set.now v }
{
    bitset::contains(set[v / 64], v % 64)
}

// Puts `v` into the set.
pub fn include(set: &mut [u64; 8], v: usize)
    requires { v < 512 }
    ensures { set.new ≡ with_bit set.old 0 v }
{
    let i = v / 64;
    set[i] = bitset::insert(set[i], v % 64);
}

// Takes `v` out of the set.
pub fn exclude(set: &mut [u64; 8], v: usize)
    requires { v < 512 }
    ensures { set.new ≡ without_bit set.old 0 v }
{
    let i = v / 64;
    set[i] = bitset::remove(set[i], v % 64);
}

// Puts position `p` into the row of `v`.
pub fn put(labels: &mut [u64; 4096], v: usize, p: usize)
    requires { (v < 512) × (p < 512) }
    ensures { labels.new ≡ with_bit labels.old v p }
{
    let i = 8 * v + p / 64;
    labels[i] = bitset::insert(labels[i], p % 64);
}

// Empties the row of `v`.
pub fn empty_row(labels: &mut [u64; 4096], v: usize)
    requires { v < 512 }
    ensures { EmptiedRow v labels.old labels.new }
{
    for i in 0..8 {
        labels[8 * v + i] = 0;
    }
}

// The number for none is compared: 512 comes behind every position, so whose first own position is smaller is ahead, with no case for none.
// The smallest position in the row of `c` that is not in the row of `b`; 512 where there is none.
pub fn first_only(labels: &[u64; 4096], c: usize, b: usize) -> usize
    requires { (c < 512) × (b < 512) }
    ensures { result ≡ first_below 512 (only (arcs_wide 8 labels.now c) (arcs_wide 8 labels.now b)) }
{
    for i in 0..8 {
        let q = bitset::smallest(bitset::without(labels[8 * c + i], labels[8 * b + i]));
        if q < 64 {
            return 64 * i + q;
        }
    }
    512
}

// One more than the largest number of the set; 0 where it is empty, as in `past_last`.
fn past_largest(set: u64) -> usize
    ensures { result ≡ past_last 64 (member set) }
{
    64 - u64::leading_zeros(set) as usize
}

// Here, too, the number for none is compared: 0 comes before one more than any position.
// One more than the largest position in the row of `c` that is not in the row of `b`; 0 where there is none.
pub fn last_only(labels: &[u64; 4096], c: usize, b: usize) -> usize
    requires { (c < 512) × (b < 512) }
    ensures { result ≡ past_last 512 (only (arcs_wide 8 labels.now c) (arcs_wide 8 labels.now b)) }
{
    for i in (0..8).rev() {
        let q = past_largest(bitset::without(labels[8 * c + i], labels[8 * b + i]));
        if 0 < q {
            return 64 * i + q;
        }
    }
    0
}

// How many vertices of the row of `v` are in the set: ones counted in row AND mask.
pub fn count_in(table: &[u64], v: usize, set: &[u64; 8]) -> usize
    requires { 8 * v + 8 ≤ length table.now }
    ensures { result ≡ count_below 512 (λ u. arcs_wide 8 table.now v u && in_set set.now u) }
{
    let mut total = 0;
    for i in 0..8 {
        total += bitset::size(bitset::common(table[8 * v + i], set[i]));
    }
    total
}

// How many positions are in the row of `v`.
pub fn count_row(labels: &[u64; 4096], v: usize) -> usize
    requires { v < 512 }
    ensures { result ≡ count_below 512 (arcs_wide 8 labels.now v) }
{
    let mut total = 0;
    for i in 0..8 {
        total += bitset::size(labels[8 * v + i]);
    }
    total
}
