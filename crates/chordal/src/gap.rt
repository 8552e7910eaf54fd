// Gaps of an ordering: three positions of which the last is linked to both others, and these are not linked to each other.
// The loops go over numbers, since each number is a position that is asked about and answered; an iterator over the vertices would count it again.
ghost use Rattle.std.specs.Prelude.{◌≡◌, ◌≤◌, ◌<◌, length, MatchOption};
ghost use Rattle.searches.specs.Ordering.{arcs};
ghost use Rattle.chordal.specs.Descent.{joined as joined_in, first_low, first_middle, first_top};
ghost use Rattle.chordal.specs.Lists.{Ordered};

use lookup::{row_of, vertex_at};
use searches::Position;

// The positions of a gap: those at `low` and `middle` are linked to the one at `top`, and not to each other.
#[derive(Clone, Copy)]
pub struct Gap {
    pub low: Position,
    pub middle: Position,
    pub top: Position,
}

// Whether the vertices at positions `p` and `q` are linked.
pub fn joined(rows: &[u64], ordering: &[u8], p: Position, q: Position) -> bool
    requires { (p.0 < length ordering.now) × (q.0 < length ordering.now) }
    ensures { result ≡ joined_in (arcs rows.now) ordering.now p.0 q.0 }
{
    let v = vertex_at(ordering, q).0 as usize;
    bitset::contains(row_of(rows, vertex_at(ordering, p)), v)
}

// The first position below `middle` that makes a gap with it and `top`, if there is one.
fn first_low(rows: &[u64], ordering: &[u8], top: Position, middle: Position) -> Option<Position>
    requires { (top.0 < length ordering.now) × (middle.0 ≤ top.0) }
    ensures { MatchOption result (first_low (arcs rows.now) ordering.now top.0 middle.0 ≡ middle.0)
        (λ low. (low.0 ≡ first_low (arcs rows.now) ordering.now top.0 middle.0) × (low.0 < middle.0)) }
{
    let inner = joined(rows, ordering, middle, top);
    for i in 0..middle.0 {
        let low = Position(i);
        let outer = joined(rows, ordering, low, top);
        let across = joined(rows, ordering, low, middle);
        if inner & (outer & !across) {
            return Some(low);
        }
    }
    None
}

// The first position below `top` that is the middle one of a gap with it, if there is one. The vertices before each are kept as a set: those among them that
// are linked to the one at `top` must all be linked to it.
fn first_middle(rows: &[u64], ordering: &[u8], top: Position) -> Option<Position>
    requires { Ordered rows.now ordering.now × (top.0 < length rows.now) }
    ensures { MatchOption result (first_middle (arcs rows.now) ordering.now top.0 ≡ top.0)
        (λ middle. (middle.0 ≡ first_middle (arcs rows.now) ordering.now top.0) × (middle.0 < top.0)) }
{
    let last = row_of(rows, vertex_at(ordering, top));
    let mut before = 0u64;
    for j in 0..top.0 {
        let middle = Position(j);
        let vertex = vertex_at(ordering, middle);
        let v = vertex.0 as usize;
        let linked = bitset::contains(last, v);
        let filled = bitset::subset(bitset::common(last, before), row_of(rows, vertex));
        if linked & !filled {
            return Some(middle);
        }
        before = bitset::insert(before, v);
    }
    None
}

// The first gap whose last position is `top`, if there is one. Where there is a middle position, there is one below it.
fn gap_under(rows: &[u64], ordering: &[u8], top: Position) -> Option<Gap>
    requires { Ordered rows.now ordering.now × (top.0 < length rows.now) }
    ensures { MatchOption result (first_middle (arcs rows.now) ordering.now top.0 ≡ top.0)
        (λ gap. (gap.top.0 ≡ top.0)
        × (gap.middle.0 < gap.top.0)
        × (gap.middle.0 ≡ first_middle (arcs rows.now) ordering.now gap.top.0)
        × (gap.low.0 ≡ first_low (arcs rows.now) ordering.now gap.top.0 gap.middle.0)) }
{
    let middle = first_middle(rows, ordering, top)?;
    let low = first_low(rows, ordering, top, middle)?;
    Some(Gap { low, middle, top })
}

// The gap with the first position that is the last one of a gap, if there is one.
pub fn first_gap(rows: &[u64], ordering: &[u8]) -> Option<Gap>
    requires { Ordered rows.now ordering.now }
    ensures { MatchOption result (first_top (arcs rows.now) ordering.now (length rows.now) ≡ length rows.now)
        (λ gap. (gap.top.0 ≡ first_top (arcs rows.now) ordering.now (length rows.now))
        × (gap.top.0 < length rows.now)
        × (gap.middle.0 ≡ first_middle (arcs rows.now) ordering.now gap.top.0)
        × (gap.low.0 ≡ first_low (arcs rows.now) ordering.now gap.top.0 gap.middle.0)) }
{
    for l in 0..rows.len() {
        if let Some(gap) = gap_under(rows, ordering, Position(l)) {
            return Some(gap);
        }
    }
    None
}
