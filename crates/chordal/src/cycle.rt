// From a gap of a LexDFS ordering down to a chordless cycle.
ghost use Rattle.std.specs.Prelude.{◌≡◌, ◌++◌, ◌<◌, length, drop, MatchOption};
ghost use Rattle.searches.specs.Ordering.{arcs};
ghost use Rattle.chordal.specs.Descent.{step, next, cycle_length, cycle_of};
ghost use Rattle.chordal.specs.Lists.{Descendable};

use crate::gap::{Gap, joined};
use lookup::vertex_at;
use searches::Position;

// Whether the descent from the gap may go from position `from` to position `to`: to `low`, or above it to a vertex that is not linked to the one at `top`.
fn may_step(rows: &[u64], ordering: &[u8], gap: Gap, from: Position, to: Position) -> bool
    requires { (gap.top.0 < length ordering.now) × (from.0 < length ordering.now) × (to.0 < length ordering.now) }
    ensures { result ≡ step (arcs rows.now) ordering.now gap.low.0 gap.top.0 from.0 to.0 }
{
    let chord = joined(rows, ordering, to, gap.top);
    let here = joined(rows, ordering, to, from);
    ((to == gap.low) | ((gap.low.0 < to.0) & !chord)) & here
}

// Where the descent from the gap goes from position `from`: to the first position to which it may, if there is one. It may go to none before `low`.
fn next_stop(rows: &[u64], ordering: &[u8], gap: Gap, from: Position) -> Option<Position>
    requires { (gap.top.0 < length ordering.now) × (from.0 < length ordering.now) }
    ensures { MatchOption result (next (arcs rows.now) ordering.now gap.low.0 gap.top.0 from.0 ≡ from.0)
        (λ to. (to.0 ≡ next (arcs rows.now) ordering.now gap.low.0 gap.top.0 from.0) × (to.0 < from.0)) }
{
    // the number is a position and is answered, so an iterator would count it again
    for d in gap.low.0..from.0 {
        let to = Position(d);
        if may_step(rows, ordering, gap, from, to) {
            return Some(to);
        }
    }
    None
}

// Writes the cycle of the gap to the front of `output`, and answers its length: the vertex at `top`, the one at `middle`, and where the descent goes from
// there, until it is at `low`.
pub fn write_cycle(rows: &[u64], ordering: &[u8], gap: Gap, output: &mut [u8]) -> usize
    requires { Descendable rows.now ordering.now output.old gap.low.0 gap.middle.0 gap.top.0 }
    ensures length { result ≡ cycle_length (arcs rows.now) ordering.now gap.low.0 gap.top.0 gap.middle.0 }
    ensures output { output.new ≡ cycle_of (arcs rows.now) ordering.now gap.low.0 gap.top.0 gap.middle.0 result ++ drop result output.old }
{
    output[0] = vertex_at(ordering, gap.top).0;
    output[1] = vertex_at(ordering, gap.middle).0;
    let mut at = gap.middle;
    // counted by hand, since the number of vertices is answered
    let mut written = 2usize;
    while let Some(next) = next_stop(rows, ordering, gap, at) {
        at = next;
        output[written] = vertex_at(ordering, at).0;
        written += 1;
    }
    written
}
