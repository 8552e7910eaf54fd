// An ordering placed again, vertex by vertex, until one was not offered.
ghost use Rattle.std.specs.Prelude.{◌≡◌, ℕ, ◌<◌, ltb, length};
ghost use Rattle.bitset.specs.Below.{first_below};
ghost use Rattle.searches.specs.Kind.{search_of};
ghost use Rattle.searches.specs.Table.{arcs_wide};
ghost use Rattle.tables.specs.Rows.{in_set};
ghost use Rattle.wide.specs.Steps.{stops, Staged, Replayable};

use crate::kept::{Graph, Labels, Sets};
use crate::place::place;
use crate::unbeaten::is_beaten;
use searches::Position;
use tables::vertex_at;

// The set of the vertices below `n`.
pub fn all_below(n: usize) -> [u64; 8]
    ensures { (length result ≡ 8) × ((v : ℕ) → v < 512 → in_set result v ≡ ltb v n) }
{
    let mut set = [0u64; 8];
    for i in 0..8 {
        set[i] = bitset::full_below(n.saturating_sub(64 * i));
    }
    set
}

// Places the first `k` vertices of `ordering`, up to the first that was not offered, and returns how many these are. Labels, running values, weights and
// sets come in as those of nothing placed, and leave as those after so many vertices.
// The list has `k` beside it, as in the definitions of the clauses: carry-on replays the front of the list that it then writes to.
pub fn replay(
    graph: &Graph,
    ordering: &[u16],
    k: usize,
    labels: &mut Labels,
    sets: &mut Sets,
) -> usize
    requires { Replayable graph.now.mark graph.now.table.now graph.now.n ordering.now k labels.old.words labels.old.smallest labels.old.largest labels.old.weights
        sets.old.placed sets.old.free sets.old.reached }
    ensures count { result ≡ first_below k (stops (search_of labels.old.kind.0) (arcs_wide 8 graph.now.table.now) graph.now.n ordering.now) }
    ensures kind { labels.new.kind ≡ labels.old.kind }
    ensures staged { Staged (search_of labels.old.kind.0) graph.now.table.now graph.now.n ordering.now result
        labels.new.words labels.new.smallest labels.new.largest labels.new.weights
        sets.new.placed sets.new.free sets.new.reached }
{
    // The index is a position, at which the vertex is placed, and it is answered.
    for j in 0..k {
        let b = vertex_at(ordering, Position(j));
        if is_beaten(labels, sets, b) {
            return j;
        }
        place(graph, labels, sets, b, Position(j));
    }
    k
}
