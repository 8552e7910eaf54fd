// An ordering placed again, vertex by vertex, until one was not offered.
ghost use Rattle.std.specs.Prelude.{◌≡◌, length};
ghost use Rattle.bitset.specs.Below.{first_below};
ghost use Rattle.searches.specs.Kind.{search_of};
ghost use Rattle.steps.specs.Steps.{whole, labels_after, smallest_after, largest_after, placed_after, free_after, stops_at, Staged, Replayable};

use crate::place::{Stage, place};
use labels::Labels;
use lookup::graph::Graph;
use lookup::vertex_at;
use searches::Position;

// How many vertices a replay placed, and the stage that it then reached.
#[derive(Clone, Copy)]
pub struct Replayed {
    pub count: usize,
    pub stage: Stage,
}

// Places the first `k` vertices of `ordering` up to the first that was not offered. No vertex of `barred` is ever unplaced, so nobody is compared with one.
// `labels` comes in empty and goes out with the labels, the running values and the weights of that moment.
// The list has `k` beside it, as in the definitions of the clauses: carry-on replays the first `k` entries of the list that it then writes to.
pub fn replay<G: Graph>(
    graph: G,
    barred: u64,
    ordering: &[u8],
    k: usize,
    labels: &mut Labels,
) -> Replayed
    requires { Replayable (G.rows graph) (G.columns graph) (whole (length (G.rows graph)) barred) ordering.now k
        labels.old.words labels.old.smallest labels.old.largest labels.old.weights }
    ensures count { result.count ≡ first_below k (stops_at (search_of labels.old.kind.0) (G.rows graph) (whole (length (G.rows graph)) barred) ordering.now) }
    ensures set { result.stage.set ≡ placed_after ordering.now result.count }
    ensures free { result.stage.free ≡ free_after (whole (length (G.rows graph)) barred) ordering.now result.count }
    ensures kind { labels.new.kind ≡ labels.old.kind }
    ensures words { labels.new.words ≡ labels_after (G.rows graph) (whole (length (G.rows graph)) barred) ordering.now result.count }
    ensures smallest { labels.new.smallest ≡ smallest_after (G.rows graph) (whole (length (G.rows graph)) barred) ordering.now result.count }
    ensures largest { labels.new.largest ≡ largest_after (G.rows graph) (whole (length (G.rows graph)) barred) ordering.now result.count }
    ensures staged { Staged (search_of labels.old.kind.0) labels.new.words labels.new.weights result.stage result.count }
{
    let all = bitset::without(bitset::full_below(graph.size()), barred);
    let mut stage = Stage {
        set: 0,
        free: all,
        reached: 0,
        offered: all,
    };
    // the position is what a vertex is placed at and what is answered, so an iterator over the entries would count it again
    for j in 0..k {
        let b = vertex_at(ordering, Position(j));
        if !offers::leaders::is_open(labels, stage.free, stage.reached, stage.offered, b) {
            return Replayed { count: j, stage };
        }
        stage = place(graph, labels, stage, b, Position(j));
    }
    Replayed { count: k, stage }
}
