// The step that places one vertex more.
ghost use Rattle.std.specs.Prelude.{◌≡◌, ◌+◌};
ghost use Rattle.bitset.specs.Word.{inserted, removed};
ghost use Rattle.searches.specs.Kind.{search_of};
ghost use Rattle.labels.specs.Words.{spread_to, smallest_to, largest_to};
ghost use Rattle.steps.specs.Steps.{grown_by, Staged, Placeable};

use labels::Labels;
use lookup::graph::Graph;
use searches::{Position, Vertex};

// Which vertices are placed, which are unplaced, which the placed ones lead to, and which are offered (in MNS any).
#[derive(Clone, Copy)]
pub struct Stage {
    pub set: u64,
    pub free: u64,
    pub reached: u64,
    pub offered: u64,
}

// Places `vertex` at `position`. Labels, running values and weights change for the unplaced vertices that it leads to.
pub fn place<G: Graph>(
    graph: G,
    labels: &mut Labels,
    stage: Stage,
    vertex: Vertex,
    position: Position,
) -> Stage
    requires { Placeable (search_of labels.old.kind.0) (G.rows graph) (G.columns graph)
        labels.old.words labels.old.smallest labels.old.largest labels.old.weights stage vertex.0 position.0 }
    ensures set { result.set ≡ inserted stage.set vertex.0 }
    ensures free { result.free ≡ removed stage.free vertex.0 }
    ensures kind { labels.new.kind ≡ labels.old.kind }
    ensures words { labels.new.words ≡ spread_to (grown_by (G.rows graph) stage.free vertex.0) position.0 labels.old.words }
    ensures smallest { labels.new.smallest ≡ smallest_to (grown_by (G.rows graph) stage.free vertex.0) position.0 labels.old.smallest }
    ensures largest { labels.new.largest ≡ largest_to (grown_by (G.rows graph) stage.free vertex.0) position.0 labels.old.largest }
    ensures staged { Staged (search_of labels.old.kind.0) labels.new.words labels.new.weights result (position.0 + 1) }
{
    let number = vertex.0 as usize;
    let row = graph.row(vertex);
    let set = bitset::insert(stage.set, number);
    let free = bitset::remove(stage.free, number);
    let reached = bitset::union(stage.reached, row);
    let grown = bitset::common(row, free);
    let stay = bitset::remove(stage.offered, number);
    let early = bitset::common(stay, stage.reached);
    labels.spread(graph, set, grown, position);
    let offered = offers::leaders::offered_after(labels, free, reached, early, stay, grown);
    Stage {
        set,
        free,
        reached,
        offered,
    }
}
