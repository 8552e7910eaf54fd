// The weight of a label: one number, so that in every search but MNS the vertex with the greater one is ahead.
ghost use Rattle.std.specs.Prelude.{◌≡◌};
ghost use Rattle.searches.specs.Kind.{search_of};
ghost use Rattle.labels.specs.Weights.{weight_of, Weighable};

use lookup::graph::Graph;
use searches::{Kind, Position, Vertex};

// What is kept of a vertex into whose label a position was just put: the label, the running values, and the weight that the label had before.
#[derive(Clone, Copy)]
pub struct Grown {
    pub label: u64,
    pub smallest: u8,
    pub largest: u8,
    pub weight: u64,
}

// The weight of the label of `vertex`, into which `position` was just put. BFS and DFS take it from the running values, in MCS the graph counts, and
// LexBFS puts the position into the weight that there was, counted from the other end: the earlier one weighs more.
pub fn weigh<G: Graph>(
    kind: Kind,
    graph: G,
    placed: u64,
    vertex: Vertex,
    position: Position,
    grown: Grown,
) -> u64
    requires { Weighable (search_of kind.0) (G.columns graph) placed vertex.0 position.0 grown.label grown.smallest grown.largest grown.weight }
    ensures { result ≡ weight_of (search_of kind.0) grown.label }
{
    let p = position.0;
    if kind == Kind::BFS {
        return 64 - grown.smallest as u64;
    }
    if kind == Kind::DFS {
        return grown.largest as u64;
    }
    if kind == Kind::LEX_BFS {
        return bitset::insert(grown.weight, 63 - p);
    }
    if kind == Kind::LEX_DFS {
        return grown.label;
    }
    if kind == Kind::MNS {
        return grown.label;
    }
    if kind == Kind::MCS {
        return graph.count(placed, vertex, grown.label) as u64;
    }
    1
}
