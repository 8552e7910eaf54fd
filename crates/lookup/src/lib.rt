// Lists that the caller owns, read: what stands at a position of an ordering, which is the one way from a position to a vertex, and the row of a vertex.
// Tests on rows and entries, and the columns of a graph, have files of their own. No function here alters a list that it reads.
#![tactic(auto)]

pub mod behind;
pub mod columns;
pub mod entries;
pub mod graph;
pub mod rows;

ghost use Rattle.std.specs.Prelude.{◌≡◌, ◌<◌, length, get_or};
ghost use Rattle.searches.specs.Ordering.{at};

use searches::{Position, Vertex};

// The vertex at `position`.
pub fn vertex_at(ordering: &[u8], position: Position) -> Vertex
    requires { position.0 < length ordering.now }
    ensures { result.0 ≡ at ordering.now position.0 }
{
    let p = position.0;
    Vertex(ordering[p])
}

// The row of `vertex`; no arcs behind the last row.
pub fn row_of(rows: &[u64], vertex: Vertex) -> u64
    ensures { result ≡ get_or rows.now vertex.0 0 }
{
    rows.get(vertex.0 as usize).copied().unwrap_or(0)
}
