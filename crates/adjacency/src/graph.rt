// Adjacency lists as a search reads a graph. There are no columns: MCS counts the ones of the label, which are as many.
ghost use Rattle.adjacency.specs.Layout.{rows_listed, columns_of};

use crate::Layout;
use lookup::graph::Graph;
use searches::Vertex;

impl<'a> Graph for Layout<'a> {
    ghost rows = { λ layout. rows_listed layout.offsets.now layout.neighbours.now };

    ghost columns = { λ layout. columns_of (rows_listed layout.offsets.now layout.neighbours.now) };

    fn size(self) -> usize {
        self.vertex_count()
    }

    fn row(self, vertex: Vertex) -> u64 {
        if (vertex.0 as usize) < self.vertex_count() {
            self.row_of(vertex)
        } else {
            0
        }
    }

    fn count(self, _placed: u64, _vertex: Vertex, label: u64) -> usize {
        bitset::size(label)
    }
}
