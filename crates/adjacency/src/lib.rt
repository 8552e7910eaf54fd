// A graph as adjacency lists that the caller owns: offsets and neighbours. The row of a vertex is put together when it is asked for; there is no
// table of them. What is refused of such lists has files of its own. No function here alters a list.
#![tactic(auto)]

pub mod arcs;
pub mod form;
mod graph;
pub mod refusal;

ghost use Rattle.std.specs.Prelude.{◌≡◌, suc, ◌<◌, length, get_or, slice_range};
ghost use Rattle.searches.specs.Ordering.{at};
ghost use Rattle.adjacency.specs.Layout.{IsLayout, size_of, rows_listed};

use searches::Vertex;

// Adjacency lists that are the layout of a graph of at most 64 vertices.
#[derive(Clone, Copy)]
pub struct Layout<'a> {
    pub offsets: &'a [u16],
    pub neighbours: &'a [u8],
    pub ghost layout: { IsLayout offsets.now neighbours.now },
}

// The offset of `u`, or for the number of vertices the end of the last list.
pub fn offset(offsets: &[u16], u: usize) -> usize
    requires { u < length offsets.now }
    ensures entry { result ≡ at offsets.now u }
    ensures fits { result < 65536 }
{
    offsets[u] as usize
}

// The number that stands at position `e`.
pub fn neighbour(neighbours: &[u8], e: usize) -> usize
    requires { e < length neighbours.now }
    ensures { result ≡ at neighbours.now e }
{
    neighbours[e] as usize
}

impl<'a> Layout<'a> {
    // How many vertices the graph has.
    pub fn vertex_count(self) -> usize
        ensures { result ≡ size_of self.entry.offsets.now }
    {
        self.offsets.len() - 1
    }

    // The neighbours of `u`, ascending.
    pub fn list_of(self, u: usize) -> &'a [u8]
        requires { u < size_of self.offsets.now }
        ensures { result.now ≡ slice_range self.entry.neighbours.now (at self.entry.offsets.now u) (at self.entry.offsets.now (suc u)) }
    {
        let begin = offset(self.offsets, u);
        let end = offset(self.offsets, u + 1);
        &self.neighbours[begin..end]
    }

    // The row of `vertex`: the set of its neighbours.
    pub fn row_of(self, vertex: Vertex) -> u64
        requires { vertex.0 < size_of self.offsets.now }
        ensures { result ≡ get_or (rows_listed self.entry.offsets.now self.entry.neighbours.now) vertex.0 0 }
    {
        let mut row = 0u64;
        for v in self.list_of(vertex.0 as usize) {
            row = bitset::insert(row, *v as usize);
        }
        row
    }
}
