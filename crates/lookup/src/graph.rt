// A graph that the caller owns, as a search reads it: how many vertices there are, the row of a vertex, and what MCS counts. The searches do not ask in what
// form it is given.
ghost use Rattle.std.specs.Prelude.{◌≡◌, ℕ, List, length, get_or};
ghost use Rattle.bitset.specs.Below.{count_below};
ghost use Rattle.bitset.specs.Word.{member};
ghost use Rattle.lookup.specs.Columns.{tally};

use crate::row_of;
use searches::Vertex;

pub trait Graph: Copy {
    // Its rows, and these rows transposed.
    ghost rows: { Self → List ℕ };

    ghost columns: { Self → List ℕ };

    // How many vertices there are.
    fn size(self) -> usize
        ensures { result ≡ length (rows self) };

    // The row of `vertex`; no arcs behind the last row.
    fn row(self, vertex: Vertex) -> u64
        ensures { result ≡ get_or (rows self) vertex.0 0 };

    // How many of `placed` lead to `vertex`; `label` has as many positions.
    fn count(self, placed: u64, vertex: Vertex, label: u64) -> usize
        requires { tally (columns self) placed vertex.0 ≡ count_below 64 (member label) }
        ensures { result ≡ count_below 64 (member label) };
}

// A graph as rows, with its columns, its rows transposed, beside them. A two-way graph's rows are their own transpose.
#[derive(Clone, Copy)]
pub struct Rows<'a> {
    pub rows: &'a [u64],
    pub columns: &'a [u64],
}

impl<'a> Graph for Rows<'a> {
    ghost rows = { λ g. g.rows.now };

    ghost columns = { λ g. g.columns.now };

    fn size(self) -> usize {
        self.rows.len()
    }

    fn row(self, vertex: Vertex) -> u64 {
        row_of(self.rows, vertex)
    }

    // Ones in row AND placed mask. The row is that of the transposed graph, the column of `vertex`: the vertices that lead to it.
    fn count(self, placed: u64, vertex: Vertex, _label: u64) -> usize {
        bitset::size(bitset::common(row_of(self.columns, vertex), placed))
    }
}
