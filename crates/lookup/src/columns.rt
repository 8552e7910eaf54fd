// The columns of a graph: its rows, transposed. Column v holds the vertices that lead to v, and MCS counts in it. A two-way graph's rows are their
// own transpose.
ghost use Rattle.std.specs.Prelude.{◌≡◌, T, length, take, replicate};
ghost use Rattle.bitset.specs.Matrix.{Within};
ghost use Rattle.searches.specs.Answer.{is_two_way, BothWays};
ghost use Rattle.lookup.specs.Columns.{Transposed};

use searches::Mark;

// Writes what MCS counts in, for a caller that keeps it: a two-way graph's own rows, a one-way graph's columns. `columns` comes in empty.
pub fn columns_of(mark: Mark, rows: &[u64], columns: &mut [u64; 64])
    requires { Within rows.now × (T (is_two_way mark) → BothWays rows.now) × (columns.old ≡ replicate 64 0) }
    ensures { Transposed rows.now (take (length rows.now) columns.new) }
{
    match mark {
        Mark::TwoWay => bitset::copy::copy(rows, columns),
        Mark::OneWay => bitset::transposition::write_columns(rows, columns),
    }
}
