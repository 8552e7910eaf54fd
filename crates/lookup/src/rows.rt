// Tests on the rows of a graph.
ghost use Rattle.std.specs.Prelude.{◌≡◌, false, ◌≤◌, ◌<◌, length};
ghost use Rattle.bitset.specs.Below.{any_below, found_below};
ghost use Rattle.searches.specs.Answer.{bit_outside};
ghost use Rattle.searches.specs.Answer as answer;
ghost use Rattle.lookup.specs.Row.{outside_at, loop_at, differs_in};

// The first row with a bit at or above the number of rows, where there is one.
pub fn first_outside(rows: &[u64]) -> Option<usize>
    ensures { result ≡ found_below (length rows.now) (outside_at rows.now) }
{
    let n = rows.len();
    rows.iter().position(|row| bitset::any_from(*row, n))
}

// The first vertex that stands in its own row, where there is one.
pub fn first_looped(rows: &[u64]) -> Option<usize>
    ensures { result ≡ found_below (length rows.now) (loop_at rows.now) }
{
    (0..rows.len()).find(|u| bitset::contains(rows[*u], *u))
}

// Whether a row differs from the column of the same number. All are compared, and what differs is gathered in one word.
fn differs(rows: &[u64], columns: &[u64]) -> bool
    requires { length columns.now ≡ length rows.now }
    ensures { result ≡ any_below 64 (differs_in rows.now columns.now) }
{
    let mut difference = 0u64;
    for (row, column) in rows.iter().zip(columns) {
        difference |= *row ^ *column;
    }
    difference != 0
}

// Whether a vertex has an arc to one that has none back: the rows, none of which has a bit outside, are then not their own transpose.
pub fn one_way(rows: &[u64]) -> bool
    requires { (length rows.now ≤ 64) × (bit_outside rows.now ≡ false) }
    ensures { result ≡ answer.one_way rows.now }
{
    let n = rows.len();
    let mut columns = [0u64; 64];
    bitset::transposition::write_columns(rows, &mut columns);
    differs(rows, &columns[..n])
}
