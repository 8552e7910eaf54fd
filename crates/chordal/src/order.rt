// A LexDFS ordering of a graph, and an ordering turned round.
ghost use Rattle.std.specs.Prelude.{◌≡◌, ◌++◌, ◌≤◌, length, drop};
ghost use Rattle.searches.specs.Answer.{Accepts, open_tests};
ghost use Rattle.searches.specs.declared.Mark as mark;
ghost use Rattle.searches.specs.Kind.{lex_dfs, kind_of};
ghost use Rattle.chordal.specs.Descent.{listed, numbers, turned};
ghost use Rattle.chordal.specs.Lists.{Ordered};

use lookup::vertex_at;
use searches::{Kind, Mark, Position};

// Writes the numbers 0 to 63. `write_numbers` of `conversion` writes those of a set.
fn write_numbers(list: &mut [u8; 64])
    requires { length list.old ≡ 64 }
    ensures { list.new ≡ numbers 64 }
{
    for (p, entry) in list.iter_mut().enumerate() {
        *entry = p as u8;
    }
}

// Writes a LexDFS ordering of all vertices of a valid two-way graph to the front of `ordering`: an empty walk carried on. The tie-break is the vertices by
// number; any other would do.
pub fn write_order(rows: &[u64], ordering: &mut [u8; 64])
    requires { Accepts (open_tests (kind_of lex_dfs) mark.Mark.TwoWay rows.now) × (length ordering.old ≡ 64) }
    ensures ordering { Ordered rows.now ordering.new }
    ensures length { length ordering.new ≡ 64 }
{
    let mut numbers = [0u8; 64];
    write_numbers(&mut numbers);
    let n = rows.len();
    // not refused: graph and tie-break are valid, and there is room
    let _ = engine::carry_on(
        Kind::LEX_DFS,
        Mark::TwoWay,
        rows,
        0,
        &numbers[..n],
        ordering,
        0,
    );
}

// Writes the first `n` vertices of `ordering` to the front of `output`, the last one first.
// `n` stands beside `ordering`, which is an array of 64 bytes, as there is no heap.
pub fn write_turned(ordering: &[u8], n: usize, output: &mut [u8])
    requires { (n ≤ length ordering.now) × (n ≤ length output.old) }
    ensures { output.new ≡ listed n (turned ordering.now n) ++ drop n output.old }
{
    // the number is a position, which only `vertex_at` turns into the vertex there
    for q in 0..n {
        let p = n - 1 - q;
        output[p] = vertex_at(ordering, Position(q)).0;
    }
}
