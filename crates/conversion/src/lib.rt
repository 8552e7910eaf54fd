// Conversions between the two layouts of a graph, rows and adjacency lists, on lists that the caller owns.
#![tactic(auto)]

mod lists;

ghost use Rattle.std.specs.Prelude.{◌≡◌, ◌++◌, ◌≤◌, length, drop};
ghost use Rattle.searches.specs.Answer.{refusal_of};
ghost use Rattle.adjacency.specs.Layout.{size_of, rows_listed};
ghost use Rattle.conversion.specs.Conversion.{to_lists_answer, offsets_left, neighbours_left, to_rows_answer, rows_left};

use adjacency::Layout;
use adjacency::refusal::layout_refusal;
use searches::{Kind, Mark, Refusal, Vertex};

// Writes the layout of `rows` as adjacency lists: as many offsets as there are rows and one more, and as many neighbours as there are bits. Refused (2 to
// 5, then 10 for an output list that is too short; 5 for two-way graphs only), both output lists stay as they were; done, only these entries are written.
// `rows` are not altered.
pub fn to_lists(
    mark: Mark,
    rows: &[u64],
    offsets: &mut [u16],
    neighbours: &mut [u8],
) -> Result<(), Refusal>
    ensures answer { refusal_of result ≡ to_lists_answer mark rows.now offsets.old neighbours.old }
    ensures offsets { offsets.new ≡ offsets_left mark rows.now offsets.old neighbours.old }
    ensures neighbours { neighbours.new ≡ neighbours_left mark rows.now offsets.old neighbours.old }
{
    // 2 to 5, which are the same for every kind, with nothing barred
    checks::open_refusal(Kind::GENERIC, mark, rows, 0)?;
    if offsets.len() <= rows.len() {
        return Err(Refusal::OutputTooShort);
    }
    if neighbours.len() < lists::arc_count(rows) {
        return Err(Refusal::OutputTooShort);
    }
    lists::write_lists(rows, offsets, neighbours);
    Ok(())
}

// Writes the rows of a layout.
fn write_rows(layout: Layout, rows: &mut [u64])
    requires { size_of layout.offsets.now ≤ length rows.old }
    ensures { rows.new ≡ rows_listed layout.entry.offsets.now layout.entry.neighbours.now ++ drop (size_of layout.entry.offsets.now) rows.old }
{
    let n = layout.vertex_count();
    for (u, row) in rows[..n].iter_mut().enumerate() {
        *row = layout.row_of(Vertex(u as u8));
    }
}

// Writes the rows of the layout: one less than there are offsets. Refused (2, 26, 4, 5, then 10 for an output list that is too short; 5 for two-way graphs
// only), `rows` stay as they were; done, only these rows are written. `offsets` and `neighbours` are not altered.
pub fn to_rows(
    mark: Mark,
    offsets: &[u16],
    neighbours: &[u8],
    rows: &mut [u64],
) -> Result<(), Refusal>
    ensures answer { refusal_of result ≡ to_rows_answer mark offsets.now neighbours.now rows.old }
    ensures rows { rows.new ≡ rows_left mark offsets.now neighbours.now rows.old }
{
    let layout = layout_refusal(mark, offsets, neighbours)?;
    if rows.len() < layout.vertex_count() {
        return Err(Refusal::OutputTooShort);
    }
    write_rows(layout, rows);
    Ok(())
}
