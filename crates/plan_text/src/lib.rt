// A two-way graph written as text, its links one line each, ascending: as a DIMACS edge file, or as a sheet with an empty walk.
#![tactic(auto)]

mod decimal;
mod line;

ghost use Rattle.std.specs.Prelude.{◌≡◌, ◌*◌, ◌≤◌, ◌<◌, length};
ghost use Rattle.std.specs.List.{count_by, range_with_len};
ghost use Rattle.std.proofs.Math.Option.{none};
ghost use Rattle.std.proofs.lemmas.List.Edits.{sets};
ghost use Rattle.searches.specs.Answer.{two_way_tests, first_refusal};
ghost use Rattle.searches.specs.declared.Mark.{Mark};
ghost use Rattle.sheet.specs.Written.{is_link};
ghost use Rattle.plan_text.specs.Text.{plan_text, room};

// The format of a text.
#[derive(Clone, Copy)]
pub enum Format {
    Edges,
    Sheet,
}

// Whether `c` stands for a link: it is 64 u + v, u is less than v, and u leads to v.
fn is_link(rows: &[u64], c: usize) -> bool
    requires { c < 64 * length rows.now }
    ensures { result ≡ is_link rows.now c }
{
    let u = c / 64;
    let v = c % 64;
    (u < v) & bitset::contains(rows[u], v)
}

// How many numbers stand for a link.
fn link_count(rows: &[u64]) -> usize
    requires { length rows.now ≤ 64 }
    ensures { result ≡ count_by (is_link rows.now) (range_with_len 0 (64 * length rows.now)) }
{
    (0..64 * rows.len()).filter(|c| is_link(rows, *c)).count()
}

// Writes the text of a graph that is not refused to the front of `output`, and answers where it ends.
// The format is a parameter, as `plan_text`, `head_text` and `link_text` of specs/Text.antt have it; two functions would need the loop and its proof twice.
pub fn write_plan(format: Format, rows: &[u64], output: &mut [u8]) -> usize
    requires { (first_refusal (two_way_tests Mark.TwoWay rows.now) ≡ none) × (room ≤ length output.old) }
    ensures output { output.new ≡ sets output.old 0 (plan_text format rows.now) }
    ensures end { result ≡ length (plan_text format rows.now) }
{
    let mut at = line::write_head(format, rows.len(), link_count(rows), output);
    for c in 0..64 * rows.len() {
        if is_link(rows, c) {
            at = line::write_link(format, c, output, at);
        }
    }
    at
}
