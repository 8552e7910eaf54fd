// What is refused in the wide form: tests on lists that the caller owns, in their order, each on every row or entry before the following one.
// No function here alters a list.
#![tactic(auto)]

mod entries;
mod rows;

ghost use Rattle.std.specs.Prelude.{◌≡◌};
ghost use Rattle.searches.specs.Answer.{first_refusal, refusal_of};
ghost use Rattle.searches.specs.Wide.{open_tests_wide, judge_tests_wide, list_tests_wide};

use crate::rows::Table;
use searches::{Kind, Mark, Refusal};

// The first of refusals 1 to 5 that applies to `kind` and `table`, else `Ok`; 5 for two-way graphs only. It alters neither.
fn graph_refusal(kind: Kind, mark: Mark, table: &[u64]) -> Result<(), Refusal>
    ensures { refusal_of result ≡ first_refusal (open_tests_wide 8 kind.0 mark table.now) }
{
    if Kind::MCS.0 < kind.0 {
        return Err(Refusal::UnknownKind);
    }
    let length = table.len();
    let n = length / 8;
    if length % 8 != 0 || 512 < n {
        return Err(Refusal::TooManyVertices);
    }
    let table = Table { n, words: table };
    if table.bit_outside() {
        return Err(Refusal::ArcOutOfRange);
    }
    if table.self_loop() {
        return Err(Refusal::SelfLoop);
    }
    if let Mark::OneWay = mark {
        return Ok(());
    }
    if table.one_way() {
        return Err(Refusal::OneWayArc);
    }
    Ok(())
}

// The first of refusals 1 to 6, 8 and 9, in this order, that applies to `ordering` on this graph, else `Ok`. It alters no list.
pub fn judge_refusal(kind: Kind, mark: Mark, table: &[u64], ordering: &[u16]) -> Result<(), Refusal>
    ensures { refusal_of result ≡ first_refusal (judge_tests_wide 8 kind.0 mark table.now ordering.now) }
{
    graph_refusal(kind, mark, table)?;
    let n = table.len() / 8;
    let length = ordering.len();
    if n < length {
        return Err(Refusal::OrderingTooLong);
    }
    if entries::vertex_outside(ordering, length, n) {
        return Err(Refusal::VertexOutOfRange);
    }
    if entries::repeated(ordering, length) {
        return Err(Refusal::RepeatedVertex);
    }
    Ok(())
}

// The first of refusals 1 to 6, 10, 7, 8 and 9, in this order, that applies to carrying on the first `k` entries of `output`, else `Ok`. It alters no
// list, and any `k` may be given: what is behind the first `k` entries is no part of the start.
pub fn list_refusal(
    kind: Kind,
    mark: Mark,
    table: &[u64],
    tie_break: &[u16],
    output: &[u16],
    k: usize,
) -> Result<(), Refusal>
    ensures { refusal_of result ≡ first_refusal (list_tests_wide 8 kind.0 mark table.now tie_break.now output.now k) }
{
    graph_refusal(kind, mark, table)?;
    let n = table.len() / 8;
    if n < k {
        return Err(Refusal::OrderingTooLong);
    }
    if output.len() < n {
        return Err(Refusal::OutputTooShort);
    }
    if tie_break.len() != n {
        return Err(Refusal::TieBreakLength);
    }
    if entries::vertex_outside(output, k, n) || entries::vertex_outside(tie_break, n, n) {
        return Err(Refusal::VertexOutOfRange);
    }
    if entries::repeated(output, k) || entries::repeated(tie_break, n) {
        return Err(Refusal::RepeatedVertex);
    }
    Ok(())
}
