// What is refused: tests on lists that the caller owns, in their order, each on every row or entry before the following one.
// No function here alters a list.
#![tactic(auto)]

pub mod number;
pub mod two_way;

ghost use Rattle.std.specs.Prelude.{◌≡◌, [], ◌∷◌, ◌≤◌};
ghost use Rattle.searches.specs.Answer.{open_tests, open_tests_barring, ordering_tests, judge_tests_barring, list_tests_barring, first_refusal, refusal_of};

use searches::{Kind, Mark, Refusal};

// The first of refusals 1 to 5 that applies to `kind` and `rows`, else `Ok`; 5 for two-way graphs only. It alters neither.
fn graph_refusal(kind: Kind, mark: Mark, rows: &[u64]) -> Result<(), Refusal>
    ensures { refusal_of result ≡ first_refusal (open_tests kind.0 mark rows.now) }
{
    if Kind::MCS.0 < kind.0 {
        return Err(Refusal::UnknownKind);
    }
    let n = rows.len();
    if 64 < n {
        return Err(Refusal::TooManyVertices);
    }
    let outside = lookup::rows::first_outside(rows);
    let looped = lookup::rows::first_looped(rows);
    if outside.is_some() {
        return Err(Refusal::ArcOutOfRange);
    }
    if looped.is_some() {
        return Err(Refusal::SelfLoop);
    }
    if let Mark::OneWay = mark {
        return Ok(());
    }
    if lookup::rows::one_way(rows) {
        return Err(Refusal::OneWayArc);
    }
    Ok(())
}

// The first of refusals 1 to 5 and 23 that applies to `kind`, `rows` and the set of barred vertices, else `Ok`. It alters no list.
pub fn open_refusal(kind: Kind, mark: Mark, rows: &[u64], barred: u64) -> Result<(), Refusal>
    ensures { refusal_of result ≡ first_refusal (open_tests_barring kind.0 mark rows.now barred) }
{
    graph_refusal(kind, mark, rows)?;
    if bitset::any_from(barred, rows.len()) {
        return Err(Refusal::BarredOutOfRange);
    }
    Ok(())
}

// The first of refusals 9 and 24 that applies, else `Ok`: a vertex stands twice in one list, a barred vertex is named.
fn entries_refusal(twice: bool, out_of_service: bool) -> Result<(), Refusal>
    ensures { refusal_of result ≡ first_refusal ((9, twice) ∷ (24, out_of_service) ∷ []) }
{
    if twice {
        return Err(Refusal::RepeatedVertex);
    }
    if out_of_service {
        return Err(Refusal::BarredVertex);
    }
    Ok(())
}

// The first of refusals 6, 8, 9 and 24, in this order, that applies to `ordering` on a graph of `n` vertices, in whatever form it is given, without the barred
// ones, else `Ok`. It alters no list. `n` is no length of the list.
pub fn ordering_refusal(n: usize, barred: u64, ordering: &[u8]) -> Result<(), Refusal>
    requires { n ≤ 64 }
    ensures { refusal_of result ≡ first_refusal (ordering_tests n barred ordering.now) }
{
    let length = ordering.len();
    if n < length {
        return Err(Refusal::OrderingTooLong);
    }
    if lookup::entries::vertex_outside(ordering, length, n) {
        return Err(Refusal::VertexOutOfRange);
    }
    let twice = lookup::entries::repeated(ordering, length);
    let out_of_service = lookup::entries::vertex_barred(ordering, length, barred);
    entries_refusal(twice, out_of_service)
}

// The first of refusals 1 to 5, 23, 6, 8, 9 and 24, in this order, that applies to `ordering` on this graph, else `Ok`. It alters no list.
pub fn judge_refusal(
    kind: Kind,
    mark: Mark,
    rows: &[u64],
    barred: u64,
    ordering: &[u8],
) -> Result<(), Refusal>
    ensures { refusal_of result ≡ first_refusal (judge_tests_barring kind.0 mark rows.now barred ordering.now) }
{
    open_refusal(kind, mark, rows, barred)?;
    ordering_refusal(rows.len(), barred, ordering)
}

// The first of refusals 1 to 5, 23, 6, 10, 7, 8, 9 and 24, in this order, that applies to carrying on the first `k` entries of
// `output`, else `Ok`. It alters no list, and any `k` may be given. The seven parameters are those of `list_tests_barring`, with which PROMISES names the call.
pub fn list_refusal(
    kind: Kind,
    mark: Mark,
    rows: &[u64],
    barred: u64,
    tie_break: &[u8],
    output: &[u8],
    k: usize,
) -> Result<(), Refusal>
    ensures { refusal_of result ≡ first_refusal (list_tests_barring kind.0 mark rows.now barred tie_break.now output.now k) }
{
    open_refusal(kind, mark, rows, barred)?;
    let n = rows.len();
    if n < k {
        return Err(Refusal::OrderingTooLong);
    }
    if output.len() < n {
        return Err(Refusal::OutputTooShort);
    }
    if tie_break.len() != n {
        return Err(Refusal::TieBreakLength);
    }
    if lookup::entries::vertex_outside(output, k, n)
        || lookup::entries::vertex_outside(tie_break, n, n)
    {
        return Err(Refusal::VertexOutOfRange);
    }
    let twice = lookup::entries::repeated(output, k) | lookup::entries::repeated(tie_break, n);
    let out_of_service = lookup::entries::vertex_barred(output, k, barred);
    entries_refusal(twice, out_of_service)
}
