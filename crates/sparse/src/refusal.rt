// What is refused of an ordering on adjacency lists. The tests on the graph are not those of `checks`, as 26 stands for 3, and the graph is a `Layout` only once
// 26 does not apply (`open_tests_listed`); those on the ordering are.
ghost use Rattle.std.specs.Prelude.{◌≡◌, IfOk};
ghost use Rattle.searches.specs.Answer.{first_refusal, refusal_of};
ghost use Rattle.sparse.specs.Judge.{open_tests_listed, judge_tests_listed};

use adjacency::Layout;
use adjacency::refusal::layout_refusal;
use searches::{Kind, Mark, Refusal};

// The layout that the lists are, or the first of refusals 1, 2, 26, 4, 5 and 23, in this order, that applies to kind, graph and barred set. It alters no list.
fn open_refusal<'a>(
    kind: Kind,
    mark: Mark,
    offsets: &'a [u16],
    neighbours: &'a [u8],
    barred: u64,
) -> Result<Layout<'a>, Refusal>
    ensures refusal { refusal_of result ≡ first_refusal (open_tests_listed kind.0 mark offsets.now neighbours.now barred) }
    ensures lists { IfOk result (λ layout. (layout.offsets.now ≡ offsets.now) × (layout.neighbours.now ≡ neighbours.now)) }
{
    if Kind::MCS.0 < kind.0 {
        return Err(Refusal::UnknownKind);
    }
    let layout = layout_refusal(mark, offsets, neighbours)?;
    if bitset::any_from(barred, layout.vertex_count()) {
        return Err(Refusal::BarredOutOfRange);
    }
    Ok(layout)
}

// The layout that the lists are, or the first of refusals 1, 2, 26, 4, 5, 23, 6, 8, 9 and 24, in this order, that applies to `ordering` on this graph. It
// alters no list.
pub fn judge_refusal<'a>(
    kind: Kind,
    mark: Mark,
    offsets: &'a [u16],
    neighbours: &'a [u8],
    barred: u64,
    ordering: &[u8],
) -> Result<Layout<'a>, Refusal>
    ensures refusal { refusal_of result ≡ first_refusal (judge_tests_listed kind.0 mark offsets.now neighbours.now barred ordering.now) }
    ensures lists { IfOk result (λ layout. (layout.offsets.now ≡ offsets.now) × (layout.neighbours.now ≡ neighbours.now)) }
{
    let layout = open_refusal(kind, mark, offsets, neighbours, barred)?;
    checks::ordering_refusal(layout.vertex_count(), barred, ordering)?;
    Ok(layout)
}
