// What is refused where only a two-way graph is accepted.
ghost use Rattle.std.specs.Prelude.{◌≡◌};
ghost use Rattle.searches.specs.Answer.{two_way_tests, first_refusal, refusal_of};

use crate::graph_refusal;
use searches::{Kind, Mark, Refusal};

// The first of refusals 2, 3, 4, 25 and 5, in this order, that applies to `rows`, else `Ok`. It does not alter them.
pub fn two_way_refusal(mark: Mark, rows: &[u64]) -> Result<(), Refusal>
    ensures { refusal_of result ≡ first_refusal (two_way_tests mark rows.now) }
{
    // 2, 3 and 4, which are the same for every kind and either mark
    graph_refusal(Kind::GENERIC, Mark::OneWay, rows)?;
    if let Mark::OneWay = mark {
        return Err(Refusal::OneWayGraph);
    }
    if lookup::rows::one_way(rows) {
        return Err(Refusal::OneWayArc);
    }
    Ok(())
}
