// The unplaced vertices and the labels after an ordering, for a caller that continues it.
ghost use Rattle.std.specs.Prelude.{◌≡◌, is_some, IfSome};
ghost use Rattle.searches.specs.Answer.{is_pass, judge_barring};
ghost use Rattle.engine.specs.Moments.{IsMoment};

use labels::Labels;
use lookup::graph::Rows;
use searches::{Kind, Mark};
use steps::replay::replay;

// The unplaced vertices after an ordering, and the labels with what is kept beside them.
#[derive(Clone, Copy)]
pub struct Moment {
    pub free: u64,
    pub labels: Labels,
}

// The moment after an ordering, for a caller that continues it; none where judge does not pass it. It is checked and replayed once. Alters nothing.
pub fn after(kind: Kind, mark: Mark, rows: &[u64], barred: u64, ordering: &[u8]) -> Option<Moment>
    ensures passes { is_some result ≡ is_pass (judge_barring kind.0 mark rows.now barred ordering.now) }
    ensures moment { IfSome result (λ moment. IsMoment kind.0 rows.now barred ordering.now moment) }
{
    checks::judge_refusal(kind, mark, rows, barred, ordering).ok()?;
    let n = rows.len();
    let k = ordering.len();
    let mut columns = [0u64; 64];
    lookup::columns::columns_of(mark, rows, &mut columns);
    let graph = Rows {
        rows,
        columns: &columns[..n],
    };
    let mut labels = Labels::empty(kind);
    let replayed = replay(graph, barred, ordering, k, &mut labels);
    if replayed.count < k {
        return None;
    }
    let free = replayed.stage.free;
    Some(Moment { free, labels })
}
