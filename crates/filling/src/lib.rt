// The filling step of carry-on: the choice by the tie-break, again and again.
#![tactic(auto)]

ghost use Rattle.std.specs.Prelude.{◌≡◌, ◌++◌, drop};
ghost use Rattle.bitset.specs.Below.{count_below};
ghost use Rattle.bitset.specs.Word.{member};
ghost use Rattle.searches.specs.Kind.{search_of};
ghost use Rattle.filling.specs.Fill.{fill_in, Fillable};

use labels::Labels;
use lookup::graph::Graph;
use searches::Position;
use steps::place::{Stage, place};

// Writes the unplaced vertices to the front of `tail`, in the order in which they carry on from position `k`, with which `tail` begins. `labels` and `stage`
// are those after the first `k`.
// `k` is a position here, and no length of a list.
pub fn fill<G: Graph>(
    graph: G,
    tie_break: &[u8],
    tail: &mut [u8],
    k: usize,
    labels: &mut Labels,
    stage: Stage,
)
    requires { Fillable (search_of labels.old.kind.0) (G.rows graph) (G.columns graph) tie_break.now tail.old k
        labels.old.words labels.old.smallest labels.old.largest labels.old.weights stage }
    ensures { tail.new
        ≡ fill_in (search_of labels.old.kind.0) (G.rows graph) tie_break.now (count_below 64 (member stage.free)) k labels.old.words stage.free
        ++ drop (count_below 64 (member stage.free)) tail.old }
{
    let mut ranks = [0u8; 64];
    choice::rank(tie_break, &mut ranks);
    let mut moment = stage;
    let count = bitset::size(stage.free);
    // the number gives the position, too, which an iterator over `tail` would have to count again
    for i in 0..count {
        let v = choice::choose(
            labels,
            moment.free,
            moment.reached,
            moment.offered,
            tie_break,
            &ranks,
        );
        tail[i] = v.0;
        let p = k + i;
        moment = place(graph, labels, moment, v, Position(p));
    }
}
