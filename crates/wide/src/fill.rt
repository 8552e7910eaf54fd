// The filling step of carry-on: the choice by the tie-break, again and again.
ghost use Rattle.std.specs.Prelude.{◌≡◌, List, ◌++◌, ℕ, ◌-◌, drop};
ghost use Rattle.searches.specs.Kind.{search_of};
ghost use Rattle.searches.specs.Table.{arcs_wide};
ghost use Rattle.searches.specs.CarryOn.{carry_on};
ghost use Rattle.wide.specs.Steps.{Begun, Fillable};

use crate::choice::{choose, rank};
use crate::kept::{Graph, Labels, Sets};
use crate::place::place;
use searches::Position;

// Writes the unplaced vertices to the front of `tail`, in the order in which they carry on from position `k`, with which `tail` begins. What is kept is that
// after the first `k`.
// `k` is a position here, and no length of a list.
pub fn fill(
    graph: &Graph,
    tie_break: &[u16],
    tail: &mut [u16],
    k: usize,
    labels: &mut Labels,
    sets: &mut Sets,
)
    requires { Fillable (search_of labels.old.kind.0) graph.now.mark graph.now.table.now graph.now.n tie_break.now tail.old k
        labels.old.words labels.old.smallest labels.old.largest labels.old.weights
        sets.old.placed sets.old.free sets.old.reached }
    ensures { (w : List ℕ)
        → Begun (search_of labels.old.kind.0) graph.now.mark graph.now.table.now graph.now.n tie_break.now tail.old k
        labels.old.words labels.old.smallest labels.old.largest labels.old.weights
        sets.old.placed sets.old.free sets.old.reached w
        → tail.new
        ≡ drop k (carry_on (search_of labels.old.kind.0) (arcs_wide 8 graph.now.table.now) graph.now.n tie_break.now w k) ++ drop (graph.now.n - k) tail.old }
{
    let mut ranks = [0u16; 512];
    rank(tie_break, &mut ranks);
    let count = graph.n - k;
    // The index is a position too, at which the chosen vertex is placed.
    for i in 0..count {
        let v = choose(labels, sets, tie_break, &ranks);
        tail[i] = v.0;
        let p = k + i;
        place(graph, labels, sets, v, Position(p));
    }
}
