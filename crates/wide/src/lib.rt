// The wide form of judge and carry-on: graphs of up to 512 vertices, as tables of eight words a row, and lists of 16-bit numbers.
#![tactic(auto)]

mod choice;
mod compare;
mod fault;
mod fill;
mod kept;
mod place;
mod replay;
mod unbeaten;

ghost use Rattle.std.specs.Prelude.{◌≡◌, cond, ◌++◌, ◌≤◌, length, drop, Ok};
ghost use Rattle.std.proofs.Math.Option.{none, some};
ghost use Rattle.searches.specs.Kind.{search_of};
ghost use Rattle.searches.specs.Ordering.{IsOrdering, IsFullOrdering};
ghost use Rattle.searches.specs.Table.{arcs_wide};
ghost use Rattle.searches.specs.Violation.{judge};
ghost use Rattle.searches.specs.CarryOn.{carry_on};
ghost use Rattle.searches.specs.Answer.{is_pass, refusal_of};
ghost use Rattle.searches.specs.Wide.{judge_wide, carry_on_wide, output_wide, wide_verdict_of};

use crate::fault::Turn;
use crate::kept::{Graph, Labels, Sets};
use searches::{Judgement, Kind, Mark, Position, Refusal, WideVertex};

// Judges an ordering: it passes, or fails with its first violation, or is refused (1 to 6, 8, 9; 5 for two-way graphs only). Alters nothing.
pub fn judge(
    kind: Kind,
    mark: Mark,
    table: &[u64],
    ordering: &[u16],
) -> Result<Judgement<WideVertex>, Refusal>
    ensures { wide_verdict_of result ≡ judge_wide 8 kind.0 mark table.now ordering.now }
{
    admission::judge_refusal(kind, mark, table, ordering)?;
    let n = table.len() / 8;
    Ok(verdict(kind, &Graph { mark, n, table }, ordering))
}

// The verdict on an ordering.
fn verdict(kind: Kind, graph: &Graph, ordering: &[u16]) -> Judgement<WideVertex>
    requires { IsOrdering graph.now.n ordering.now (length ordering.now) }
    ensures { wide_verdict_of (Ok result) ≡ judge (search_of kind.0) (arcs_wide 8 graph.now.table.now) graph.now.n ordering.now (length ordering.now) }
{
    let mut labels = Labels {
        kind,
        words: [0; 4096],
        smallest: [512; 512],
        largest: [0; 512],
        weights: [0; 512],
    };
    let mut sets = Sets {
        placed: [0; 8],
        free: replay::all_below(graph.n),
        reached: [0; 8],
    };
    let k = ordering.len();
    let j = replay::replay(graph, ordering, k, &mut labels, &mut sets);
    if j < k {
        let turn = Turn {
            graph: *graph,
            ordering,
            k,
            labels: &labels,
            free: &sets.free,
            j: Position(j),
        };
        return Judgement::Fails(turn.first_violation());
    }
    Judgement::Passes
}

// Carries on the first `k` vertices of `output`: at each further position, of the vertices then offered, the one that stands last in `tie_break` is written,
// until all vertices are placed. Refused (1 to 6, 10, 7, 8, 9, 12; 5 for two-way graphs only), `output` stays as it was; done, only the positions from `k` up
// to the number of vertices are written. `table` and `tie_break` are not altered.
// README names the call with these parameters, which are those of `carry_on_wide`.
pub fn carry_on(
    kind: Kind,
    mark: Mark,
    table: &[u64],
    tie_break: &[u16],
    output: &mut [u16],
    k: usize,
) -> Result<(), Refusal>
    ensures answer { refusal_of result ≡ carry_on_wide 8 kind.0 mark table.now tie_break.now output.old k }
    ensures output { output.new ≡ output_wide 8 kind.0 mark table.now tie_break.now output.old k }
{
    admission::list_refusal(kind, mark, table, tie_break, output, k)?;
    let n = table.len() / 8;
    extend(kind, &Graph { mark, n, table }, tie_break, output, k)
}

// Carries on a start of distinct vertices, unless it does not pass.
// `k` stands beside `output`, since what is behind the first `k` entries is written.
fn extend(
    kind: Kind,
    graph: &Graph,
    tie_break: &[u16],
    output: &mut [u16],
    k: usize,
) -> Result<(), Refusal>
    requires { IsFullOrdering graph.now.n tie_break.now × IsOrdering graph.now.n output.old k × (graph.now.n ≤ length output.old) }
    ensures answer { refusal_of result ≡ cond (is_pass (judge (search_of kind.0) (arcs_wide 8 graph.now.table.now) graph.now.n output.old k)) none (some 12) }
    ensures output { output.new
        ≡ cond (is_pass (judge (search_of kind.0) (arcs_wide 8 graph.now.table.now) graph.now.n output.old k))
        (carry_on (search_of kind.0) (arcs_wide 8 graph.now.table.now) graph.now.n tie_break.now output.old k ++ drop graph.now.n output.old) output.old }
{
    let mut labels = Labels {
        kind,
        words: [0; 4096],
        smallest: [512; 512],
        largest: [0; 512],
        weights: [0; 512],
    };
    let mut sets = Sets {
        placed: [0; 8],
        free: replay::all_below(graph.n),
        reached: [0; 8],
    };
    let start = replay::replay(graph, output, k, &mut labels, &mut sets);
    if start < k {
        return Err(Refusal::StartFails);
    }
    fill::fill(
        graph,
        tie_break,
        &mut output[k..],
        k,
        &mut labels,
        &mut sets,
    );
    Ok(())
}
