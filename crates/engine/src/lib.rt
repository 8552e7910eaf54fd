// Judge and carry-on on lists that the caller owns, for every kind, plan, list and number there can be.
#![tactic(auto)]

pub mod after;

ghost use Rattle.std.specs.Prelude.{◌≡◌, cond, ◌++◌, length, drop, Ok};
ghost use Rattle.std.proofs.Math.Option.{none, some};
ghost use Rattle.searches.specs.Kind.{search_of};
ghost use Rattle.searches.specs.Ordering.{arcs};
ghost use Rattle.bitset.specs.Below.{count_below};
ghost use Rattle.searches.specs.Without.{judge_without, carry_on_without};
ghost use Rattle.searches.specs.Answer.{unbarred, is_pass, judge_barring, carry_on_barring, output_barring, verdict_of, refusal_of};
ghost use Rattle.engine.specs.Lists.{Judgeable, Extendable};

use labels::Labels;
use lookup::graph::{Graph, Rows};
use searches::{Judgement, Kind, Mark, Position, Refusal, Vertex};
use steps::replay::replay;
use violation::first_violation;

// Judges an ordering in the graph without the vertices of `barred`: it passes, or fails with its first violation, or is refused (1 to 5, 23, 6, 8, 9, 24; 5 for
// two-way graphs only). Alters nothing.
pub fn judge(
    kind: Kind,
    mark: Mark,
    rows: &[u64],
    barred: u64,
    ordering: &[u8],
) -> Result<Judgement<Vertex>, Refusal>
    ensures { verdict_of result ≡ judge_barring kind.0 mark rows.now barred ordering.now }
{
    checks::judge_refusal(kind, mark, rows, barred, ordering)?;
    // the rows of a two-way graph are their own transpose
    if let Mark::TwoWay = mark {
        let graph = Rows {
            rows,
            columns: rows,
        };
        return Ok(verdict(kind, graph, barred, ordering));
    }
    let n = rows.len();
    let mut columns = [0u64; 64];
    bitset::transposition::write_columns(rows, &mut columns);
    let graph = Rows {
        rows,
        columns: &columns[..n],
    };
    Ok(verdict(kind, graph, barred, ordering))
}

// The verdict on an ordering of a graph of at most 64 vertices, in whatever form it is given, without the barred ones.
pub fn verdict<G: Graph>(kind: Kind, graph: G, barred: u64, ordering: &[u8]) -> Judgement<Vertex>
    requires { Judgeable (G.rows graph) (G.columns graph) barred ordering.now (length ordering.now) }
    ensures { verdict_of (Ok result)
        ≡ judge_without (search_of kind.0) (arcs (G.rows graph)) (length (G.rows graph)) (unbarred barred) ordering.now (length ordering.now) }
{
    let mut labels = Labels::empty(kind);
    let k = ordering.len();
    let replayed = replay(graph, barred, ordering, k, &mut labels);
    let j = replayed.count;
    let free = replayed.stage.free;
    if j < k {
        return Judgement::Fails(first_violation(graph, ordering, k, &labels, free, Position(j)));
    }
    Judgement::Passes
}

// Carries on the first `k` vertices of `output` in the graph without the vertices of `barred`: at each further position, of the vertices then offered, the
// one that stands last in `tie_break` is written, until all vertices that are not barred are placed. Refused (1 to 5, 23, 6, 10, 7, 8, 9, 24, 12; 5 for two-way
// graphs only), `output` stays as it was; done, only the positions from `k` up to the number of vertices that are not barred are written. `rows` and
// `tie_break` are not altered.
// README names the call with these seven, which are those of `carry_on_barring`; `k` says how much of `output` is the start.
pub fn carry_on(
    kind: Kind,
    mark: Mark,
    rows: &[u64],
    barred: u64,
    tie_break: &[u8],
    output: &mut [u8],
    k: usize,
) -> Result<(), Refusal>
    ensures answer { refusal_of result ≡ carry_on_barring kind.0 mark rows.now barred tie_break.now output.old k }
    ensures output { output.new ≡ output_barring kind.0 mark rows.now barred tie_break.now output.old k }
{
    checks::list_refusal(kind, mark, rows, barred, tie_break, output, k)?;
    // the rows of a two-way graph are their own transpose
    if let Mark::TwoWay = mark {
        let graph = Rows {
            rows,
            columns: rows,
        };
        return extend(kind, graph, barred, tie_break, output, k);
    }
    let n = rows.len();
    let mut columns = [0u64; 64];
    bitset::transposition::write_columns(rows, &mut columns);
    let graph = Rows {
        rows,
        columns: &columns[..n],
    };
    extend(kind, graph, barred, tie_break, output, k)
}

// Carries on a start of distinct vertices that are not barred, unless it does not pass.
// `k` stands beside `output`, since what is behind the first `k` entries is written.
fn extend<G: Graph>(
    kind: Kind,
    graph: G,
    barred: u64,
    tie_break: &[u8],
    output: &mut [u8],
    k: usize,
) -> Result<(), Refusal>
    requires { Extendable (G.rows graph) (G.columns graph) barred tie_break.now output.old k }
    ensures answer { refusal_of result ≡ cond (is_pass (judge_without (search_of kind.0) (arcs (G.rows graph)) (length (G.rows graph)) (unbarred barred) output.old k)) none (some 12) }
    ensures output { output.new
        ≡ cond (is_pass (judge_without (search_of kind.0) (arcs (G.rows graph)) (length (G.rows graph)) (unbarred barred) output.old k))
        (carry_on_without (search_of kind.0) (arcs (G.rows graph)) (length (G.rows graph)) (unbarred barred) tie_break.now output.old k
        ++ drop (count_below (length (G.rows graph)) (unbarred barred)) output.old) output.old }
{
    let mut labels = Labels::empty(kind);
    let replayed = replay(graph, barred, output, k, &mut labels);
    if replayed.count < k {
        return Err(Refusal::StartFails);
    }
    filling::fill(
        graph,
        tie_break,
        &mut output[k..],
        k,
        &mut labels,
        replayed.stage,
    );
    Ok(())
}
