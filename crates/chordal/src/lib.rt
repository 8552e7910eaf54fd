// Whether a two-way graph is chordal, with an elimination order or a chordless cycle to show for it. On lists that the caller owns, for every graph, mark and
// output list there can be.
#![tactic(auto)]

mod cycle;
mod gap;
mod order;

ghost use Rattle.std.specs.Prelude.{◌≡◌, ◌≤◌, length};
ghost use Rattle.std.proofs.Math.Option.{none};
ghost use Rattle.searches.specs.Ordering.{arcs};
ghost use Rattle.searches.specs.Answer.{first_refusal, refusal_of};
ghost use Rattle.chordal.specs.Lists.{Ordered};
ghost use Rattle.chordal.specs.Answer.{chordal_tests, refusal_in, Shown, answer_of};

use searches::{Mark, Refusal};

// What asking whether a graph is chordal answers where it is not refused: that it is, or that it is not, with the length of the cycle that was written.
#[derive(Clone, Copy)]
pub enum Chordality {
    Chordal,
    Cycle(usize),
}

// Whether no four or more vertices form a cycle without a chord. If so, an elimination order of all vertices is written to the front of `output`: the later
// neighbours of each are linked to one another. If not, such a cycle is written, in its order, and its length is answered. What stands behind them stays.
// Everything else is refused (2, 3, 4, 25, 5, 10), and then `output` stays as it was. `rows` are not altered.
pub fn decide(mark: Mark, rows: &[u64], output: &mut [u8]) -> Result<Chordality, Refusal>
    ensures answer { refusal_in (answer_of result) ≡ first_refusal (chordal_tests mark rows.now (length output.old)) }
    ensures output { Shown (arcs rows.now) (length rows.now) output.old (answer_of result) output.new }
{
    chordal_refusal(mark, rows, output.len())?;
    let mut ordering = [0u8; 64];
    order::write_order(rows, &mut ordering);
    Ok(answer_from(rows, &ordering, output))
}

// The first of refusals 2, 3, 4, 25, 5 and 10 that applies, else `Ok`. The output list has `room` bytes.
fn chordal_refusal(mark: Mark, rows: &[u64], room: usize) -> Result<(), Refusal>
    ensures { refusal_of result ≡ first_refusal (chordal_tests mark rows.now room) }
{
    checks::two_way::two_way_refusal(mark, rows)?;
    if room < rows.len() {
        return Err(Refusal::OutputTooShort);
    }
    Ok(())
}

// Decides by a LexDFS ordering: without a gap its vertices are an elimination order from the last to the first, and from a gap a cycle is found.
fn answer_from(rows: &[u64], ordering: &[u8], output: &mut [u8]) -> Chordality
    requires { Ordered rows.now ordering.now × (length rows.now ≤ length output.old) }
    ensures { Shown (arcs rows.now) (length rows.now) output.old (answer_of (Ok result)) output.new }
{
    let Some(gap) = gap::first_gap(rows, ordering) else {
        order::write_turned(ordering, rows.len(), output);
        return Chordality::Chordal;
    };
    Chordality::Cycle(cycle::write_cycle(rows, ordering, gap, output))
}
