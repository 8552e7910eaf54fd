// Judge on adjacency lists that the caller owns. The lists are read as they are: there are no rows but the one of the vertex at hand, a word that is put
// together when it is asked for. What is refused is decided here; the verdict is that of judge on rows, which takes a graph in whatever form it is given.
#![tactic(auto)]

mod refusal;

ghost use Rattle.std.specs.Prelude.{◌≡◌};
ghost use Rattle.searches.specs.Answer.{verdict_of};
ghost use Rattle.sparse.specs.Judge.{judge_listed};

use searches::{Judgement, Kind, Mark, Refusal, Vertex};

// Judges an ordering in the graph that the lists give, without the vertices of `barred`: it passes, or fails with its first violation, or is refused (1, 2,
// 26, 4, 5, 23, 6, 8, 9, 24; 5 for two-way graphs only). Alters nothing.
pub fn judge(
    kind: Kind,
    mark: Mark,
    offsets: &[u16],
    neighbours: &[u8],
    barred: u64,
    ordering: &[u8],
) -> Result<Judgement<Vertex>, Refusal>
    ensures { verdict_of result ≡ judge_listed kind.0 mark offsets.now neighbours.now barred ordering.now }
{
    let layout = refusal::judge_refusal(kind, mark, offsets, neighbours, barred, ordering)?;
    Ok(engine::verdict(kind, layout, barred, ordering))
}
