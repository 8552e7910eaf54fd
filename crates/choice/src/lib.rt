// The choice by a tie-break: of the offered vertices, the one that stands last in it.
#![tactic(auto)]

ghost use Rattle.std.specs.Prelude.{◌≡◌, ℕ, ◌≤◌, ◌<◌, length, replicate};
ghost use Rattle.bitset.specs.Below.{last_below};
ghost use Rattle.bitset.specs.Word.{member};
ghost use Rattle.searches.specs.Kind.{search_of};
ghost use Rattle.searches.specs.Ordering.{at};
ghost use Rattle.offers.specs.Open.{Covers, Offers, chosen_in};
ghost use Rattle.choice.specs.Ranks.{ranks_below, Ranked, Named};

use labels::Labels;
use searches::{Kind, Vertex};

// The vertex at `i` of `list`; 0 behind its end.
fn entry(list: &[u8], i: usize) -> Vertex
    ensures { result.0 ≡ at list.now i }
{
    if i < list.len() {
        Vertex(list[i])
    } else {
        Vertex(0)
    }
}

// Writes where each vertex of `tie_break` stands in it; `ranks` comes in with zeros.
pub fn rank(tie_break: &[u8], ranks: &mut [u8; 64])
    requires { (length tie_break.now ≤ 64) × ((q : ℕ) → q < length tie_break.now → at tie_break.now q < 64) × (ranks.old ≡ replicate 64 0) }
    ensures { ranks.new ≡ ranks_below tie_break.now (length tie_break.now) }
{
    for (q, v) in tie_break.iter().enumerate() {
        ranks[*v as usize] = q as u8;
    }
}

// The vertex of `set` that stands last in `tie_break`; its first entry where the set is empty. `ranks` says where each vertex stands.
// No Option, here and in `choose`: `last_below` of the clauses has the first entry then.
fn last_of(tie_break: &[u8], ranks: &[u8; 64], set: u64) -> Vertex
    requires { (length tie_break.now ≤ 64) × Ranked tie_break.now ranks.now × Named tie_break.now set }
    ensures { result.0 ≡ at tie_break.now (last_below (length tie_break.now) (λ q. member set (at tie_break.now q))) }
{
    let mut most = 0u8;
    let mut rest = set;
    while rest != 0 {
        let place = ranks[bitset::smallest(rest)];
        most = if most < place { place } else { most };
        rest = bitset::without_smallest(rest);
    }
    entry(tie_break, most as usize)
}

// The offered vertex that stands last in `tie_break`; its first entry where none is offered. `offered` are the offered vertices, `ranks` says where each vertex
// stands in the tie-break, and `reached` holds every vertex whose label is not empty. In MNS the tie-break is read from its end.
pub fn choose(
    labels: &Labels,
    free: u64,
    reached: u64,
    offered: u64,
    tie_break: &[u8],
    ranks: &[u8; 64],
) -> Vertex
    requires { Offers (search_of labels.now.kind.0) labels.now.words free offered × Covers reached labels.now.words
        × (length tie_break.now ≤ 64) × Ranked tie_break.now ranks.now × Named tie_break.now free }
    ensures { result.0 ≡ chosen_in (search_of labels.now.kind.0) labels.now.words free tie_break.now }
{
    if labels.kind != Kind::MNS {
        return last_of(tie_break, ranks, offered);
    }
    for v in tie_break.iter().rev() {
        let vertex = Vertex(*v);
        if offers::leaders::is_open(labels, free, reached, offered, vertex) {
            return vertex;
        }
    }
    entry(tie_break, 0)
}
