// The choice by a tie-break: of the offered vertices, the one that stands last in it.
ghost use Rattle.std.specs.Prelude.{◌≡◌, Bool, ◌||◌, ℕ, ◌≤◌, ◌<◌, T, eqb, length};
ghost use Rattle.bitset.specs.Below.{found_below};
ghost use Rattle.searches.specs.Kind.{search_of};
ghost use Rattle.searches.specs.Ordering.{at};
ghost use Rattle.tables.specs.Rows.{in_set, in_word};
ghost use Rattle.wide.specs.Store.{chosen_in};
ghost use Rattle.wide.specs.Steps.{Ranked, Choosable};
ghost use Rattle.wide.specs.Choice.{Fronted, Leading, Leads, LastAt};

use crate::compare::compare;
use crate::kept::{Labels, Sets};
use crate::unbeaten::{by_weight, is_open, most_weight};
use searches::{Comparison, Kind, Position, WideVertex};
use tables::vertex_at;

// Writes where each vertex of `tie_break` stands in it.
pub fn rank(tie_break: &[u16], ranks: &mut [u16; 512])
    requires tie_break_len_bound { length tie_break.now ≤ 512 }
    requires by_index { (q : ℕ) → q < length tie_break.now → at tie_break.now q < 512 }
    requires by_index_2 { (p q : ℕ) → p < q → q < length tie_break.now → at tie_break.now p ≡ at tie_break.now q → ⊥ }
    ensures { Ranked tie_break.now ranks.new }
{
    for (q, vertex) in tie_break.iter().enumerate() {
        ranks[*vertex as usize] = q as u16;
    }
}

// The vertices of `free` that are in `reached`, or all of `free` where none is.
fn front_of(sets: &Sets) -> [u64; 8]
    ensures { Fronted sets.now.free sets.now.reached result }
{
    let mut front = [0u64; 8];
    let mut all = [0u64; 8];
    let mut some = false;
    for i in 0..8 {
        let word = bitset::common(sets.free[i], sets.reached[i]);
        front[i] = word;
        all[i] = sets.free[i];
        some = some | (word != 0);
    }
    if some { front } else { all }
}

// The smallest vertex of the set, where it has one.
fn first_of(set: &[u64; 8]) -> Option<usize>
    ensures { result ≡ found_below 512 (in_set set.now) }
{
    for (i, word) in set.iter().enumerate() {
        let q = bitset::smallest(*word);
        if q < 64 {
            return Some(64 * i + q);
        }
    }
    None
}

// Of two vertices the one that leads: `next` where it is ahead, or level and behind `lead` in the tie-break.
fn leader(labels: &Labels, ranks: &[u16; 512], lead: WideVertex, next: WideVertex) -> WideVertex
    requires { Leading (search_of labels.now.kind.0) labels.now.words labels.now.weights ranks.now × (lead.0 < 512) × (next.0 < 512) }
    ensures { (among : ℕ → Bool) → Leads (search_of labels.now.kind.0) labels.now.words ranks.now among lead.0
        → Leads (search_of labels.now.kind.0) labels.now.words ranks.now (λ v. among v || eqb next.0 v) result.0 }
{
    let answer = compare(labels, next, lead);
    let ahead = answer == Comparison::Ahead;
    let level = answer == Comparison::Level;
    let last = ranks[lead.0 as usize] < ranks[next.0 as usize];
    if ahead | (level & last) { next } else { lead }
}

// The one of `first` and the vertices of `word`, which is word `i` of a set, that leads.
fn lead_in(
    labels: &Labels,
    ranks: &[u16; 512],
    word: u64,
    i: usize,
    first: WideVertex,
) -> WideVertex
    requires { Leading (search_of labels.now.kind.0) labels.now.words labels.now.weights ranks.now × (i < 8) × (first.0 < 512) }
    ensures vertex { result.0 < 512 }
    ensures leads { (among : ℕ → Bool) → Leads (search_of labels.now.kind.0) labels.now.words ranks.now among first.0
        → Leads (search_of labels.now.kind.0) labels.now.words ranks.now (λ v. among v || in_word word i v) result.0 }
{
    let below = 64 * i;
    let mut lead = first;
    let mut rest = word;
    while rest != 0 {
        let number = (below + bitset::smallest(rest)) as u16;
        lead = leader(labels, ranks, lead, WideVertex(number));
        rest = bitset::without_smallest(rest);
    }
    lead
}

// The vertex of the set that leads; `first` is one of them.
fn lead_of(labels: &Labels, ranks: &[u16; 512], set: &[u64; 8], first: WideVertex) -> WideVertex
    requires { Leading (search_of labels.now.kind.0) labels.now.words labels.now.weights ranks.now × (first.0 < 512) × T (in_set set.now first.0) }
    ensures { Leads (search_of labels.now.kind.0) labels.now.words ranks.now (in_set set.now) result.0 }
{
    let mut lead = first;
    for i in 0..8 {
        lead = lead_in(labels, ranks, set[i], i, lead);
    }
    lead
}

// Of the vertices with the weight `most`, the greatest place in the tie-break.
fn last_at(weights: &[u16; 512], ranks: &[u16; 512], most: u16) -> u16
    ensures { LastAt weights.now ranks.now most result }
{
    let mut last = 0u16;
    for (v, weight) in weights.iter().enumerate() {
        let place = if *weight == most { ranks[v] } else { 0 };
        last = last.max(place);
    }
    last
}

// The offered vertex that stands last in `tie_break`, which `ranks` belongs to; there is one. Where weights alone are compared, and some
// vertex has one, it is found by two passes over the weights. In MNS the tie-break is read from its end.
pub fn choose(labels: &Labels, sets: &Sets, tie_break: &[u16], ranks: &[u16; 512]) -> WideVertex
    requires { Choosable (search_of labels.now.kind.0) labels.now.words labels.now.weights sets.now.free sets.now.reached tie_break.now ranks.now }
    ensures { result.0 ≡ chosen_in (search_of labels.now.kind.0) labels.now.words sets.now.free tie_break.now }
{
    if by_weight(labels.kind) {
        let most = most_weight(&labels.weights);
        if 0 < most {
            let q = last_at(&labels.weights, ranks, most) as usize;
            return vertex_at(tie_break, Position(q));
        }
    }
    if labels.kind != Kind::MNS {
        let front = front_of(sets);
        let first = first_of(&front).unwrap() as u16;
        return lead_of(labels, ranks, &front, WideVertex(first));
    }
    for q in (0..tie_break.len()).rev() {
        let v = vertex_at(tie_break, Position(q));
        if is_open(labels, sets, v) {
            return v;
        }
    }
    vertex_at(tie_break, Position(0))
}
