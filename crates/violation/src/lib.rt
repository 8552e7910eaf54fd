// The first violation at a vertex that was not offered. Its third vertex is looked for by position first, behind the middle one, and then
// by number. The two loops over positions count: the position is what they answer, and an iterator over the entries would count it again.
#![tactic(auto)]

ghost use Rattle.std.specs.Prelude.{◌≡◌, ◌<◌, T, Ok, MatchOption};
ghost use Rattle.bitset.specs.Below.{any_below, first_below};
ghost use Rattle.searches.specs.Kind.{search_of};
ghost use Rattle.searches.specs.Answer.{verdict_of};
ghost use Rattle.searches.specs.declared.Judgement.{Judgement};
ghost use Rattle.labels.specs.Words.{profile_of, unexcused_in};
ghost use Rattle.violation.specs.Fault.{front_in, completes_in, behind_in, last_of, first_in, Searchable, Positioned, first_fault};

use labels::Labels;
use labels::profile::Profile;
use lookup::graph::Graph;
use lookup::vertex_at;
use searches::{Comparison, Kind, Position, Vertex, Violation};

// The vertices of `free` that `a` leads to; none where `a` leads to `b`, too.
fn front_of<G: Graph>(graph: G, free: u64, a: Vertex, b: Vertex) -> u64
    ensures { result ≡ front_in (G.rows graph) free a.0 b.0 }
{
    let row = graph.row(a);
    if bitset::contains(row, b.0 as usize) {
        0
    } else {
        bitset::common(row, free)
    }
}

// Whether nothing excuses that a vertex of profile `b` came before one of profile `c`, with `position` in the label of `c` and not of `b`. In BFS and
// DFS the weight is a running value, counted from 64 down in BFS.
fn is_unexcused(kind: Kind, position: Position, c: Profile, b: Profile) -> bool
    requires { (position.0 < 64) × (c ≡ profile_of (search_of kind.0) c.label) × (b ≡ profile_of (search_of kind.0) b.label) }
    ensures { result ≡ unexcused_in (search_of kind.0) position.0 c.label b.label }
{
    let i = position.0;
    if kind == Kind::BFS {
        return b.weight <= (64 - i) as u64;
    }
    if kind == Kind::DFS {
        return b.weight <= (i + 1) as u64;
    }
    if kind == Kind::LEX_BFS {
        return i <= bitset::smallest(bitset::without(b.label, c.label));
    }
    if kind == Kind::LEX_DFS {
        return !bitset::any_from(bitset::without(b.label, c.label), i + 1);
    }
    if kind == Kind::MNS {
        return bitset::subset(b.label, c.label);
    }
    if kind == Kind::MCS {
        return labels::compare(kind, c, b) == Comparison::Ahead;
    }
    b.label == 0
}

// Whether `c` completes a violation with the vertex at position `i` and one whose profile is `mine`: it is in the front of these two, and nothing
// excuses position `i` against its label.
fn completes(labels: &Labels, front: u64, i: Position, mine: Profile, c: Vertex) -> bool
    requires { (i.0 < 64) × (mine ≡ profile_of (search_of labels.now.kind.0) mine.label) }
    ensures { result ≡ completes_in (search_of labels.now.kind.0) labels.now.words front i.0 mine.label c.0 }
{
    let last = c.0 as usize;
    if !bitset::contains(front, last) {
        return false;
    }
    is_unexcused(labels.kind, i, labels.profile(c), mine)
}

// Of the vertices that complete a violation the one with the smallest number.
fn first_by_number(labels: &Labels, front: u64, i: Position, mine: Profile) -> Option<Vertex>
    requires { (i.0 < 64) × (mine ≡ profile_of (search_of labels.now.kind.0) mine.label) }
    ensures { MatchOption result (first_below 64 (completes_in (search_of labels.now.kind.0) labels.now.words front i.0 mine.label) ≡ 64)
        (λ c. (c.0 ≡ first_below 64 (completes_in (search_of labels.now.kind.0) labels.now.words front i.0 mine.label)) × (c.0 < 64)) }
{
    let mut rest = front;
    while rest != 0 {
        let number = bitset::smallest(rest) as u8;
        let c = Vertex(number);
        if is_unexcused(labels.kind, i, labels.profile(c), mine) {
            return Some(c);
        }
        rest = bitset::without_smallest(rest);
    }
    None
}

// The first position behind `j` and below `k` with a vertex that completes a violation.
fn first_by_position(
    ordering: &[u8],
    k: usize,
    labels: &Labels,
    front: u64,
    j: Position,
    i: Position,
    mine: Profile,
) -> Option<Position>
    requires { Positioned ordering.now k j.0 i.0 × (mine ≡ profile_of (search_of labels.now.kind.0) mine.label) }
    ensures { MatchOption result
        (first_below k (behind_in (search_of labels.now.kind.0) labels.now.words front i.0 mine.label ordering.now j.0) ≡ k)
        (λ p. (p.0 ≡ first_below k (behind_in (search_of labels.now.kind.0) labels.now.words front i.0 mine.label ordering.now j.0))
        × (p.0 < k)) }
{
    for p in j.0 + 1..k {
        let c = vertex_at(ordering, Position(p));
        if completes(labels, front, i, mine, c) {
            return Some(Position(p));
        }
    }
    None
}

// The third vertex of the first violation: by position behind `j`, and where none is found there by number.
fn first_last(
    ordering: &[u8],
    k: usize,
    labels: &Labels,
    front: u64,
    j: Position,
    i: Position,
    mine: Profile,
) -> Option<Vertex>
    requires { Positioned ordering.now k j.0 i.0 × (mine ≡ profile_of (search_of labels.now.kind.0) mine.label) }
    ensures { MatchOption result (last_of (search_of labels.now.kind.0) labels.now.words front i.0 mine.label ordering.now j.0 k ≡ 64)
        (λ c. c.0 ≡ last_of (search_of labels.now.kind.0) labels.now.words front i.0 mine.label ordering.now j.0 k) }
{
    match first_by_position(ordering, k, labels, front, j, i, mine) {
        Some(position) => Some(vertex_at(ordering, position)),
        None => first_by_number(labels, front, i, mine),
    }
}

// The first position of a vertex that starts a violation with the vertex at position `j`.
fn first_first<G: Graph>(
    graph: G,
    ordering: &[u8],
    k: usize,
    labels: &Labels,
    free: u64,
    j: Position,
) -> Option<Position>
    requires { Searchable (search_of labels.now.kind.0) (G.rows graph) ordering.now k labels.now.words labels.now.weights free j.0 }
    ensures { MatchOption result
        (first_below j.0 (first_in (search_of labels.now.kind.0) (G.rows graph) ordering.now labels.now.words free j.0 k) ≡ j.0)
        (λ i. (i.0 ≡ first_below j.0 (first_in (search_of labels.now.kind.0) (G.rows graph) ordering.now labels.now.words free j.0 k))
        × (i.0 < j.0)) }
{
    let b = vertex_at(ordering, j);
    let mine = labels.profile(b);
    for i in 0..j.0 {
        let a = vertex_at(ordering, Position(i));
        let front = front_of(graph, free, a, b);
        if first_by_number(labels, front, Position(i), mine).is_some() {
            return Some(Position(i));
        }
    }
    None
}

// The first violation with the vertex at position `j`, which has one. `labels` and `free` are those of its turn.
// `k` stands beside the list, as in `first_fault`: an entry behind the first `k` is no part of the ordering.
pub fn first_violation<G: Graph>(
    graph: G,
    ordering: &[u8],
    k: usize,
    labels: &Labels,
    free: u64,
    j: Position,
) -> Violation<Vertex>
    requires { Searchable (search_of labels.now.kind.0) (G.rows graph) ordering.now k labels.now.words labels.now.weights free j.0
        × T (any_below j.0 (first_in (search_of labels.now.kind.0) (G.rows graph) ordering.now labels.now.words free j.0 k)) }
    ensures { verdict_of (Ok (Judgement.Fails result))
        ≡ first_fault (search_of labels.now.kind.0) (G.rows graph) ordering.now labels.now.words free j.0 k }
{
    let Some(i) = first_first(graph, ordering, k, labels, free, j) else {
        unreachable!()
    };
    let a = vertex_at(ordering, i);
    let b = vertex_at(ordering, j);
    let front = front_of(graph, free, a, b);
    let mine = labels.profile(b);
    let Some(c) = first_last(ordering, k, labels, front, j, i, mine) else {
        unreachable!()
    };
    Violation { a, b, c }
}
