// The first violation with a vertex that was not offered.
ghost use Rattle.std.specs.Prelude.{◌≡◌, ◌&&◌, ◌+◌, ◌*◌, ◌<◌, T, Ok};
ghost use Rattle.std.specs.Option.{option_map};
ghost use Rattle.bitset.specs.Below.{any_below, first_below, found_below};
ghost use Rattle.bitset.specs.Word.{member};
ghost use Rattle.searches.specs.Kind.{search_of};
ghost use Rattle.searches.specs.Ordering.{at};
ghost use Rattle.searches.specs.Table.{arcs_wide};
ghost use Rattle.searches.specs.Violation.{violates, third, is_last, is_first, judge};
ghost use Rattle.searches.specs.Wide.{wide_verdict_of};
ghost use Rattle.searches.specs.declared.Judgement.{Judgement};
ghost use Rattle.wide.specs.Steps.{stops};
ghost use Rattle.wide.specs.Fault.{completes, Faulty};

use crate::compare::is_unexcused;
use crate::kept::{Graph, Labels};
use searches::{Position, Violation, WideVertex};
use tables::{contains, in_set, vertex_at};

// Whether a vertex of `word`, which is word `i` of a set, is not `b` and meets the search's own condition against it, with a vertex at `position`.
fn completes_in(labels: &Labels, word: u64, i: usize, position: Position, b: WideVertex) -> bool
    requires { (i < 8) × (position.0 < 512) × (b.0 < 512) }
    ensures { result ≡ any_below 64 (λ q. member word q && completes (search_of labels.now.kind.0) labels.now.words position.0 b.0 (64 * i + q)) }
{
    let below = 64 * i;
    let mut rest = word;
    while rest != 0 {
        let number = (below + bitset::smallest(rest)) as u16;
        let c = WideVertex(number);
        if c != b {
            if is_unexcused(labels, position, c, b) {
                return true;
            }
        }
        rest = bitset::without_smallest(rest);
    }
    false
}

// The turn of the vertex at position `j`, one of the first `k` of an ordering of vertices of the graph: the labels of the vertices and those that are
// not placed. With it begins the search for the first violation.
#[derive(Clone, Copy)]
pub struct Turn<'a> {
    pub graph: Graph<'a>,
    pub ordering: &'a [u16],
    pub k: usize,
    pub labels: &'a Labels,
    pub free: &'a [u64; 8],
    pub j: Position,
    ghost faulty: { Faulty (search_of labels.now.kind.0) graph.table.now graph.n ordering.now k labels.now.words labels.now.weights free.now j.0 },
}

impl<'a> Turn<'a> {
    // Whether the vertices at positions `i` and `j` and the vertex `c` are a violation.
    fn is_violation(&self, i: Position, c: WideVertex) -> bool
        requires { (i.0 < self.now.j.0) × (c.0 < self.now.graph.n) }
        ensures { result ≡ violates (search_of self.now.labels.now.kind.0) (arcs_wide 8 self.now.graph.table.now) self.now.ordering.now i.0 self.now.j.0 c.0 }
    {
        let a = vertex_at(self.ordering, i);
        let b = vertex_at(self.ordering, self.j);
        let third = c.0 as usize;
        if !contains(self.graph.table, a.0 as usize, third) {
            return false;
        }
        if contains(self.graph.table, a.0 as usize, b.0 as usize) {
            return false;
        }
        if !in_set(self.free, third) {
            return false;
        }
        if c == b {
            return false;
        }
        is_unexcused(self.labels, i, c, b)
    }

    // The first position behind `j` and below `k` with the third vertex of a violation with the vertices at positions `i` and `j`, where there is one.
    fn first_by_position(&self, i: Position) -> Option<Position>
        requires { i.0 < self.now.j.0 }
        ensures { option_map (λ (p : Position). p.0) result
            ≡ found_below self.now.k (λ p. violates (search_of self.now.labels.now.kind.0) (arcs_wide 8 self.now.graph.table.now) self.now.ordering.now
            i.0 self.now.j.0 (at self.now.ordering.now p)) }
    {
        // The index is a position, and it is answered.
        for p in self.j.0 + 1..self.k {
            let c = vertex_at(self.ordering, Position(p));
            if self.is_violation(i, c) {
                return Some(Position(p));
            }
        }
        None
    }

    // The first by number, where there is one.
    fn first_by_number(&self, i: Position) -> Option<WideVertex>
        requires { i.0 < self.now.j.0 }
        ensures { option_map (λ (v : WideVertex). v.0) result
            ≡ found_below self.now.graph.n (violates (search_of self.now.labels.now.kind.0) (arcs_wide 8 self.now.graph.table.now) self.now.ordering.now
            i.0 self.now.j.0) }
    {
        for v in 0..self.graph.n {
            let c = WideVertex(v as u16);
            if self.is_violation(i, c) {
                return Some(c);
            }
        }
        None
    }

    // The third vertex of the first violation with the vertices at positions `i` and `j`, which have one: by position behind `j`, and where none is found
    // there by number.
    fn first_last(&self, i: Position) -> WideVertex
        requires { (i.0 < self.now.j.0)
            × T (is_first (search_of self.now.labels.now.kind.0) (arcs_wide 8 self.now.graph.table.now) self.now.graph.n self.now.ordering.now
            self.now.k self.now.j.0 i.0) }
        ensures { result.0
            ≡ third self.now.ordering.now self.now.k (first_below (self.now.k + self.now.graph.n)
            (is_last (search_of self.now.labels.now.kind.0) (arcs_wide 8 self.now.graph.table.now) self.now.graph.n self.now.ordering.now
            self.now.k self.now.j.0 i.0)) }
    {
        if let Some(position) = self.first_by_position(i) {
            return vertex_at(self.ordering, position);
        }
        self.first_by_number(i).unwrap()
    }

    // Whether the vertex at position `i` starts a violation with the vertex at position `j`: the vertices that it leads to are tried word by word.
    fn starts(&self, i: Position) -> bool
        requires { i.0 < self.now.j.0 }
        ensures { result
            ≡ is_first (search_of self.now.labels.now.kind.0) (arcs_wide 8 self.now.graph.table.now) self.now.graph.n self.now.ordering.now
            self.now.k self.now.j.0 i.0 }
    {
        let a = vertex_at(self.ordering, i).0 as usize;
        let b = vertex_at(self.ordering, self.j);
        if contains(self.graph.table, a, b.0 as usize) {
            return false;
        }
        for word in 0..8 {
            let front = bitset::common(self.graph.table[8 * a + word], self.free[word]);
            if completes_in(self.labels, front, word, i, b) {
                return true;
            }
        }
        false
    }

    // The first position of a vertex that starts a violation with the vertex at position `j`, where there is one.
    fn first_first(&self) -> Option<Position>
        ensures { option_map (λ (p : Position). p.0) result
            ≡ found_below self.now.j.0 (is_first (search_of self.now.labels.now.kind.0) (arcs_wide 8 self.now.graph.table.now) self.now.graph.n
            self.now.ordering.now self.now.k self.now.j.0) }
    {
        for i in 0..self.j.0 {
            if self.starts(Position(i)) {
                return Some(Position(i));
            }
        }
        None
    }

    // The first violation with the vertex at position `j`, which is the first that was not offered.
    pub fn first_violation(&self) -> Violation<WideVertex>
        requires { self.now.j.0
            ≡ first_below self.now.k (stops (search_of self.now.labels.now.kind.0) (arcs_wide 8 self.now.graph.table.now) self.now.graph.n self.now.ordering.now) }
        ensures { wide_verdict_of (Ok (Judgement.Fails result))
            ≡ judge (search_of self.now.labels.now.kind.0) (arcs_wide 8 self.now.graph.table.now) self.now.graph.n self.now.ordering.now self.now.k }
    {
        let i = self.first_first().unwrap();
        let a = vertex_at(self.ordering, i);
        let b = vertex_at(self.ordering, self.j);
        let c = self.first_last(i);
        Violation { a, b, c }
    }
}
