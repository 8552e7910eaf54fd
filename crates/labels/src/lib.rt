// Labels kept as words, with the running values and the weights beside them: what is compared of a vertex, the comparison of two, and the step that a
// placed vertex makes. Only what is kept of unplaced vertices is changed and asked for.
#![tactic(auto)]

pub mod profile;
pub mod weight;

ghost use Rattle.std.specs.Prelude.{◌≡◌, ◌<◌, replicate};
ghost use Rattle.searches.specs.Kind.{search_of};
ghost use Rattle.searches.specs.Comparison.{told_by};
ghost use Rattle.labels.specs.Words.{Weighed, profile_of, profile_at, compared_in, spread_to, smallest_with, smallest_to, largest_to};
ghost use Rattle.labels.specs.Weights.{Consistent};

use crate::profile::{Profile, profile_of};
use crate::weight::Grown;
use lookup::graph::Graph;
use searches::{Comparison, Kind, Position, Vertex};

// The labels of the vertices in a search of `kind`, and what is kept beside them. Bit p of a vertex's word is set when the vertex at position p leads to
// it. The running values are each vertex's smallest position, 64 where it has none, and one more than its largest position, 0 where it has none. The
// weight of its label is what it is compared by in every search but MNS.
// The running values are bytes with a number for none, not Options: these would take two bytes each, and `smallest_to` and `largest_to` have the numbers.
#[derive(Clone, Copy)]
pub struct Labels {
    pub kind: Kind,
    pub words: [u64; 64],
    pub smallest: [u8; 64],
    pub largest: [u8; 64],
    pub weights: [u64; 64],
    pub ghost weighed: { Weighed (search_of kind.0) words weights },
}

// The answer of three tests: the first that holds, and where none does, neither.
pub fn told_by(ahead: bool, behind: bool, level: bool) -> Comparison
    ensures { result ≡ told_by ahead behind level }
{
    if ahead {
        return Comparison::Ahead;
    }
    if behind {
        return Comparison::Behind;
    }
    if level {
        return Comparison::Level;
    }
    Comparison::Neither
}

// How a vertex of profile `c` stands to one of profile `b`. In MNS two inclusions tell it: where none is ahead, both hold or none does. In the
// other searches the weights tell it: where none is greater, the two are level.
pub fn compare(kind: Kind, c: Profile, b: Profile) -> Comparison
    requires { (c ≡ profile_of (search_of kind.0) c.label) × (b ≡ profile_of (search_of kind.0) b.label) }
    ensures { result ≡ compared_in (search_of kind.0) c.label b.label }
{
    if kind == Kind::MNS {
        let covers = bitset::subset(b.label, c.label);
        let covered = bitset::subset(c.label, b.label);
        return told_by(covers & !covered, covered & !covers, covers);
    }
    told_by(b.weight < c.weight, c.weight < b.weight, true)
}

// A vertex's smallest position once `latest` is put into its label: the one that it had, or where it had none `latest`.
#[tactic(auto, unfolding(crate::specs::Words::smallest_with))]
pub fn smallest_with(latest: u8, kept: u8) -> u8
    ensures { result ≡ smallest_with latest kept }
{
    if kept == 64 { latest } else { kept }
}

impl Labels {
    // What is kept before anything is placed: no vertex has a position.
    pub fn empty(kind: Kind) -> Labels
        ensures kind { result.kind ≡ kind }
        ensures words { result.words ≡ replicate 64 0 }
        ensures smallest { result.smallest ≡ replicate 64 64 }
        ensures largest { result.largest ≡ replicate 64 0 }
        ensures weights { result.weights ≡ replicate 64 0 }
    {
        Labels {
            kind,
            words: [0u64; 64],
            smallest: [64u8; 64],
            largest: [0u8; 64],
            weights: [0u64; 64],
        }
    }

    // What is compared of `vertex`.
    pub fn profile(&self, vertex: Vertex) -> Profile
        requires { vertex.0 < 64 }
        ensures { result ≡ profile_at self.now.words self.now.weights vertex.0 }
    {
        profile_of(&self.words, &self.weights, vertex)
    }

    // Puts `position` into the labels of the vertices of `row`, and into their running values, and weighs their labels anew. Positions are put in ascending
    // order: the first one that a vertex gets is its smallest, the last one its largest. `placed` holds the vertices of `graph` that are placed, the one at
    // `position` too.
    #[tactic(auto, using(crate::proofs::Spreading::first_inside))]
    pub fn spread<G: Graph>(&mut self, graph: G, placed: u64, row: u64, position: Position)
        requires { (position.0 < 64)
            × Consistent (G.columns graph) placed row (spread_to row position.0 self.old.words)
            (smallest_to row position.0 self.old.smallest) (largest_to row position.0 self.old.largest) }
        ensures kind { self.new.kind ≡ self.old.kind }
        ensures words { self.new.words ≡ spread_to row position.0 self.old.words }
        ensures smallest { self.new.smallest ≡ smallest_to row position.0 self.old.smallest }
        ensures largest { self.new.largest ≡ largest_to row position.0 self.old.largest }
    {
        let kind = self.kind;
        let p = position.0;
        let latest = p as u8;
        let past = latest + 1;
        let mut rest = row;
        while rest != 0 {
            let v = bitset::smallest(rest);
            let number = v as u8;
            let first = smallest_with(latest, self.smallest[v]);
            let label = bitset::insert(self.words[v], p);
            let grown = Grown {
                label,
                smallest: first,
                largest: past,
                weight: self.weights[v],
            };
            let weight = weight::weigh(kind, graph, placed, Vertex(number), position, grown);
            self.words[v] = label;
            self.smallest[v] = first;
            self.largest[v] = past;
            self.weights[v] = weight;
            rest = bitset::without_smallest(rest);
        }
    }
}
