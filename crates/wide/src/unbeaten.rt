// The offered vertices: those that no unplaced vertex is ahead of. Only vertices that a placed one leads to are compared: a vertex with an empty label is
// ahead of nobody.
ghost use Rattle.std.specs.Prelude.{◌≡◌, ◌&&◌, ◌+◌, ◌*◌, ◌<◌, length};
ghost use Rattle.bitset.specs.Below.{any_below};
ghost use Rattle.bitset.specs.Word.{member};
ghost use Rattle.searches.specs.Kind.{search_of};
ghost use Rattle.searches.specs.Label.{outranks};
ghost use Rattle.tables.specs.Rows.{row_of};
ghost use Rattle.wide.specs.Store.{by_weight, Covers, Bare, IsMost, beaten_in, open_in};

use crate::compare::is_ahead;
use crate::kept::{Labels, Sets};
use searches::{Kind, WideVertex};
use tables::in_set;

// Whether a vertex of `word`, which is word `i` of a set, is ahead of `b`.
fn beaten_in(labels: &Labels, word: u64, i: usize, b: WideVertex) -> bool
    requires { (i < 8) × (b.0 < 512) }
    ensures { result
        ≡ any_below 64 (λ q. member word q && outranks (search_of labels.now.kind.0) 512 (row_of labels.now.words (64 * i + q)) (row_of labels.now.words b.0)) }
{
    let below = 64 * i;
    let mut rest = word;
    while rest != 0 {
        let u = (below + bitset::smallest(rest)) as u16;
        if is_ahead(labels, WideVertex(u), b) {
            return true;
        }
        rest = bitset::without_smallest(rest);
    }
    false
}

// Whether the search compares weights alone.
pub fn by_weight(kind: Kind) -> bool
    ensures { result ≡ by_weight (search_of kind.0) }
{
    if kind == Kind::LEX_BFS {
        return false;
    }
    if kind == Kind::LEX_DFS {
        return false;
    }
    kind != Kind::MNS
}

// The greatest weight.
pub fn most_weight(weights: &[u16; 512]) -> u16
    ensures { IsMost weights.now result }
{
    let mut most = 0u16;
    for weight in weights {
        most = most.max(*weight);
    }
    most
}

// Whether a vertex of `free` is ahead of `b`. `reached` holds those of `free` whose label is not empty; no other vertex has a label. Where weights alone
// are compared, nobody outside `free` has one.
pub fn is_beaten(labels: &Labels, sets: &Sets, b: WideVertex) -> bool
    requires { Covers labels.now.words sets.now.free sets.now.reached × Bare labels.now.words sets.now.free × (b.0 < 512) }
    ensures { result ≡ beaten_in (search_of labels.now.kind.0) labels.now.words sets.now.free b.0 }
{
    if by_weight(labels.kind) {
        return labels.weights[b.0 as usize] < most_weight(&labels.weights);
    }
    for i in 0..8 {
        let front = bitset::common(sets.free[i], sets.reached[i]);
        if beaten_in(labels, front, i, b) {
            return true;
        }
    }
    false
}

// Whether `b` is offered: unplaced, with no unplaced vertex ahead of it.
pub fn is_open(labels: &Labels, sets: &Sets, b: WideVertex) -> bool
    requires { Covers labels.now.words sets.now.free sets.now.reached × Bare labels.now.words sets.now.free × (b.0 < 512) }
    ensures { result ≡ open_in (search_of labels.now.kind.0) labels.now.words sets.now.free b.0 }
{
    if !in_set(&sets.free, b.0 as usize) {
        return false;
    }
    !is_beaten(labels, sets, b)
}
