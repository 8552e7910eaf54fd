// Two vertices compared by what is kept of them: the one comparison of the wide form, with four answers, and the search's own condition of a violation.
ghost use Rattle.std.specs.Prelude.{◌≡◌, ◌<◌};
ghost use Rattle.bitset.specs.Below.{within};
ghost use Rattle.searches.specs.Kind.{search_of, mns};
ghost use Rattle.searches.specs.Label.{outranks};
ghost use Rattle.searches.specs.Comparison.{compared};
ghost use Rattle.searches.specs.Violation.{condition, meets};
ghost use Rattle.tables.specs.Rows.{row_of};

use crate::kept::Labels;
use labels::told_by;
use searches::{Comparison, Kind, Position, WideVertex};
use tables::{first_only, last_only};

// Whether each position in the label of `c` is in that of `b`, in MNS, where the weights say how many there are: not if `c` has more.
fn within(labels: &Labels, c: usize, b: usize) -> bool
    requires { (search_of labels.now.kind.0 ≡ mns) × (c < 512) × (b < 512) }
    ensures { result ≡ within 512 (row_of labels.now.words c) (row_of labels.now.words b) }
{
    if labels.weights[b] < labels.weights[c] {
        return false;
    }
    first_only(&labels.words, c, b) == 512
}

// How vertex `c` stands to vertex `b`. LexBFS, LexDFS and MNS compare what one label has and the other has not; the other searches compare weights.
// Inlined, so that whoever asks who is ahead pays for no more: where this is a call, a carry-on in MNS takes half as long again.
#[inline(always)]
pub fn compare(labels: &Labels, c: WideVertex, b: WideVertex) -> Comparison
    requires { (c.0 < 512) × (b.0 < 512) }
    ensures { result ≡ compared (search_of labels.now.kind.0) 512 (row_of labels.now.words c.0) (row_of labels.now.words b.0) }
{
    let kind = labels.kind;
    let first = c.0 as usize;
    let second = b.0 as usize;
    if kind == Kind::LEX_BFS {
        let ours = first_only(&labels.words, first, second);
        let theirs = first_only(&labels.words, second, first);
        return told_by(ours < theirs, theirs < ours, true);
    }
    if kind == Kind::LEX_DFS {
        let ours = last_only(&labels.words, first, second);
        let theirs = last_only(&labels.words, second, first);
        return told_by(theirs < ours, ours < theirs, true);
    }
    if kind == Kind::MNS {
        let covered = within(labels, first, second);
        let covers = within(labels, second, first);
        return told_by(covers & !covered, covered & !covers, covers);
    }
    let ours = labels.weights[first];
    let theirs = labels.weights[second];
    told_by(theirs < ours, ours < theirs, true)
}

// Whether `c` is ahead of `b`. In MNS it is not unless its label has more positions.
pub fn is_ahead(labels: &Labels, c: WideVertex, b: WideVertex) -> bool
    requires { (c.0 < 512) × (b.0 < 512) }
    ensures { result ≡ outranks (search_of labels.now.kind.0) 512 (row_of labels.now.words c.0) (row_of labels.now.words b.0) }
{
    let first = c.0 as usize;
    let second = b.0 as usize;
    if labels.kind == Kind::MNS {
        if labels.weights[first] <= labels.weights[second] {
            return false;
        }
    }
    compare(labels, c, b) == Comparison::Ahead
}

// Whether the search's own condition of a violation holds for `c` against `b`, with `a` at position `i`.
pub fn is_unexcused(labels: &Labels, i: Position, c: WideVertex, b: WideVertex) -> bool
    requires { (i.0 < 512) × (c.0 < 512) × (b.0 < 512) }
    ensures { result ≡ meets (condition (search_of labels.now.kind.0) i.0) 512 (row_of labels.now.words c.0) (row_of labels.now.words b.0) }
{
    let kind = labels.kind;
    let position = i.0;
    let first = c.0 as usize;
    let second = b.0 as usize;
    if kind == Kind::LEX_BFS {
        return position <= first_only(&labels.words, second, first);
    }
    if kind == Kind::LEX_DFS {
        return last_only(&labels.words, second, first) <= position + 1;
    }
    if kind == Kind::MNS {
        return first_only(&labels.words, second, first) == 512;
    }
    let ours = labels.weights[first] as usize;
    let theirs = labels.weights[second] as usize;
    if kind == Kind::BFS {
        return theirs <= 512 - position;
    }
    if kind == Kind::DFS {
        return theirs <= position + 1;
    }
    if kind == Kind::MCS {
        return theirs < ours;
    }
    theirs == 0
}
