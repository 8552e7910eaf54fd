// The step that places one vertex more: the labels of the unplaced vertices that it leads to get its position, and with it change their running values and
// their weights.
ghost use Rattle.std.specs.Prelude.{◌≡◌, cond, ◌&&◌, ◌+◌, ◌*◌, ◌<◌, ◌≤◌, T, eqb, length};
ghost use Rattle.bitset.specs.Below.{count_below};
ghost use Rattle.searches.specs.Kind.{search_of};
ghost use Rattle.searches.specs.Table.{arcs_wide};
ghost use Rattle.searches.specs.Answer.{is_two_way};
ghost use Rattle.tables.specs.Rows.{in_set, row_of, in_word, with_bit};
ghost use Rattle.wide.specs.Store.{weight_in, Cleared, Raisable, Raised, Placed};
ghost use Rattle.wide.specs.Steps.{Placeable};
ghost use Rattle.wide.specs.Place.{Weighable, Spreadable};

use crate::kept::{Graph, Labels, Sets};
use searches::{Kind, Mark, Position, WideVertex};
use tables::{count_in, count_row, empty_row, exclude, include, put};

// How many positions are in the label of `v`. On a two-way graph ones are counted in row AND placed mask; on a one-way graph the row holds those that `v`
// leads to, and the ones of the label itself are counted.
fn tally(graph: &Graph, placed: &[u64; 8], words: &[u64; 4096], v: usize) -> usize
    requires v_bound { (v < 512) × (8 * v + 8 ≤ length graph.now.table.now) }
    requires u_value { T (is_two_way graph.now.mark)
        → count_below 512 (λ u. arcs_wide 8 graph.now.table.now v u && in_set placed.now u) ≡ count_below 512 (row_of words.now v) }
    ensures { result ≡ count_below 512 (row_of words.now v) }
{
    if let Mark::TwoWay = graph.mark {
        return count_in(graph.table, v, placed);
    }
    count_row(words, v)
}

// The smallest position of a vertex once `latest` is put into its label: the one that it had, or where it had none `latest`.
fn smallest_with(latest: u16, kept: u16) -> u16
    ensures { result ≡ cond (eqb kept 512) latest kept }
{
    if kept == 512 { latest } else { kept }
}

// The weight of the label of `v`, by its running values, or in MNS and MCS by how many positions it has; `weight` is what it was before the last one of them.
fn weigh(
    kind: Kind,
    graph: &Graph,
    placed: &[u64; 8],
    words: &[u64; 4096],
    v: usize,
    smallest: u16,
    largest: u16,
    weight: u16,
) -> u16
    requires { Weighable (search_of kind.0) graph.now.mark graph.now.table.now placed.now words.now v smallest largest weight }
    ensures { result ≡ weight_in (search_of kind.0) 512 (row_of words.now v) }
{
    if kind == Kind::BFS {
        return 512 - smallest;
    }
    if kind == Kind::DFS {
        return largest;
    }
    if kind == Kind::LEX_BFS {
        return 0;
    }
    if kind == Kind::LEX_DFS {
        return 0;
    }
    if kind == Kind::MNS {
        return weight + 1;
    }
    if kind == Kind::MCS {
        return tally(graph, placed, words, v) as u16;
    }
    1
}

// Puts `position` into the label of `vertex`, and into its running values, and weighs the label anew. `placed` holds the placed vertices, the one at
// `position` too.
fn raise(
    graph: &Graph,
    placed: &[u64; 8],
    labels: &mut Labels,
    vertex: WideVertex,
    position: Position,
)
    requires { Raisable (search_of labels.old.kind.0) graph.now.mark graph.now.table.now placed.now
        labels.old.words labels.old.smallest labels.old.largest labels.old.weights vertex.0 position.0 }
    ensures words { labels.new.words ≡ with_bit labels.old.words vertex.0 position.0 }
    ensures kind { labels.new.kind ≡ labels.old.kind }
{
    let v = vertex.0 as usize;
    let p = position.0;
    let latest = p as u16;
    let past = latest + 1;
    let first = smallest_with(latest, labels.smallest[v]);
    put(&mut labels.words, v, p);
    let weight = weigh(
        labels.kind,
        graph,
        placed,
        &labels.words,
        v,
        first,
        past,
        labels.weights[v],
    );
    labels.smallest[v] = first;
    labels.largest[v] = past;
    labels.weights[v] = weight;
}

// Puts `position` into the labels of the vertices of `word`, which is word `i` of a set.
fn spread(
    graph: &Graph,
    placed: &[u64; 8],
    labels: &mut Labels,
    word: u64,
    i: usize,
    position: Position,
)
    requires { Spreadable (search_of labels.old.kind.0) graph.now.mark graph.now.table.now placed.now
        labels.old.words labels.old.smallest labels.old.largest labels.old.weights word i position.0 }
    ensures raised { Raised position.0 (in_word word i) labels.old.words labels.new.words }
    ensures kind { labels.new.kind ≡ labels.old.kind }
{
    let below = 64 * i;
    let mut rest = word;
    while rest != 0 {
        let v = (below + bitset::smallest(rest)) as u16;
        raise(graph, placed, labels, WideVertex(v), position);
        rest = bitset::without_smallest(rest);
    }
}

// Clears the label of `v`, its running values and its weight.
fn clear(labels: &mut Labels, v: usize)
    requires { v < 512 }
    ensures label { Cleared v labels.old.words labels.new.words }
    ensures kind { labels.new.kind ≡ labels.old.kind }
{
    empty_row(&mut labels.words, v);
    labels.smallest[v] = 512;
    labels.largest[v] = 0;
    labels.weights[v] = 0;
}

// Places `vertex` at `position`, where it needs no label any more. Labels, running values and weights change for the unplaced vertices that it leads to.
pub fn place(
    graph: &Graph,
    labels: &mut Labels,
    sets: &mut Sets,
    vertex: WideVertex,
    position: Position,
)
    requires { Placeable (search_of labels.old.kind.0) graph.now.mark graph.now.table.now
        labels.old.words labels.old.smallest labels.old.largest labels.old.weights
        sets.old.placed sets.old.free sets.old.reached vertex.0 position.0 }
    ensures placed { Placed graph.now.table.now vertex.0 position.0 labels.old.words sets.old.placed sets.old.free sets.old.reached
        labels.new.words sets.new.placed sets.new.free sets.new.reached }
    ensures kind { labels.new.kind ≡ labels.old.kind }
{
    let v = vertex.0 as usize;
    include(&mut sets.placed, v);
    exclude(&mut sets.free, v);
    clear(labels, v);
    for i in 0..8 {
        let row = graph.table[8 * v + i];
        let grown = bitset::common(row, sets.free[i]);
        sets.reached[i] = bitset::union(sets.reached[i], row);
        spread(graph, &sets.placed, labels, grown, i, position);
    }
}
