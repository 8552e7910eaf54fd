// What is kept of the vertices while an ordering is placed: their labels, and which are placed, free or reached. And the graph that it is placed on.
ghost use Rattle.std.specs.Prelude.{◌≡◌, length};
ghost use Rattle.searches.specs.Kind.{search_of};
ghost use Rattle.wide.specs.Store.{Stored};
ghost use Rattle.wide.specs.Steps.{IsGraph};

use searches::{Kind, Mark};

// A graph of `n` vertices. No test on its table holds.
#[derive(Clone, Copy)]
pub struct Graph<'a> {
    pub mark: Mark,
    pub n: usize,
    pub table: &'a [u64],
    ghost valid: { IsGraph mark n table.now },
}

// The labels of all vertices, as words of positions, and beside them the smallest and the largest position in each and its weight, by which the search of
// `kind` compares.
#[derive(Drop)]
pub struct Labels {
    pub kind: Kind,
    pub words: [u64; 4096],
    pub smallest: [u16; 512],
    pub largest: [u16; 512],
    pub weights: [u16; 512],
    ghost stored: { Stored (search_of kind.0) words smallest largest weights },
}

// The placed vertices, those that are not, and those that a placed one leads to.
#[derive(Drop)]
pub struct Sets {
    pub placed: [u64; 8],
    pub free: [u64; 8],
    pub reached: [u64; 8],
    ghost sizes: { (length placed ≡ 8) × (length free ≡ 8) × (length reached ≡ 8) },
}
