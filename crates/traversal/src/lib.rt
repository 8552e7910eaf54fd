// The open walk: a graph with its mark and its barred vertices, a kind of search, and an ordering that grows and shrinks by one vertex. It is a state by value:
// each call takes it, and hands it back with the answer. Its fields may hold anything; what is not well formed is refused, and handed back as it came.
// That the open walk comes back beside each answer, beside a refusal, too, is the form that the requirements name. So a refusal is not passed on by `?`.
#![tactic(auto)]

mod comparison;
mod refusals;
mod survey;

ghost use Rattle.std.specs.Prelude.{◌≡◌, IfOk, OnErr};
ghost use Rattle.searches.specs.Answer.{open_barring, refusal_of};
ghost use Rattle.traversal.specs.State.{opened, offered_answer, offered_set, place_answer, grown, take_back_answer, shrunk};
ghost use Rattle.traversal.specs.Compare.{compare_answer, report_of};

use searches::{Comparison, Kind, Mark, Refusal, Vertex};

// An open walk: `n` rows of a graph, the set of its barred vertices, and the first `k` entries of an ordering.
#[derive(Clone, Copy)]
pub struct Traversal {
    pub kind: Kind,
    pub mark: Mark,
    pub n: usize,
    pub rows: [u64; 64],
    pub barred: u64,
    pub k: usize,
    pub ordering: [u8; 64],
}

// An open walk, and whether it was opened, grown or shrunk.
#[derive(Clone, Copy)]
pub struct Stepped {
    pub traversal: Traversal,
    pub outcome: Result<(), Refusal>,
}

// An open walk, and the set of its offered vertices, or why that is not told.
#[derive(Clone, Copy)]
pub struct Offering {
    pub traversal: Traversal,
    pub set: Result<u64, Refusal>,
}

// An open walk, and how the first of two of its unplaced vertices stands to the second, or why that is not told.
#[derive(Clone, Copy)]
pub struct Compared {
    pub traversal: Traversal,
    pub standing: Result<Comparison, Refusal>,
}

impl Traversal {
    // An open walk with nothing placed, on its own copy of `rows`, without the vertices of `barred`. Refused (1 to 5, 23; 5 for two-way graphs only), the
    // two-way one of kind 0 with all else 0. Alters no list.
    pub fn open(kind: Kind, mark: Mark, rows: &[u64], barred: u64) -> Stepped
        ensures state { result.traversal ≡ opened kind.0 mark rows.now barred }
        ensures answer { refusal_of result.outcome ≡ open_barring kind.0 mark rows.now barred }
    {
        let mut copy = [0u64; 64];
        let ordering = [0u8; 64];
        if let Err(refusal) = checks::open_refusal(kind, mark, rows, barred) {
            return Stepped {
                traversal: Traversal {
                    kind: Kind::GENERIC,
                    mark: Mark::TwoWay,
                    n: 0,
                    rows: copy,
                    barred: 0,
                    k: 0,
                    ordering,
                },
                outcome: Err(refusal),
            };
        }
        bitset::copy::copy(rows, &mut copy);
        Stepped {
            traversal: Traversal {
                kind,
                mark,
                n: rows.len(),
                rows: copy,
                barred,
                k: 0,
                ordering,
            },
            outcome: Ok(()),
        }
    }

    // The vertices that may be placed next, none where all that are not barred are placed or the call is refused (13). The open walk comes back as it was.
    pub fn offered(self) -> Offering
        ensures state { result.traversal ≡ self }
        ensures set { IfOk result.set (λ set. set ≡ offered_set self) }
        ensures refused { OnErr result.set (offered_set self ≡ 0) }
        ensures answer { refusal_of result.set ≡ offered_answer self }
    {
        let Some(moment) = self.survey() else {
            return Offering {
                traversal: self,
                set: Err(Refusal::MalformedTraversal),
            };
        };
        let set = offers::open_below(&moment.labels, moment.free, self.n);
        Offering {
            traversal: self,
            set: Ok(set),
        }
    }

    // Whether `first` is ahead of `second`, behind it, level with it or neither, by the labels that the two have now. Refused (13, 8, 24, 15; 8, 24
    // and 15 for either vertex), nothing is told. The open walk comes back as it was.
    pub fn compare(self, first: Vertex, second: Vertex) -> Compared
        ensures state { result.traversal ≡ self }
        ensures answer { report_of result.standing ≡ compare_answer self first.0 second.0 }
    {
        let standing = self.standing(first, second);
        Compared {
            traversal: self,
            standing,
        }
    }

    // The open walk with `vertex` placed behind the others. Refused (13, 14, 8, 24, 15, 16), it comes back as it was.
    pub fn place(self, vertex: Vertex) -> Stepped
        ensures state { result.traversal ≡ grown self vertex.0 }
        ensures answer { refusal_of result.outcome ≡ place_answer self vertex.0 }
    {
        if let Err(refusal) = self.place_refusal(vertex) {
            return Stepped {
                traversal: self,
                outcome: Err(refusal),
            };
        }
        let k = self.k;
        let mut grown = self;
        grown.ordering[k] = vertex.0;
        grown.k = k + 1;
        Stepped {
            traversal: grown,
            outcome: Ok(()),
        }
    }

    // The open walk without the vertex placed last. Refused (13, 17), it comes back as it was.
    pub fn take_back(self) -> Stepped
        ensures state { result.traversal ≡ shrunk self }
        ensures answer { refusal_of result.outcome ≡ take_back_answer self }
    {
        if let Err(refusal) = self.take_back_refusal() {
            return Stepped {
                traversal: self,
                outcome: Err(refusal),
            };
        }
        let last = self.k - 1;
        let mut shrunk = self;
        shrunk.ordering[last] = 0;
        shrunk.k = last;
        Stepped {
            traversal: shrunk,
            outcome: Ok(()),
        }
    }
}
