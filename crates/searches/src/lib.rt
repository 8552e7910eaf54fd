// The vocabulary of the project: vertices and positions, the kinds of search, the mark of a graph, and the answers.
// The definitions that give these their meaning are in specs/, the theorems in proofs/.
#![tactic(auto)]

// A vertex of a graph (01: point).
#[derive(Clone, Copy, PartialEq, Eq)]
pub struct Vertex(pub u8);

// A vertex of a graph in the wide form, of up to 512 vertices (02, K12: a point's number takes 16 bits).
#[derive(Clone, Copy, PartialEq, Eq)]
pub struct WideVertex(pub u16);

// A position in an ordering, counted from 0 (01: place). Only a look-up in the ordering turns a position
// into the vertex that stands there.
#[derive(Clone, Copy, PartialEq, Eq)]
pub struct Position(pub usize);

// Which of the searches is meant (01: kind). Bytes without a constant here name none and are refused, with 1 and in its turn; 01 names this form, a byte with
// associated constants.
#[derive(Clone, Copy, PartialEq, Eq)]
pub struct Kind(pub u8);

impl Kind {
    pub const GENERIC: Kind = Kind(0);

    pub const BFS: Kind = Kind(1);

    pub const DFS: Kind = Kind(2);

    pub const LEX_BFS: Kind = Kind(3);

    pub const LEX_DFS: Kind = Kind(4);

    pub const MNS: Kind = Kind(5);

    pub const MCS: Kind = Kind(6);
}

// Whether the links of a graph have a direction (02: the mark of a plan). In a two-way graph every link is in both of its rows; in a one-way graph
// bit v of row u says that u leads to v, and nothing about v to u.
#[derive(Clone, Copy)]
pub enum Mark {
    TwoWay,
    OneWay,
}

// Three vertices that show where an ordering leaves its search (01: fault triple a, b, c): `b` was placed
// although the earlier `a` leads to `c`, and not to `b`, and the search's own condition holds. V is `Vertex`, or in the wide form `WideVertex`.
#[derive(Clone, Copy)]
pub struct Violation<V> {
    pub a: V,
    pub b: V,
    pub c: V,
}

// How one of two unplaced vertices stands to the other, by their labels (02: K6).
#[derive(Clone, Copy, PartialEq, Eq)]
pub enum Comparison {
    Ahead,
    Behind,
    Level,
    Neither,
}

// Why a call is refused, each with its number in 01; from 18 on, in 02.
#[derive(Clone, Copy)]
pub enum Refusal {
    UnknownKind = 1,
    TooManyVertices = 2,
    ArcOutOfRange = 3,
    SelfLoop = 4,
    OneWayArc = 5,
    OrderingTooLong = 6,
    TieBreakLength = 7,
    VertexOutOfRange = 8,
    RepeatedVertex = 9,
    OutputTooShort = 10,
    MalformedSheet = 11,
    StartFails = 12,
    MalformedTraversal = 13,
    AllPlaced = 14,
    AlreadyPlaced = 15,
    NotOffered = 16,
    NothingToTakeBack = 17,
    MalformedMinutes = 18,
    RateTooHigh = 19,
    OrderingFails = 20,
    NotBreadthFirst = 21,
    NotPlaced = 22,
    BarredOutOfRange = 23,
    BarredVertex = 24,
    OneWayGraph = 25,
    MalformedLists = 26,
    MalformedFile = 27,
}

// What judging an ordering answers where it is not refused.
#[derive(Clone, Copy)]
pub enum Judgement<V> {
    Passes,
    Fails(Violation<V>),
}
