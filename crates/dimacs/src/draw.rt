// The lines of a DIMACS edge file, taken up one after the other.
ghost use Rattle.std.specs.Prelude.{◌≡◌, ◌<◌};
ghost use Rattle.edge_lines.specs.Reading.{most, told};
ghost use Rattle.dimacs.specs.Drawing.{broken, begun, linked, added, read_on, blank, capped_lines, Drawable};

use edge_lines::{Cursor, Line, next_line};

// What the lines so far come to. `headed` says that the p line was met, with `n` and `m`; before it both are 0. `edges` links followed, between points from 1 to
// n, with their bits in `rows`; `looped` says that one links a point with itself. `sound` says that each line so far may stand where it stands, and that n is at
// most 64.
#[derive(Clone, Copy)]
pub struct Drawing {
    // The three flags are fields beside the values, as `begun`, `broken`, `linked` and `drawing_tests` of specs/Drawing.antt have them.
    pub headed: bool,
    pub sound: bool,
    pub n: u64,
    pub m: u64,
    pub edges: u64,
    pub looped: bool,
    pub rows: [u64; 64],
}

// Stops at a line that may not stand there.
fn halt(drawing: Drawing) -> Drawing
    ensures { result ≡ broken drawing }
{
    let mut halted = drawing;
    halted.sound = false;
    halted
}

// The p line: there is only one.
fn begin(drawing: Drawing, n: u64, m: u64) -> Drawing
    ensures { result ≡ begun n m drawing }
{
    if drawing.headed {
        return halt(drawing);
    }
    let mut headed = drawing;
    headed.headed = true;
    headed.sound = n <= 64;
    headed.n = n;
    headed.m = m;
    headed
}

// A link: both its points are from 1 to n. Before the p line n is 0.
fn link(drawing: Drawing, u: u64, v: u64) -> Drawing
    requires { Drawable drawing }
    ensures { result ≡ linked u v drawing }
{
    let n = drawing.n;
    let inside = ((1 <= u) & (u <= n)) & ((1 <= v) & (v <= n));
    if !inside {
        return halt(drawing);
    }
    let first = (u - 1) as usize;
    let second = (v - 1) as usize;
    let mut joined = drawing;
    joined.edges = drawing.edges + 1;
    joined.looped = drawing.looped | (u == v);
    joined.rows[first] = bitset::insert(joined.rows[first], second);
    joined.rows[second] = bitset::insert(joined.rows[second], first);
    joined
}

// One line more.
fn add_line(drawing: Drawing, line: Line) -> Drawing
    requires { Drawable drawing }
    ensures { result ≡ added line drawing }
{
    match line {
        Line::Comment => drawing,
        Line::Problem(n, m) => begin(drawing, n, m),
        Line::Edge(u, v) => link(drawing, u, v),
        Line::Other => halt(drawing),
    }
}

// All lines of a file, up to one that may not stand there.
pub fn read_lines(file: &[u8]) -> Drawing
    ensures drawing { result ≡ read_on blank (capped_lines (told file.now)) }
    ensures few { result.edges < most }
{
    let mut drawing = Drawing {
        headed: false,
        sound: true,
        n: 0,
        m: 0,
        edges: 0,
        looped: false,
        rows: [0u64; 64],
    };
    let mut at = 0usize;
    // The next line begins where `next_line` answers, so no range and no iterator over the bytes gives `at`.
    while at < file.len() {
        if !drawing.sound {
            return drawing;
        }
        let step = next_line(file, Cursor { at });
        let line = step.line;
        let more = add_line(drawing, line);
        drawing = more;
        at = step.rest.at;
    }
    drawing
}
