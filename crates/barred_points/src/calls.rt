// The calls on an open walk, with the lines that they print.
ghost use Rattle.std.specs.Prelude.{◌≤◌};

use crate::lines;
use searches::{Kind, Mark, Vertex};
use traversal::Traversal;

fn compare(traversal: Traversal, first: u8, second: u8) -> Traversal {
    let compared = traversal.compare(Vertex(first), Vertex(second));
    let standing = compared.standing;
    notation::show_standing(standing.map_err(|refusal| refusal as u64));
    compared.traversal
}

// A number compared with each number of the list.
fn against_each(traversal: Traversal, first: u8, points: &[u8]) -> Traversal {
    let mut t = traversal;
    for point in points {
        t = compare(t, first, *point);
    }
    t
}

// The line of a number.
fn try_one(traversal: Traversal, point: u8, points: &[u8]) -> Traversal {
    notation::show_first(point);
    let t = against_each(traversal, point, points);
    lines::show_stepped(t.place(Vertex(point)));
    t
}

// The line of the calls without a point.
fn offer_and_take_back(traversal: Traversal) -> Traversal {
    let seen = traversal.offered();
    let t = seen.traversal;
    lines::show_offered(seen.set);
    lines::show_stepped(t.take_back());
    t
}

// All calls, with each number of the list.
pub fn try_each(traversal: Traversal, points: &[u8]) -> Traversal {
    lines::show_walk(traversal);
    let mut t = offer_and_take_back(traversal);
    for point in points {
        t = try_one(t, *point, points);
    }
    t
}

// The line of an open. The open walk that it hands back.
pub fn open_on(kind: u8, mark: Mark, rows: &[u64], barred: u64) -> Traversal {
    lines::show_asked(kind, mark, rows, barred);
    let opened = Traversal::open(Kind(kind), mark, rows, barred);
    lines::show_stepped(opened);
    opened.traversal
}

// On the first n rows.
pub fn open(kind: u8, mark: Mark, rows: [u64; 64], n: usize, barred: u64) -> Traversal
    requires { n ≤ 64 }
{
    open_on(kind, mark, &rows[..n], barred)
}

// With an offered point placed; where all unbarred ones are placed, as it was. `plans` and `notation` know no open walk, so `compared_points` has its own.
pub fn grown(traversal: Traversal, random: u64) -> Traversal {
    let seen = traversal.offered();
    let set = seen.set.unwrap_or(0);
    let t = seen.traversal;
    let stepped = t.place(Vertex(plans::chosen(set, random)));
    stepped.traversal
}

// With so many offered points placed, or as many as there are.
pub fn grown_by(traversal: Traversal, count: usize, random: u64) -> Traversal {
    let mut t = traversal;
    let mut r = random;
    for _ in 0..count {
        r = plans::next(r);
        t = grown(t, r);
    }
    t
}
