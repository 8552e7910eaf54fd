// The lines of a sheet, each parsed from where it begins. The reader knows where that is.
#![tactic(auto)]

ghost use Rattle.std.specs.Prelude.{◌≡◌, ◌<◌};
ghost use Rattle.lines.specs.Line.{halted, head_read, link_read, place_read, end_read, next_line, Sound, LinkDue, PlaceDue};

use fields::field::{byte_at, field};

// What the lines so far hold. `from` and `to` are the points of the last link, 0 and 0 before the first; `outside` says that a number among
// the places is no point.
#[derive(Clone, Copy)]
pub struct Content {
    pub n: usize,
    pub m: usize,
    pub k: usize,
    pub from: usize,
    pub to: usize,
    // A field beside the values, as `place_added` of specs/Line.antt and `parsed_answer` of `sheet` have it.
    pub outside: bool,
    // There is no heap, so the lists have a fixed length, of which n and k entries are used.
    pub rows: [u64; 64],
    pub ordering: [u8; 64],
}

// What the lines so far come to. `good` of them have the form. `sound` says that none was malformed and that n and k are not too large; after
// the end, that nothing follows. The last step took `width` bytes; `rest` steps follow line 1, the end among them.
#[derive(Clone, Copy)]
pub struct Parsed {
    pub good: usize,
    // A field beside the values, as `halted`, `end_read` and `Sound` of specs/Line.antt have it: what was parsed before a malformed line stays known.
    pub sound: bool,
    pub width: usize,
    pub rest: usize,
    pub content: Content,
}

// Stops at a malformed line and keeps what was parsed before it.
fn halt(parsed: Parsed) -> Parsed
    ensures { result ≡ halted parsed }
{
    Parsed {
        sound: false,
        width: 0,
        ..parsed
    }
}

// Line 1: the numbers of points, links and places.
fn first_line(sheet: &[u8], at: usize, parsed: Parsed) -> Parsed
    requires { at < 900000 }
    ensures { result ≡ head_read sheet.now at parsed }
{
    let (Some(n), Some(m), Some(k), b'\n') = (
        field(sheet, at),
        field(sheet, at + 4),
        field(sheet, at + 8),
        byte_at(sheet, at + 12),
    ) else {
        return halt(parsed);
    };
    let content = Content {
        n,
        m,
        k,
        from: 0,
        to: 0,
        outside: false,
        ..parsed.content
    };
    let large = (64 < n) | (n < k);
    Parsed {
        good: 1,
        sound: !large,
        width: 13,
        rest: if large { 0 } else { m + k + 1 },
        content,
    }
}

// A link's line: it has the form, its points are points, the smaller first, and it comes after the link before it. Its points are joined.
fn link_line(sheet: &[u8], at: usize, parsed: Parsed) -> Parsed
    requires { (at < 900000) × LinkDue parsed }
    ensures { result ≡ link_read sheet.now at parsed }
{
    let content = parsed.content;
    let second = at + 4;
    let (Some(u), Some(v)) = (field(sheet, at), field(sheet, second)) else {
        return halt(parsed);
    };
    let end = byte_at(sheet, second + 4);
    let line = ((u < v) & (v < content.n)) & (end == 10);
    let later = (content.from < u) | ((content.from == u) & (content.to < v));
    if !(line & later) {
        return halt(parsed);
    }
    let mut joined = Content {
        from: u,
        to: v,
        ..content
    };
    joined.rows[u] = bitset::insert(joined.rows[u], v);
    joined.rows[v] = bitset::insert(joined.rows[v], u);
    Parsed {
        good: parsed.good + 1,
        sound: true,
        width: 9,
        content: joined,
        ..parsed
    }
}

// A place's line. The lowest byte of its number is stored in the ordering.
fn place_line(sheet: &[u8], at: usize, parsed: Parsed) -> Parsed
    requires { (at < 900000) × PlaceDue parsed }
    ensures { result ≡ place_read sheet.now at parsed }
{
    let content = parsed.content;
    let (Some(v), b'\n') = (field(sheet, at), byte_at(sheet, at + 4)) else {
        return halt(parsed);
    };
    let j = parsed.good - 1 - content.m;
    let mut grown = Content {
        outside: content.outside | (content.n <= v),
        ..content
    };
    grown.ordering[j] = (v % 256) as u8;
    Parsed {
        good: parsed.good + 1,
        sound: true,
        width: 5,
        content: grown,
        ..parsed
    }
}

// After the last line: nothing may follow.
fn end(sheet: &[u8], at: usize, parsed: Parsed) -> Parsed
    ensures { result ≡ end_read sheet.now at parsed }
{
    Parsed {
        sound: sheet.len() == at,
        width: 0,
        ..parsed
    }
}

// The line that is due: line 1, a link, a place, or the end; none where a line was malformed.
pub fn next_line(sheet: &[u8], at: usize, parsed: Parsed) -> Parsed
    requires { (at < 900000) × Sound parsed }
    ensures { result ≡ next_line sheet.now at parsed }
{
    if !parsed.sound {
        return halt(parsed);
    }
    let good = parsed.good;
    let content = parsed.content;
    if good == 0 {
        return first_line(sheet, at, parsed);
    }
    if good <= content.m {
        return link_line(sheet, at, parsed);
    }
    if good <= content.m + content.k {
        return place_line(sheet, at, parsed);
    }
    end(sheet, at, parsed)
}
