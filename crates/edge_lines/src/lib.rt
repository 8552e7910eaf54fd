// The lines of a DIMACS edge file, each read from its bytes through a cursor.
#![tactic(auto)]

mod number;

ghost use Rattle.std.specs.Prelude.{◌≡◌, ◌==◌, ◌≤◌, ◌<◌, false, MatchOption, length, drop, position};
ghost use Rattle.edge_lines.specs.Reading.{is_pair, NumbersOf, said, next_said, behind_line, capped_line};

use crate::number::{next, read_number};
use fields::field::byte_at;

// How far a list of bytes has been read.
#[derive(Clone, Copy)]
pub struct Cursor {
    pub at: usize,
}

// What a line says: nothing, as a comment; "p edge n m"; "e u v"; or it has none of these forms. A number from 10^19 on is given as 10^19.
#[derive(Clone, Copy)]
pub enum Line {
    Comment,
    Problem(u64, u64),
    Edge(u64, u64),
    Other,
}

// What a line says, and where the next one begins.
#[derive(Clone, Copy)]
pub struct Step {
    pub line: Line,
    pub rest: Cursor,
}

// The two numbers of a line that is just these: words, a number, one space, a number.
fn read_pair(line: &[u8], words: &[u8]) -> Option<(u64, u64)>
    ensures { MatchOption result (is_pair words.now line.now ≡ false) (NumbersOf words.now line.now) }
{
    if !line.starts_with(words) {
        return None;
    }
    let first = read_number(line, Cursor { at: words.len() });
    let x = first.value?;
    let gap = first.rest;
    if byte_at(line, gap.at) != 32 {
        return None;
    }
    let second = read_number(line, next(line, gap));
    let y = second.value?;
    if second.rest.at < line.len() {
        return None;
    }
    Some((x, y))
}

// What a line says. Its bytes come without the line end.
fn read_line(line: &[u8]) -> Line
    ensures { result ≡ capped_line (said line.now) }
{
    if line.starts_with(b"c") {
        return Line::Comment;
    }
    if let Some((u, v)) = read_pair(line, b"e ") {
        return Line::Edge(u, v);
    }
    if let Some((n, m)) = read_pair(line, b"p edge ") {
        return Line::Problem(n, m);
    }
    Line::Other
}

// How many bytes stand before the first line end, where there is one.
fn line_end(bytes: &[u8]) -> Option<usize>
    ensures { result ≡ position (λ byte. byte == 10) bytes.now }
{
    bytes.iter().position(|byte| *byte == 10)
}

// The line at the cursor. Bytes that no line end follows have none of the forms.
pub fn next_line(file: &[u8], cursor: Cursor) -> Step
    requires { cursor.at < length file.now }
    ensures line { result.line ≡ capped_line (next_said (drop cursor.at file.now)) }
    ensures rest { drop result.rest.at file.now ≡ behind_line (drop cursor.at file.now) }
    ensures further { (cursor.at < result.rest.at) × (result.rest.at ≤ length file.now) }
{
    let start = cursor.at;
    match line_end(&file[start..]) {
        Some(length) => Step {
            line: read_line(&file[start..start + length]),
            rest: Cursor {
                at: start + length + 1,
            },
        },
        None => Step {
            line: Line::Other,
            rest: Cursor { at: file.len() },
        },
    }
}
