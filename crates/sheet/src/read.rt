// A sheet read into rows and an ordering.
ghost use Rattle.std.specs.Prelude.{◌≡◌, IfOk, OnErr, Err};
ghost use Rattle.sheet.specs.Sheet.{read_answer, stopped_in};
ghost use Rattle.sheet.specs.Lines.{held_in, nothing_held};
ghost use Rattle.sheet.specs.Parsing.{parsed_answer, parsed_line, Readable};
ghost use Rattle.sheet.specs.Answer.{refusal_in, line_in};

use crate::reader;
use lines::{Content, Parsed};
use searches::Refusal;

// What a sheet holds: `n` rows, and the first `k` entries of an ordering; 0 behind both.
#[derive(Clone, Copy)]
pub struct Held {
    pub n: usize,
    // There is no heap, so the lists have a fixed length, and n and k stand beside them.
    pub rows: [u64; 64],
    pub k: usize,
    pub ordering: [u8; 64],
}

// Why a sheet is refused. Where that is 11, `line` is the one in which it stops having the form, counted from 1; else it is 0.
#[derive(Clone, Copy)]
pub struct Unreadable {
    pub refusal: Refusal,
    // A number and no Option: `line_in` and `stopped_in` of specs/ are numbers, 0 where no line is named.
    pub line: usize,
}

// The first of refusals 11, 2, 6, 11, 8 and 9 that applies to what a sheet came to, else `Ok`.
fn decide(parsed: Parsed) -> Result<(), Unreadable>
    requires { Readable parsed }
    ensures answer { refusal_in result ≡ parsed_answer parsed }
    ensures line { line_in result ≡ parsed_line (parsed_answer parsed) parsed }
{
    let good = parsed.good;
    let sound = parsed.sound;
    let content = parsed.content;
    if good == 0 {
        return unread(Refusal::MalformedSheet, 1);
    }
    if 64 < content.n {
        return unread(Refusal::TooManyVertices, 0);
    }
    if content.n < content.k {
        return unread(Refusal::OrderingTooLong, 0);
    }
    if !sound {
        return unread(Refusal::MalformedSheet, good + 1);
    }
    if content.outside {
        return unread(Refusal::VertexOutOfRange, 0);
    }
    if lookup::entries::repeated(&content.ordering, content.k) {
        return unread(Refusal::RepeatedVertex, 0);
    }
    Ok(())
}

// The answer for a sheet that is refused.
fn unread(refusal: Refusal, line: usize) -> Result<(), Unreadable>
    ensures { result ≡ Err (record { refusal = refusal; line = line }) }
{
    Err(Unreadable { refusal, line })
}

// Reads a sheet, any bytes. It alters nothing.
pub fn read(sheet: &[u8]) -> Result<Held, Unreadable>
    ensures held { IfOk result (λ held. held ≡ held_in sheet.now) }
    ensures refused { OnErr result (held_in sheet.now ≡ nothing_held) }
    ensures answer { refusal_in result ≡ read_answer sheet.now }
    ensures line { line_in result ≡ stopped_in sheet.now }
{
    let parsed = reader::parse(sheet);
    decide(parsed)?;
    let Content {
        n,
        k,
        rows,
        ordering,
        ..
    } = parsed.content;
    Ok(Held {
        n,
        rows,
        k,
        ordering,
    })
}
