// The judgement of a sheet, written to a list that the caller owns.
#![tactic(auto)]

ghost use Rattle.std.specs.Prelude.{◌≡◌, ℕ, ◌+◌, ◌≤◌, ◌<◌, List, length, take};
ghost use Rattle.std.proofs.lemmas.List.Edits.{sets};
ghost use Rattle.searches.specs.Answer.{verdict_of};
ghost use Rattle.sheet.specs.Sheet.{stopped_in};
ghost use Rattle.judgement.specs.Judged.{judged_line, judged_lines, judgement, judgement_in, judgement_length, ReadInto};

use fields::write::line_of;
use searches::{Judgement, Kind, Mark, Refusal, Vertex};
use sheet::read::read;

// Writes the line of one kind from `at` on, and answers where it ends.
fn judged_line(
    output: &mut [u8],
    at: usize,
    kind: u8,
    judgement: Result<Judgement<Vertex>, Refusal>,
) -> usize
    requires { (at < 150) × (at + 21 ≤ length output.old) }
    ensures output { output.new ≡ sets output.old at (judged_line kind (verdict_of judgement)) }
    ensures at { result ≡ at + length (judged_line kind (verdict_of judgement)) }
{
    match judgement {
        Ok(Judgement::Passes) => line_of(output, at, &[kind as usize, 1]),
        Ok(Judgement::Fails(v)) => line_of(
            output,
            at,
            &[
                kind as usize,
                0,
                v.a.0 as usize,
                v.b.0 as usize,
                v.c.0 as usize,
            ],
        ),
        Err(refusal) => line_of(output, at, &[checks::number::number(refusal) as usize]),
    }
}

// Writes the lines of the seven kinds, from the front on, and answers how long they are.
fn judged_lines(output: &mut [u8], rows: &[u64], ordering: &[u8]) -> usize
    requires { 147 ≤ length output.old }
    ensures output { output.new ≡ sets output.old 0 (judged_lines rows.now ordering.now 7) }
    ensures at { result ≡ length (judged_lines rows.now ordering.now 7) }
{
    let mut at = 0;
    for kind in 0u8..7 {
        // no vertex is barred
        let judgement = engine::judge(Kind(kind), Mark::TwoWay, rows, 0, ordering);
        at = judged_line(output, at, kind, judgement);
    }
    at
}

// How long a judgement is; and where the sheet is refused with 11, the line in which it stops having the form, counted from 1, else 0.
#[derive(Clone, Copy)]
pub struct Judged {
    pub length: usize,
    // A number and no Option: the clause `line` of `judge_input` gives `stopped_in` of `sheet`, which is 0 where no line is named.
    pub line: usize,
}

// Writes the judgement of a sheet to the front of `output`, which has room for it.
fn write_judgement(sheet: &[u8], output: &mut [u8]) -> Judged
    requires { 147 ≤ length output.old }
    ensures output { output.new ≡ sets output.old 0 (judgement sheet.now) }
    ensures length { result.length ≡ length (judgement sheet.now) }
    ensures line { result.line ≡ stopped_in sheet.now }
{
    match read(sheet) {
        Ok(held) => {
            let rows = held.rows;
            let ordering = held.ordering;
            let length = judged_lines(output, &rows[..held.n], &ordering[..held.k]);
            Judged { length, line: 0 }
        }
        Err(unread) => {
            let number = checks::number::number(unread.refusal);
            let length = line_of(output, 0, &[number as usize]);
            Judged {
                length,
                line: unread.line,
            }
        }
    }
}

// Writes the judgement of a sheet, any bytes, to the front of `output` and answers its length. An `output` of less than 147 bytes stays as
// it is, and the answer is 0.
pub fn judge(sheet: &[u8], output: &mut [u8]) -> usize
    ensures output { output.new ≡ judgement_in sheet.now output.old }
    ensures length { result ≡ judgement_length sheet.now output.old }
{
    let short = output.len() < 147;
    if short {
        return 0;
    }
    let judged = write_judgement(sheet, output);
    judged.length
}

// The judgement of the first `count` bytes; of all where there are no more.
// `count` stands beside the list, since `judge_input` asks nothing of it: it may be more than there are bytes, where no slice ends.
fn judge_first(bytes: &[u8], count: usize, output: &mut [u8]) -> Judged
    requires { 147 ≤ length output.old }
    ensures output { output.new ≡ sets output.old 0 (judgement (take count bytes.now)) }
    ensures length { result.length ≡ length (judgement (take count bytes.now)) }
    ensures line { result.line ≡ stopped_in (take count bytes.now) }
{
    let all = bytes.len() <= count;
    if all {
        return write_judgement(bytes, output);
    }
    write_judgement(&bytes[..count], output)
}

// Judges an input of any length that was read into `input`, as much as there is room for: no valid sheet is longer. The first `count` bytes of
// `input` are what was read. The judgement is that of the whole input, and is written to the front of `output`.
// The signature stays: `ReadInto` and the three clauses speak of `count`.
pub fn judge_input(input: &[u8; 18478], count: usize, output: &mut [u8; 147]) -> Judged
    ensures output { (b : List ℕ) → ReadInto input.now count b → output.new ≡ sets output.old 0 (judgement b) }
    ensures length { (b : List ℕ) → ReadInto input.now count b → result.length ≡ length (judgement b) }
    ensures line { (b : List ℕ) → ReadInto input.now count b → result.line ≡ stopped_in b }
{
    judge_first(input, count, output)
}
