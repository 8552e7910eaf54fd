// The judgement in words: a sentence that a customer can follow, written to a list that the caller owns. For every kind, graph, set of barred vertices,
// ordering and output list there can be.
#![tactic(auto)]

mod table;
pub mod write;

ghost use Rattle.std.specs.Prelude.{◌≡◌, ◌≤◌, ◌<◌, length, Ok};
ghost use Rattle.std.proofs.lemmas.List.Edits.{sets};
ghost use Rattle.searches.specs.Kind.{search_of};
ghost use Rattle.searches.specs.Violation.{passes, fails};
ghost use Rattle.searches.specs.Answer.{verdict_of};
ghost use Rattle.wording.specs.Sentence.{sentence};
ghost use Rattle.wording.specs.Answer.{words_answer, words_output, told_of};

use crate::table::put_name;
use crate::write::{put, put_clause};
use searches::{Judgement, Kind, Mark, Refusal, Vertex, Violation};

// Judges an ordering as `engine::judge` does, and writes the judgement in words to the front of `output`: "LexBFS passes." or
// "LexDFS fails at 2: 1 leads to 3 and not to 2.", where 2, 1 and 3 are the b, a and c of the first violation. Answered is how many bytes the sentence
// has; what stands behind them stays. What judge refuses is refused with its number, and then an `output` of less than 96 bytes with 10; refused, `output`
// stays as it was. `rows` and `ordering` are not altered.
pub fn judge_in_words(
    kind: Kind,
    mark: Mark,
    rows: &[u64],
    barred: u64,
    ordering: &[u8],
    output: &mut [u8],
) -> Result<usize, Refusal>
    ensures answer { told_of result ≡ words_answer kind.0 mark rows.now barred ordering.now output.old }
    ensures output { output.new ≡ words_output kind.0 mark rows.now barred ordering.now output.old }
{
    let judged = engine::judge(kind, mark, rows, barred, ordering);
    let short = output.len() < 96;
    let late = judged.is_ok() & short;
    if late {
        return Err(Refusal::OutputTooShort);
    }
    let judgement = judged?;
    let end = write_sentence(kind, judgement, output);
    Ok(end)
}

// Writes the sentence for a judgement to the front of `output`, and answers where it ends.
fn write_sentence(kind: Kind, judgement: Judgement<Vertex>, output: &mut [u8]) -> usize
    requires { (kind.0 < 7) × (96 ≤ length output.old) }
    ensures output { output.new ≡ sets output.old 0 (sentence (search_of kind.0) (verdict_of (Ok judgement))) }
    ensures end { result ≡ length (sentence (search_of kind.0) (verdict_of (Ok judgement))) }
{
    match judgement {
        Judgement::Passes => write_pass(kind, output),
        Judgement::Fails(violation) => write_failure(kind, violation, output),
    }
}

// Writes the sentence for a pass.
fn write_pass(kind: Kind, output: &mut [u8]) -> usize
    requires { (kind.0 < 7) × (96 ≤ length output.old) }
    ensures output { output.new ≡ sets output.old 0 (sentence (search_of kind.0) passes) }
    ensures end { result ≡ length (sentence (search_of kind.0) passes) }
{
    let name = put_name(output, kind);
    put(output, name, b" passes.")
}

// Writes the sentence for a failure, with its violation.
fn write_failure(kind: Kind, violation: Violation<Vertex>, output: &mut [u8]) -> usize
    requires { (kind.0 < 7) × (96 ≤ length output.old) }
    ensures output { output.new ≡ sets output.old 0 (sentence (search_of kind.0) (fails violation.a.0 violation.b.0 violation.c.0)) }
    ensures end { result ≡ length (sentence (search_of kind.0) (fails violation.a.0 violation.b.0 violation.c.0)) }
{
    let name = put_name(output, kind);
    let middle = put_clause(output, name, b" fails at ", violation.b);
    let first = put_clause(output, middle, b": ", violation.a);
    let last = put_clause(output, first, b" leads to ", violation.c);
    let again = put_clause(output, last, b" and not to ", violation.b);
    put(output, again, b".")
}
