// Answers as one number.
ghost use Rattle.std.specs.Prelude.{◌≡◌};
ghost use Rattle.searches.specs.Answer.{verdict_of, refusal_of};
ghost use Rattle.firmware.specs.Code.{code_of, number_of};

use searches::{Judgement, Refusal, Vertex};

// 0 for a pass, a refusal's number, and a violation packed above all of these.
pub fn code_of(judgement: Result<Judgement<Vertex>, Refusal>) -> u32
    ensures { result ≡ code_of (verdict_of judgement) }
{
    match judgement {
        Ok(Judgement::Passes) => 0,
        Ok(Judgement::Fails(v)) => 16777216
            + 65536 * (v.a.0 as u32)
            + 256 * (v.b.0 as u32)
            + (v.c.0 as u32),
        Err(refusal) => checks::number::number(refusal),
    }
}

// 0 where nothing was refused, else the refusal's number.
// C gets a number, as `number_of` of specs/Code.antt says. Rust allows no `From` between two types of other crates.
pub fn number_of(outcome: Result<(), Refusal>) -> u32
    ensures { result ≡ number_of (refusal_of outcome) }
{
    match outcome {
        Ok(()) => 0,
        Err(refusal) => checks::number::number(refusal),
    }
}
