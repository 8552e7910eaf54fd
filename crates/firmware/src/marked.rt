// Judge and carry-on on the bytes of a plan, for either mark of it.
ghost use Rattle.std.specs.Prelude.{◌≡◌};
ghost use Rattle.searches.specs.Answer.{verdict_of, refusal_of};
ghost use Rattle.firmware.specs.Code.{judge_code, carry_on_code, carry_on_leaves, code_of, number_of};

use crate::{code, plan};
use searches::{Judgement, Kind, Mark, Refusal, Vertex};

// Judges the ordering `walk` on a plan of this mark without the barred points. No list is altered.
pub fn judge(kind: u8, mark: Mark, plan: &[u8], barred: u64, walk: &[u8]) -> u32
    ensures { result ≡ judge_code kind mark plan.now barred walk.now }
{
    code::code_of(judge_plan(kind, mark, plan, barred, walk))
}

// The judgement, or why it is refused.
fn judge_plan(
    kind: u8,
    mark: Mark,
    plan: &[u8],
    barred: u64,
    walk: &[u8],
) -> Result<Judgement<Vertex>, Refusal>
    ensures { code_of (verdict_of result) ≡ judge_code kind mark plan.now barred walk.now }
{
    plan::refusal(kind, plan)?;
    let mut rows = [0u64; 64];
    plan::decode(plan, &mut rows);
    let n = plan.len() / 8;
    engine::judge(Kind(kind), mark, &rows[..n], barred, walk)
}

// Carries on the first `k` vertices of `output` on a plan of this mark without the barred points. `plan` and `preference` are not altered.
// The parameters are those of the C entry `vezhanip_carry_on`, and the mark that its name gives; the same holds for `carry_on_plan`.
pub fn carry_on(
    kind: u8,
    mark: Mark,
    plan: &[u8],
    barred: u64,
    preference: &[u8],
    output: &mut [u8],
    k: usize,
) -> u32
    ensures answer { result ≡ carry_on_code kind mark plan.now barred preference.now output.old k }
    ensures output { output.new ≡ carry_on_leaves kind mark plan.now barred preference.now output.old k }
{
    code::number_of(carry_on_plan(kind, mark, plan, barred, preference, output, k))
}

// Carries on, or says why that is refused.
fn carry_on_plan(
    kind: u8,
    mark: Mark,
    plan: &[u8],
    barred: u64,
    preference: &[u8],
    output: &mut [u8],
    k: usize,
) -> Result<(), Refusal>
    ensures answer { number_of (refusal_of result) ≡ carry_on_code kind mark plan.now barred preference.now output.old k }
    ensures output { output.new ≡ carry_on_leaves kind mark plan.now barred preference.now output.old k }
{
    plan::refusal(kind, plan)?;
    let mut rows = [0u64; 64];
    plan::decode(plan, &mut rows);
    let n = plan.len() / 8;
    engine::carry_on(Kind(kind), mark, &rows[..n], barred, preference, output, k)
}
