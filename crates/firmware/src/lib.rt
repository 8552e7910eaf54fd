// Judge and carry-on for C: the graph comes as a plan, eight bytes a row, lowest first, and the answer is one number. The mark of the plan is in the
// entry's name: two-way, or one_way.
#![tactic(auto)]

mod code;
mod marked;
mod plan;

ghost use Rattle.std.specs.Prelude.{◌≡◌};
ghost use Rattle.searches.specs.declared.Mark.{Mark};
ghost use Rattle.firmware.specs.Code.{judge_code, carry_on_code, carry_on_leaves};

use searches::Mark;

// Judges the ordering `walk` on a two-way plan without the points of `barred`: 0 where it passes, 16777216 + 65536 a + 256 b + c where its first violation is
// a, b, c, and else the number of the refusal (1 to 5, 23, 6, 8, 9, 24). A plan whose length is not a multiple of eight is refused with 2. No list is altered.
#[unsafe(no_mangle)]
pub extern "C" fn vezhanip_judge(kind: u8, plan: &[u8], barred: u64, walk: &[u8]) -> u32
    ensures { result ≡ judge_code kind Mark.TwoWay plan.now barred walk.now }
{
    marked::judge(kind, Mark::TwoWay, plan, barred, walk)
}

// Judges the ordering `walk` on a one-way plan: as `vezhanip_judge`, without refusal 5.
#[unsafe(no_mangle)]
pub extern "C" fn vezhanip_judge_one_way(kind: u8, plan: &[u8], barred: u64, walk: &[u8]) -> u32
    ensures { result ≡ judge_code kind Mark.OneWay plan.now barred walk.now }
{
    marked::judge(kind, Mark::OneWay, plan, barred, walk)
}

// Carries on the first `k` vertices of `output` on a two-way plan without the points of `barred`: at each further position, of the vertices then offered, the
// one that stands last in `preference` is written, until all points that are not barred are placed. 0 where that is done, else the number of the refusal (1 to
// 5, 23, 6, 10, 7, 8, 9, 24, 12). A plan whose length is not a multiple of eight is refused with 2. Refused, `output` stays as it was; done, only the positions
// from `k` up to the number of points that are not barred are written. `plan` and `preference` are not altered.
#[unsafe(no_mangle)]
pub extern "C" fn vezhanip_carry_on(
    kind: u8,
    plan: &[u8],
    barred: u64,
    preference: &[u8],
    output: &mut [u8],
    k: usize,
) -> u32
    ensures answer { result ≡ carry_on_code kind Mark.TwoWay plan.now barred preference.now output.old k }
    ensures output { output.new ≡ carry_on_leaves kind Mark.TwoWay plan.now barred preference.now output.old k }
{
    marked::carry_on(kind, Mark::TwoWay, plan, barred, preference, output, k)
}

// Carries on the first `k` vertices of `output` on a one-way plan: as `vezhanip_carry_on`, without refusal 5.
#[unsafe(no_mangle)]
pub extern "C" fn vezhanip_carry_on_one_way(
    kind: u8,
    plan: &[u8],
    barred: u64,
    preference: &[u8],
    output: &mut [u8],
    k: usize,
) -> u32
    ensures answer { result ≡ carry_on_code kind Mark.OneWay plan.now barred preference.now output.old k }
    ensures output { output.new ≡ carry_on_leaves kind Mark.OneWay plan.now barred preference.now output.old k }
{
    marked::carry_on(kind, Mark::OneWay, plan, barred, preference, output, k)
}
