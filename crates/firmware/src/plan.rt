// The rows of a plan out of its bytes, eight to a row, lowest first.
ghost use Rattle.std.specs.Prelude.{◌≡◌, ◌+◌, ◌*◌, ◌/◌, ◌≤◌, length, take};
ghost use Rattle.searches.specs.Answer.{first_refusal, refusal_of};
ghost use Rattle.firmware.specs.Plan.{row_at, plan_rows};
ghost use Rattle.firmware.specs.Code.{read_tests};

use searches::{Kind, Refusal};

// What is refused without reading the rows: a kind that names no search, bytes that are no whole rows, more than 64 rows.
pub fn refusal(kind: u8, plan: &[u8]) -> Result<(), Refusal>
    ensures { refusal_of result ≡ first_refusal (read_tests kind plan.now) }
{
    if Kind::MCS.0 < kind {
        return Err(Refusal::UnknownKind);
    }
    if plan.len() % 8 != 0 {
        return Err(Refusal::TooManyVertices);
    }
    if 512 < plan.len() {
        return Err(Refusal::TooManyVertices);
    }
    Ok(())
}

// Writes the rows of a plan of at most 64 of them, from the front of `rows` on.
// Never inlined: in a function that owns `rows`, LLVM makes a call of memcpy of the loop, and the archive for C needs memset alone.
#[inline(never)]
pub fn decode(plan: &[u8], rows: &mut [u64; 64])
    requires { (length plan.now ≤ 512) × (length rows.old ≡ 64) }
    ensures { take (length plan.now / 8) rows.new ≡ plan_rows plan.now }
{
    let (words, _) = plan.as_chunks::<8>();
    for (u, word) in words.iter().enumerate() {
        rows[u] = u64::from_le_bytes(*word);
    }
}
