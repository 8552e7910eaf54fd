// The charge for an ordering: its minutes at an hourly rate, to the nearest cent, by one of two rules for halves of a cent. On lists that the caller
// owns, for every kind, plan, list and rate there can be. No function here alters a list.
#![tactic(auto)]

ghost use Rattle.std.specs.Prelude.{◌≡◌};
ghost use Rattle.searches.specs.Answer.{first_refusal, refusal_of};
ghost use Rattle.cents.specs.Cents.{cents_by};
ghost use Rattle.charge.specs.Charge.{malformed_minutes, charge_tests, bill_by, charge_answer, charge_to_even_answer, bill_of};

use cents::Halves;
use searches::{Judgement, Kind, Mark, Refusal};

// The charge, in cents, for an ordering that passes the search `kind`. The minutes of its vertices are those in `minutes`, entry v for vertex v, and
// 7 more for each vertex after the first to which the one placed directly before it does not lead. Minutes times `rate`, in cents an hour, divided by
// 60, is rounded to the nearest cent, halves to the even cent. Everything else is refused (1 to 6, 8, 9, 18, 19, 20; 5 for two-way graphs only).
// Alters nothing.
pub fn charge(
    kind: Kind,
    mark: Mark,
    rows: &[u64],
    ordering: &[u8],
    minutes: &[u16],
    rate: u64,
) -> Result<u64, Refusal>
    ensures { bill_of result ≡ charge_to_even_answer kind.0 mark rows.now ordering.now minutes.now rate }
{
    bill_by(kind, mark, rows, ordering, minutes, rate, Halves::ToEven)
}

// The charge by the older rule, halves up, so that old bills can be computed again. Minutes, product and refusals are those of `charge`.
// Alters nothing.
pub fn charge_halves_up(
    kind: Kind,
    mark: Mark,
    rows: &[u64],
    ordering: &[u8],
    minutes: &[u16],
    rate: u64,
) -> Result<u64, Refusal>
    ensures { bill_of result ≡ charge_answer kind.0 mark rows.now ordering.now minutes.now rate }
{
    bill_by(kind, mark, rows, ordering, minutes, rate, Halves::Up)
}

// The charge with either rule for halves. What is refused and the exact product do not depend on the rule. Six of the seven parameters are those of the two
// public functions, which stay as they are; the rule is one, as in `bill_by` of specs/Charge.antt.
fn bill_by(
    kind: Kind,
    mark: Mark,
    rows: &[u64],
    ordering: &[u8],
    minutes: &[u16],
    rate: u64,
    halves: Halves,
) -> Result<u64, Refusal>
    ensures { bill_of result ≡ bill_by (cents_by halves) kind.0 mark rows.now ordering.now minutes.now rate }
{
    charge_refusal(kind, mark, rows, ordering, minutes, rate)?;
    let spent = minutes::minutes_of(rows, ordering, minutes);
    Ok(cents::cents_by(spent * rate, halves))
}

// The first of refusals 1 to 6, 8, 9, 18, 19 and 20 that applies, else `Ok`.
fn charge_refusal(
    kind: Kind,
    mark: Mark,
    rows: &[u64],
    ordering: &[u8],
    minutes: &[u16],
    rate: u64,
) -> Result<(), Refusal>
    ensures { refusal_of result ≡ first_refusal (charge_tests kind.0 mark rows.now ordering.now minutes.now rate) }
{
    // no vertex is barred
    let judgement = engine::judge(kind, mark, rows, 0, ordering)?;
    let malformed = malformed_minutes(rows.len(), minutes);
    let above = 99999 < rate;
    if malformed {
        return Err(Refusal::MalformedMinutes);
    }
    if above {
        return Err(Refusal::RateTooHigh);
    }
    if let Judgement::Fails(_) = judgement {
        return Err(Refusal::OrderingFails);
    }
    Ok(())
}

// Whether the list does not have `n` entries, or has one above 999.
fn malformed_minutes(n: usize, minutes: &[u16]) -> bool
    ensures { result ≡ malformed_minutes n minutes.now }
{
    minutes.len() != n || minutes.iter().any(|m| 999 < *m)
}
