// A refusal's number, for those that print it or hand it on.
ghost use Rattle.std.specs.Prelude.{◌≡◌};
ghost use Rattle.searches.specs.Answer as answer;

use searches::Refusal;

// The number of a refusal.
pub fn number(refusal: Refusal) -> u32
    ensures { result ≡ answer.number refusal }
{
    refusal as u32
}
