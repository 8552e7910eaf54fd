// Sixtieths of a cent, rounded to the nearest cent, by one of two rules for halves of a cent.
#![tactic(auto)]

ghost use Rattle.std.specs.Prelude.{◌≡◌, ◌≤◌};
ghost use Rattle.cents.specs.Cents.{cents_halves_up, cents_to_even, cents_by, largest_product};

// The rule for halves of a cent.
#[derive(Clone, Copy)]
pub enum Halves {
    Up,
    ToEven,
}

// The exact product, in sixtieths of a cent, rounded to the nearest cent. The largest product takes 33 bits. The rule is
// a parameter, as it is one of `cents_by` of specs/Cents.antt, by which both charges are stated.
pub fn cents_by(product: u64, halves: Halves) -> u64
    requires { product ≤ largest_product }
    ensures { result ≡ cents_by halves product }
{
    match halves {
        Halves::Up => cents_halves_up(product),
        Halves::ToEven => cents_to_even(product),
    }
}

// Halves up.
fn cents_halves_up(product: u64) -> u64
    requires { product ≤ largest_product }
    ensures { result ≡ cents_halves_up product }
{
    (product + 30) / 60
}

// Halves to the even cent: as halves up, but one less where the product is halfway between two cents and the upper one is odd.
fn cents_to_even(product: u64) -> u64
    requires { product ≤ largest_product }
    ensures { result ≡ cents_to_even product }
{
    let up = cents_halves_up(product);
    if product % 60 == 30 && up % 2 == 1 {
        up - 1
    } else {
        up
    }
}
