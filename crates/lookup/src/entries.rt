// Tests on the first entries of a list of vertices. How many these are stands beside the list, as in the definitions that the tests answer (`vertex_outside`,
// `barred_named`, `repeated`): carry-on's start is the front of a longer list.
ghost use Rattle.std.specs.Prelude.{◌≡◌, ℕ, ◌≤◌, ◌<◌, length};
ghost use Rattle.searches.specs.Ordering.{at};
ghost use Rattle.searches.specs.Answer.{vertex_outside, barred_named};
ghost use Rattle.searches.specs.Answer as answer;

// Whether one of the first `k` entries is `n` or more.
pub fn vertex_outside(list: &[u8], k: usize, n: usize) -> bool
    requires { k ≤ length list.now }
    ensures { result ≡ vertex_outside n list.now k }
{
    list[..k].iter().any(|vertex| n <= *vertex as usize)
}

// Whether one of the first `k` entries is a vertex of `barred`.
pub fn vertex_barred(list: &[u8], k: usize, barred: u64) -> bool
    requires { k ≤ length list.now }
    ensures { result ≡ barred_named barred list.now k }
{
    if barred == 0 {
        return false;
    }
    list[..k]
        .iter()
        .any(|vertex| bitset::contains(barred, *vertex as usize))
}

// Whether one of the first `k` entries, all below 64, stands there twice: the set of them is then smaller than `k`.
pub fn repeated(list: &[u8], k: usize) -> bool
    requires k_in_bounds { k ≤ length list.now }
    requires by_index { (p : ℕ) → p < k → at list.now p < 64 }
    ensures { result ≡ answer.repeated list.now k }
{
    let mut seen = 0u64;
    for vertex in &list[..k] {
        seen = bitset::insert(seen, *vertex as usize);
    }
    bitset::size(seen) != k
}
