// Tests on the first entries of a list of vertices. How many these are stands beside the list, as in the definitions that the tests answer (`vertex_outside`,
// `repeated`).
ghost use Rattle.std.specs.Prelude.{◌≡◌, ℕ, ◌≤◌, ◌<◌, length};
ghost use Rattle.searches.specs.Ordering.{at};
ghost use Rattle.searches.specs.Answer.{vertex_outside};
ghost use Rattle.searches.specs.Answer as answer;

// Whether one of the first `k` entries is `n` or more.
pub fn vertex_outside(list: &[u16], k: usize, n: usize) -> bool
    requires { k ≤ length list.now }
    ensures { result ≡ vertex_outside n list.now k }
{
    list[..k].iter().any(|entry| n <= *entry as usize)
}

// Whether one of the first `k` entries, all below 512, stands there twice.
pub fn repeated(list: &[u16], k: usize) -> bool
    requires k_in_bounds { k ≤ length list.now }
    requires by_index { (p : ℕ) → p < k → at list.now p < 512 }
    ensures { result ≡ answer.repeated list.now k }
{
    let mut seen = [0u64; 8];
    for entry in &list[..k] {
        let vertex = *entry as usize;
        if tables::in_set(&seen, vertex) {
            return true;
        }
        tables::include(&mut seen, vertex);
    }
    false
}
