// Whether what is behind the used rows of a graph, or the used entries of an ordering, is 0. The number of those that are used stands beside the whole list,
// since the others are asked about.
ghost use Rattle.std.specs.Prelude.{◌≡◌, ◌≤◌, length};
ghost use Rattle.lookup.specs.Unused.{used_from};

// Whether a row from `n` on is not 0.
pub fn row_used_from(rows: &[u64], n: usize) -> bool
    requires { (n ≤ 64) × (length rows.now ≡ 64) }
    ensures { result ≡ used_from n rows.now }
{
    rows[n..].iter().any(|row| *row != 0)
}

// Whether an entry from position `k` on is not 0.
pub fn entry_used_from(ordering: &[u8], k: usize) -> bool
    requires { (k ≤ 64) × (length ordering.now ≡ 64) }
    ensures { result ≡ used_from k ordering.now }
{
    ordering[k..].iter().any(|entry| *entry != 0)
}
