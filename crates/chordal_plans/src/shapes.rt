// Rings, and plans with every link that another one has not.
ghost use Rattle.std.specs.Prelude.{◌≤◌, ◌<◌};

// The point before u on a ring of n, and the point after it.
fn before(n: usize, u: usize) -> usize
    requires { (u < n) × (n ≤ 64) }
{
    if u == 0 { n - 1 } else { u - 1 }
}

fn after(n: usize, u: usize) -> usize
    requires { (u < n) × (n ≤ 64) }
{
    if u + 1 == n { 0 } else { u + 1 }
}

// A ring of n points.
pub fn ring(n: usize) -> [u64; 64]
    requires { n ≤ 64 }
{
    let mut rows = [0u64; 64];
    for (u, row) in rows[..n].iter_mut().enumerate() {
        *row = bitset::insert(bitset::insert(0, before(n, u)), after(n, u));
    }
    rows
}

// The n points with all links that the given plan has not.
pub fn complement(n: usize, rows: [u64; 64]) -> [u64; 64]
    requires { n ≤ 64 }
{
    let mut others = rows;
    for (u, row) in others[..n].iter_mut().enumerate() {
        let points = bitset::remove(bitset::full_below(n), u);
        *row = bitset::without(points, *row);
    }
    others
}
