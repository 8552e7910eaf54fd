// The minutes of an ordering.
#![tactic(auto)]

ghost use Rattle.std.specs.Prelude.{◌≡◌, ℕ, ◌≤◌, ◌<◌, length};
ghost use Rattle.searches.specs.Ordering.{arcs, at};
ghost use Rattle.minutes.specs.Minutes.{jump_minutes, minutes_of};

use lookup::{row_of, vertex_at};
use searches::Position;

// The minutes of an ordering: of each vertex its own, and 7 for each jump.
pub fn minutes_of(rows: &[u64], ordering: &[u8], minutes: &[u16]) -> u64
    requires ordering_len_bound { length ordering.now ≤ 64 }
    requires by_index { (v : ℕ) → at minutes.now v ≤ 999 }
    ensures { result ≡ minutes_of (arcs rows.now) ordering.now (length ordering.now) minutes.now }
{
    let mut total = 0u64;
    // the number is a position, of which a jump is asked and which only `vertex_at` turns into the vertex there
    for p in 0..ordering.len() {
        let vertex = vertex_at(ordering, Position(p));
        let v = vertex.0 as usize;
        let own = minutes_at(minutes, v);
        let jump = jump_minutes(rows, ordering, Position(p));
        total += own + jump;
    }
    total
}

// The minutes of vertex `v`; 0 behind the last entry.
fn minutes_at(minutes: &[u16], v: usize) -> u64
    ensures { result ≡ at minutes.now v }
{
    minutes.get(v).copied().unwrap_or(0) as u64
}

// 7 for a position that is not the first, where the vertex placed directly before does not lead to the one there; else 0.
fn jump_minutes(rows: &[u64], ordering: &[u8], position: Position) -> u64
    requires { position.0 < length ordering.now }
    ensures { result ≡ jump_minutes (arcs rows.now) ordering.now position.0 }
{
    let p = position.0;
    if p == 0 {
        return 0;
    }
    let before = vertex_at(ordering, Position(p - 1));
    let vertex = vertex_at(ordering, position);
    if bitset::contains(row_of(rows, before), vertex.0 as usize) {
        0
    } else {
        7
    }
}
