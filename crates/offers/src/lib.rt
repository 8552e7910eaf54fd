// The offered vertices: those that no unplaced vertex is ahead of. Here each is found by comparing it with the others; `leaders` keeps the set of them
// from one placing to the next.
#![tactic(auto)]

pub mod leaders;

ghost use Rattle.std.specs.Prelude.{◌≡◌, ◌≤◌};
ghost use Rattle.bitset.specs.Word.{set_below};
ghost use Rattle.searches.specs.Kind.{search_of};
ghost use Rattle.labels.specs.Words.{profile_of};
ghost use Rattle.offers.specs.Open.{beaten_in, open_in};

use labels::Labels;
use labels::profile::Profile;
use searches::{Comparison, Vertex};

// Whether a vertex of `free` is ahead of one of profile `mine`.
pub fn is_beaten(labels: &Labels, free: u64, mine: Profile) -> bool
    requires { mine ≡ profile_of (search_of labels.now.kind.0) mine.label }
    ensures { result ≡ beaten_in (search_of labels.now.kind.0) labels.now.words free mine.label }
{
    let mut rest = free;
    while rest != 0 {
        let u = bitset::smallest(rest) as u8;
        let next = labels.profile(Vertex(u));
        if labels::compare(labels.kind, next, mine) == Comparison::Ahead {
            return true;
        }
        rest = bitset::without_smallest(rest);
    }
    false
}

// Whether `v` is unplaced and no unplaced vertex is ahead of it. Each is compared with it at most once.
pub fn is_open(labels: &Labels, free: u64, v: Vertex) -> bool
    ensures { result ≡ open_in (search_of labels.now.kind.0) labels.now.words free v.0 }
{
    let number = v.0 as usize;
    if !bitset::contains(free, number) {
        return false;
    }
    let mine = labels.profile(v);
    !is_beaten(labels, free, mine)
}

// The set of such vertices below `n`.
pub fn open_below(labels: &Labels, free: u64, n: usize) -> u64
    requires { n ≤ 64 }
    ensures { result ≡ set_below n (open_in (search_of labels.now.kind.0) labels.now.words free) }
{
    let mut set = 0u64;
    for v in 0..n {
        let number = v as u8;
        if is_open(labels, free, Vertex(number)) {
            set = bitset::insert(set, v);
        }
    }
    set
}
