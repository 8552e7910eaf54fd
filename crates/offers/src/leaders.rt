// The offered vertices, those that no unplaced vertex is ahead of, as a set that is kept from one placing to the next. Not for MNS, where two vertices may
// be neither ahead nor level.
ghost use Rattle.std.specs.Prelude.{◌≡◌, cond, ◌≢◌, ◌<◌};
ghost use Rattle.bitset.specs.Word.{inserted, united, common};
ghost use Rattle.searches.specs.Kind.{search_of, mns};
ghost use Rattle.offers.specs.Open.{open_in, Covers, Reaches, Offers, Level, Narrows, Leads, by_rule};

use labels::Labels;
use labels::profile::Profile;
use searches::{Comparison, Kind, Vertex};

// The leaders once `u` was compared with them: `u` alone where it is ahead of them, with `u` where it is level with them.
fn led(ahead: bool, level: bool, best: u64, u: usize) -> u64
    ensures { result ≡ cond ahead (inserted 0 u) (cond level (inserted best u) best) }
{
    let kept = if ahead { 0 } else { best };
    if ahead | level {
        bitset::insert(kept, u)
    } else {
        kept
    }
}

// What is kept of the leaders' profile once one with `next` was compared with them.
fn leader(ahead: bool, next: u64, lead: u64) -> u64
    ensures { result ≡ cond ahead next lead }
{
    if ahead { next } else { lead }
}

// The vertices of two sets that none of these is ahead of. Those of `known`, which is not empty, are level with one another.
fn leading(labels: &Labels, known: u64, rivals: u64) -> u64
    requires { (search_of labels.now.kind.0 ≢ mns) × (0 < known) × Level (search_of labels.now.kind.0) labels.now.words known }
    ensures { Offers (search_of labels.now.kind.0) labels.now.words (united known rivals) result }
{
    let first = bitset::smallest(known) as u8;
    let start = labels.profile(Vertex(first));
    let mut best = known;
    // the two halves of the leaders' profile, apart so that the compiler keeps them in registers
    let mut label = start.label;
    let mut weight = start.weight;
    let mut rest = rivals;
    while rest != 0 {
        let u = bitset::smallest(rest);
        let number = u as u8;
        let next = labels.profile(Vertex(number));
        let lead = Profile { label, weight };
        let answer = labels::compare(labels.kind, next, lead);
        let ahead = answer == Comparison::Ahead;
        let level = answer == Comparison::Level;
        best = led(ahead, level, best, u);
        label = leader(ahead, next.label, label);
        weight = leader(ahead, next.weight, weight);
        rest = bitset::without_smallest(rest);
    }
    best
}

// The offered vertices of `free` once a vertex was placed, found by comparing. `stay` are those that were offered before and are still unplaced, `grown` the
// unplaced ones that the placed vertex leads to, and `reached` those that any placed vertex leads to. Where some stay, only these and the grown ones can be
// offered. In MNS any set is returned.
fn narrowed(labels: &Labels, free: u64, reached: u64, stay: u64, grown: u64) -> u64
    requires { Narrows (search_of labels.now.kind.0) labels.now.words free stay grown × Covers reached labels.now.words
        × Reaches reached free labels.now.words }
    ensures { Offers (search_of labels.now.kind.0) labels.now.words free result }
{
    if labels.kind == Kind::MNS {
        return free;
    }
    let still = bitset::without(stay, grown);
    if still != 0 {
        return leading(labels, still, grown);
    }
    let rivals = if stay == 0 {
        bitset::common(free, reached)
    } else {
        grown
    };
    if rivals == 0 {
        return free;
    }
    let first = bitset::insert(0, bitset::smallest(rivals));
    leading(labels, first, rivals)
}

// The set that leads by the rule of a search, with nobody compared: in Generic the front, all that are reached; in BFS `early`, those that were offered and
// reached before; in DFS `grown`. Empty where the search has no rule.
fn by_rule(kind: Kind, front: u64, early: u64, grown: u64) -> u64
    ensures { result ≡ by_rule kind.0 front early grown }
{
    if kind == Kind::GENERIC {
        return front;
    }
    if kind == Kind::BFS {
        return early;
    }
    if kind == Kind::DFS {
        return grown;
    }
    0
}

// The offered vertices of `free` once a vertex was placed: by the rule of the search, and where that names nobody by comparing (`narrowed`). `early` are those
// of `stay` that were reached before.
pub fn offered_after(
    labels: &Labels,
    free: u64,
    reached: u64,
    early: u64,
    stay: u64,
    grown: u64,
) -> u64
    requires { Narrows (search_of labels.now.kind.0) labels.now.words free stay grown × Covers reached labels.now.words
        × Reaches reached free labels.now.words
        × Leads (search_of labels.now.kind.0) labels.now.words free (by_rule labels.now.kind.0 (common free reached) early grown) }
    ensures { Offers (search_of labels.now.kind.0) labels.now.words free result }
{
    let front = bitset::common(free, reached);
    let leaders = by_rule(labels.kind, front, early, grown);
    if leaders != 0 {
        return leaders;
    }
    narrowed(labels, free, reached, stay, grown)
}

// Whether `v` is offered. `offered` are the offered vertices, and `reached` holds every vertex whose label is not empty. In MNS `v` is compared with the
// reached ones.
pub fn is_open(labels: &Labels, free: u64, reached: u64, offered: u64, v: Vertex) -> bool
    requires { Offers (search_of labels.now.kind.0) labels.now.words free offered × Covers reached labels.now.words }
    ensures { result ≡ open_in (search_of labels.now.kind.0) labels.now.words free v.0 }
{
    let number = v.0 as usize;
    if labels.kind != Kind::MNS {
        return bitset::contains(offered, number);
    }
    if !bitset::contains(free, number) {
        return false;
    }
    let mine = labels.profile(v);
    !crate::is_beaten(labels, bitset::common(free, reached), mine)
}
