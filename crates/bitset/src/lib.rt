// A 64-bit word as a set of the numbers 0 to 63.
#![tactic(auto)]

pub mod copy;
pub mod transposition;

ghost use Rattle.std.specs.Prelude.{◌≡◌};
ghost use Rattle.bitset.specs.Below.{any_below, first_below, count_below, within};
ghost use Rattle.bitset.specs.Word.{member, inserted, removed, difference, united, common, full_below, from_up};

// Whether `element` is in the set; no number from 64 up is.
pub fn contains(set: u64, element: usize) -> bool
    ensures { result ≡ member set element }
{
    if element < 64 {
        (set >> element) & 1 == 1
    } else {
        false
    }
}

// The set with `element` put in; the set itself where `element` is 64 or more.
pub fn insert(set: u64, element: usize) -> u64
    ensures { result ≡ inserted set element }
{
    if element < 64 {
        set | (1u64 << element)
    } else {
        set
    }
}

// The set without `element`.
pub fn remove(set: u64, element: usize) -> u64
    ensures { result ≡ removed set element }
{
    if contains(set, element) {
        set ^ (1u64 << element)
    } else {
        set
    }
}

// The numbers of `a` that are not in `b`.
pub fn without(a: u64, b: u64) -> u64
    ensures { result ≡ difference a b }
{
    a ^ (a & b)
}

// The numbers that are in `a` or in `b`.
pub fn union(a: u64, b: u64) -> u64
    ensures { result ≡ united a b }
{
    a | b
}

// The numbers that are in both sets.
pub fn common(a: u64, b: u64) -> u64
    ensures { result ≡ common a b }
{
    a & b
}

// The set of the numbers below `n`; of all 64 where `n` is more.
pub fn full_below(n: usize) -> u64
    ensures { result ≡ full_below n }
{
    if n < 64 { (1u64 << n) - 1 } else { u64::MAX }
}

// How many numbers are in the set.
pub fn size(set: u64) -> usize
    ensures { result ≡ count_below 64 (member set) }
{
    u64::count_ones(set) as usize
}

// The smallest number of the set; 64 where it is empty.
// No Option: the loops over a set ask only while it has a number, and `is_unexcused` of `violation` compares with the 64.
pub fn smallest(set: u64) -> usize
    ensures { result ≡ first_below 64 (member set) }
{
    u64::trailing_zeros(set) as usize
}

// The set without its smallest number; the empty set where it has none.
pub fn without_smallest(set: u64) -> u64
    ensures { result ≡ removed set (first_below 64 (member set)) }
{
    if set == 0 { 0 } else { set & (set - 1) }
}

// Whether every number of `a` is in `b`.
pub fn subset(a: u64, b: u64) -> bool
    ensures { result ≡ within 64 (member a) (member b) }
{
    a & b == a
}

// Whether the set has a number from `n` up.
pub fn any_from(set: u64, n: usize) -> bool
    ensures { result ≡ any_below 64 (from_up n set) }
{
    if n < 64 { set >> n != 0 } else { false }
}
