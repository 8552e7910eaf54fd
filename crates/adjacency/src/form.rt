// Whether offsets and neighbours are the layout of a graph: the six cases of refusal 26.
ghost use Rattle.std.specs.Prelude.{◌≡◌, ◌≤◌, ◌<◌, length};
ghost use Rattle.bitset.specs.Below.{any_below};
ghost use Rattle.searches.specs.Answer.{first_refusal, refusal_of};
ghost use Rattle.adjacency.specs.Layout.{size_of, falls_at, unsorted_in, unsorted_at, form_tests, IsCover};

use crate::offset;
use searches::Refusal;

// Whether an offset is less than the one before it.
fn fall(offsets: &[u16]) -> bool
    requires { 0 < length offsets.now }
    ensures { result ≡ any_below (size_of offsets.now) (falls_at offsets.now) }
{
    !offsets.is_sorted_by(|before, after| *before <= *after)
}

// Whether the list is not strictly ascending from `begin` up to `end`.
fn unsorted_in(list: &[u8], begin: usize, end: usize) -> bool
    requires { (begin ≤ end) × (end ≤ length list.now) }
    ensures { result ≡ unsorted_in list.now begin end }
{
    !list[begin..end].is_sorted_by(|before, after| *before < *after)
}

// Whether the neighbours of a vertex are not strictly ascending.
fn unsorted(offsets: &[u16], neighbours: &[u8]) -> bool
    requires { IsCover offsets.now neighbours.now }
    ensures { result ≡ any_below (size_of offsets.now) (unsorted_at offsets.now neighbours.now) }
{
    let n = offsets.len() - 1;
    for u in 0..n {
        let begin = offset(offsets, u);
        let end = offset(offsets, u + 1);
        if unsorted_in(neighbours, begin, end) {
            return true;
        }
    }
    false
}

// Refusal 26 where one of its cases holds, else `Ok`.
pub fn form_refusal(offsets: &[u16], neighbours: &[u8]) -> Result<(), Refusal>
    ensures { refusal_of result ≡ first_refusal (form_tests offsets.now neighbours.now) }
{
    let count = offsets.len();
    if count == 0 {
        return Err(Refusal::MalformedLists);
    }
    let n = count - 1;
    let length = neighbours.len();
    if offset(offsets, 0) != 0 {
        return Err(Refusal::MalformedLists);
    }
    if fall(offsets) {
        return Err(Refusal::MalformedLists);
    }
    if offset(offsets, n) != length {
        return Err(Refusal::MalformedLists);
    }
    if unsorted(offsets, neighbours) {
        return Err(Refusal::MalformedLists);
    }
    if lookup::entries::vertex_outside(neighbours, length, n) {
        return Err(Refusal::MalformedLists);
    }
    Ok(())
}
