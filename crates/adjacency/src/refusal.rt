// What is refused of a graph that is given as adjacency lists.
ghost use Rattle.std.specs.Prelude.{◌≡◌, IfOk};
ghost use Rattle.searches.specs.Answer.{first_refusal, refusal_of};
ghost use Rattle.adjacency.specs.Layout.{listed_tests};

use crate::Layout;
use searches::{Mark, Refusal};

// The layout that the lists are, or the first of refusals 2, 26, 4 and 5, in this order, that applies to them; 5 for two-way graphs only. It alters no list.
pub fn layout_refusal<'a>(
    mark: Mark,
    offsets: &'a [u16],
    neighbours: &'a [u8],
) -> Result<Layout<'a>, Refusal>
    ensures refusal { refusal_of result ≡ first_refusal (listed_tests mark offsets.now neighbours.now) }
    ensures lists { IfOk result (λ layout. (layout.offsets.now ≡ offsets.now) × (layout.neighbours.now ≡ neighbours.now)) }
{
    if 65 < offsets.len() {
        return Err(Refusal::TooManyVertices);
    }
    crate::form::form_refusal(offsets, neighbours)?;
    let layout = Layout {
        offsets,
        neighbours,
    };
    if layout.self_loop() {
        return Err(Refusal::SelfLoop);
    }
    if let Mark::OneWay = mark {
        return Ok(layout);
    }
    if layout.one_way() {
        return Err(Refusal::OneWayArc);
    }
    Ok(layout)
}
