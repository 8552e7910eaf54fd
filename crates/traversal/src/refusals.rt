// What is refused to an open walk, in its order.
ghost use Rattle.std.specs.Prelude.{◌≡◌};
ghost use Rattle.searches.specs.Answer.{refusal_of};
ghost use Rattle.traversal.specs.State.{place_answer, take_back_answer};

use crate::Traversal;
use searches::{Refusal, Vertex};

impl Traversal {
    // The first of refusals 13, 14, 8, 24, 15 and 16, in this order, that applies to placing `vertex`, else `Ok`.
    pub(crate) fn place_refusal(&self, vertex: Vertex) -> Result<(), Refusal>
        ensures { refusal_of result ≡ place_answer self.now vertex.0 }
    {
        let Some(moment) = self.survey() else {
            return Err(Refusal::MalformedTraversal);
        };
        let v = vertex.0 as usize;
        // all that are not barred are placed
        if moment.free == 0 {
            return Err(Refusal::AllPlaced);
        }
        if self.n <= v {
            return Err(Refusal::VertexOutOfRange);
        }
        if bitset::contains(self.barred, v) {
            return Err(Refusal::BarredVertex);
        }
        if !bitset::contains(moment.free, v) {
            return Err(Refusal::AlreadyPlaced);
        }
        if !offers::is_open(&moment.labels, moment.free, vertex) {
            return Err(Refusal::NotOffered);
        }
        Ok(())
    }

    // The first of refusals 13 and 17 that applies to taking the last vertex back, else `Ok`.
    pub(crate) fn take_back_refusal(&self) -> Result<(), Refusal>
        ensures { refusal_of result ≡ take_back_answer self.now }
    {
        if self.survey().is_none() {
            return Err(Refusal::MalformedTraversal);
        }
        if self.k == 0 {
            return Err(Refusal::NothingToTakeBack);
        }
        Ok(())
    }
}
