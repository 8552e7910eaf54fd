// Two unplaced vertices of an open walk, compared.
ghost use Rattle.std.specs.Prelude.{◌≡◌};
ghost use Rattle.traversal.specs.Compare.{compare_answer, report_of};

use crate::Traversal;
use searches::{Comparison, Refusal, Vertex};

impl Traversal {
    // The first of refusals 13, 8, 24 and 15, in this order, that applies to either vertex, else how `first` stands to `second`.
    pub(crate) fn standing(&self, first: Vertex, second: Vertex) -> Result<Comparison, Refusal>
        ensures { report_of result ≡ compare_answer self.now first.0 second.0 }
    {
        let Some(moment) = self.survey() else {
            return Err(Refusal::MalformedTraversal);
        };
        let u = first.0 as usize;
        let v = second.0 as usize;
        let outside = (self.n <= u) | (self.n <= v);
        let out_of_service = bitset::contains(self.barred, u) | bitset::contains(self.barred, v);
        let taken = !bitset::contains(moment.free, u) | !bitset::contains(moment.free, v);
        if outside {
            return Err(Refusal::VertexOutOfRange);
        }
        if out_of_service {
            return Err(Refusal::BarredVertex);
        }
        if taken {
            return Err(Refusal::AlreadyPlaced);
        }
        let c = moment.labels.profile(first);
        let b = moment.labels.profile(second);
        Ok(labels::compare(self.kind, c, b))
    }
}
