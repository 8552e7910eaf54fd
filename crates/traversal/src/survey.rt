// Whether an open walk is well formed.
ghost use Rattle.std.specs.Prelude.{◌≡◌, is_some, IfSome};
ghost use Rattle.traversal.specs.State.{well_formed, Surveyed};

use crate::Traversal;
use engine::after::{Moment, after};
use lookup::behind::{entry_used_from, row_used_from};

impl Traversal {
    // The unplaced vertices and the labels after the walk; none where the open walk is not well formed. Its walk is judged once.
    pub(crate) fn survey(&self) -> Option<Moment>
        ensures formed { is_some result ≡ well_formed self.now }
        ensures moment { IfSome result (λ moment. Surveyed self.now moment) }
    {
        if 64 < self.n
            || self.n < self.k
            || row_used_from(&self.rows, self.n)
            || entry_used_from(&self.ordering, self.k)
        {
            return None;
        }
        after(
            self.kind,
            self.mark,
            &self.rows[..self.n],
            self.barred,
            &self.ordering[..self.k],
        )
    }
}
