// Tests on the arcs of a graph that is given as adjacency lists.
ghost use Rattle.std.specs.Prelude.{◌≡◌, ◌<◌};
ghost use Rattle.searches.specs.Ordering.{at};
ghost use Rattle.adjacency.specs.Layout.{size_of, arcs_listed, self_loop_in, one_way_in};
ghost use Rattle.adjacency.specs.LeadsBack.{Due, LedBack};

use crate::{Layout, neighbour, offset};

impl<'a> Layout<'a> {
    // Whether a vertex leads to itself.
    pub fn self_loop(self) -> bool
        ensures { result ≡ self_loop_in (size_of self.entry.offsets.now) (arcs_listed self.entry.offsets.now self.entry.neighbours.now) }
    {
        for u in 0..self.vertex_count() {
            if self.list_of(u).contains(&(u as u8)) {
                return true;
            }
        }
        false
    }

    // Whether `u` is due in the list of each of its neighbours. `due` has for each vertex the position in its own list up to which that list was met: the
    // vertices that lead to it come in ascending order, and its list has its neighbours in that order, so where every arc has an arc back, `u` is the next
    // one there. Where it is not, some arc has none back.
    fn leads_back(self, due: &mut [u16; 64], u: usize) -> bool
        requires { (u < size_of self.offsets.now) × Due self.offsets.now self.neighbours.now due.old (at self.offsets.now u) }
        ensures { LedBack self.entry.offsets.now self.entry.neighbours.now due.new u result }
    {
        for v in self.list_of(u) {
            let v = *v as usize;
            let next = due[v] as usize;
            if offset(self.offsets, v + 1) <= next {
                return false;
            }
            if neighbour(self.neighbours, next) != u {
                return false;
            }
            due[v] = due[v] + 1;
        }
        true
    }

    // Whether a vertex has an arc to one that has none back. Each position of the neighbour list is looked at once.
    pub fn one_way(self) -> bool
        ensures { result ≡ one_way_in (size_of self.entry.offsets.now) (arcs_listed self.entry.offsets.now self.entry.neighbours.now) }
    {
        let n = self.vertex_count();
        let mut due = [0u16; 64];
        due[..n].copy_from_slice(&self.offsets[..n]);
        for u in 0..n {
            if !self.leads_back(&mut due, u) {
                return true;
            }
        }
        false
    }
}
