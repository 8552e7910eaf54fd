// Tests on a table of eight words a row.
ghost use Rattle.std.specs.Prelude.{◌≡◌, false, ◌+◌, ◌*◌, ◌<◌};
ghost use Rattle.bitset.specs.Below.{any_below};
ghost use Rattle.searches.specs.Table.{arcs_wide};
ghost use Rattle.admission.specs.Checked.{outside_in, one_sided_in, IsTable};

// A table of `n` rows, at most 512.
#[derive(Clone, Copy)]
pub struct Table<'a> {
    pub n: usize,
    pub words: &'a [u64],
    ghost sized: { IsTable n words.now },
}

impl<'a> Table<'a> {
    // Whether the row of `u` has a bit at or above `n`.
    fn row_outside(self, u: usize) -> bool
        requires { u < self.n }
        ensures { result ≡ outside_in self.entry.n self.entry.words.now u }
    {
        (0..8).any(|i| bitset::any_from(self.words[8 * u + i], self.n.saturating_sub(64 * i)))
    }

    // Whether one of the `n` rows has a bit at or above `n`.
    pub fn bit_outside(self) -> bool
        ensures { result ≡ any_below self.entry.n (outside_in self.entry.n self.entry.words.now) }
    {
        (0..self.n).any(|u| self.row_outside(u))
    }

    // Whether a vertex is in its own row.
    pub fn self_loop(self) -> bool
        ensures { result ≡ any_below self.entry.n (λ u. arcs_wide 8 self.entry.words.now u u) }
    {
        (0..self.n).any(|u| tables::contains(self.words, u, u))
    }

    // Whether a vertex of word `i` of the row of `u` does not have `u` in its own row. No row has a bit outside.
    fn word_one_way(self, u: usize, i: usize) -> bool
        requires { (u < self.n) × (i < 8) × (outside_in self.n self.words.now u ≡ false) }
        ensures { result ≡ any_below 64 (λ q. one_sided_in self.entry.words.now u (64 * i + q)) }
    {
        let below = 64 * i;
        let mut rest = self.words[8 * u + i];
        while rest != 0 {
            let v = below + bitset::smallest(rest);
            if !tables::contains(self.words, v, u) {
                return true;
            }
            rest = bitset::without_smallest(rest);
        }
        false
    }

    // Whether a vertex of the row of `u` does not have `u` in its own row.
    fn row_one_way(self, u: usize) -> bool
        requires { (u < self.n) × (outside_in self.n self.words.now u ≡ false) }
        ensures { result ≡ any_below 512 (one_sided_in self.entry.words.now u) }
    {
        (0..8).any(|i| self.word_one_way(u, i))
    }

    // Whether a vertex has an arc to one that has none back. No row has a bit outside.
    pub fn one_way(self) -> bool
        requires { any_below self.n (outside_in self.n self.words.now) ≡ false }
        ensures { result ≡ any_below self.entry.n (λ u. any_below self.entry.n (one_sided_in self.entry.words.now u)) }
    {
        (0..self.n).any(|u| self.row_one_way(u))
    }
}
