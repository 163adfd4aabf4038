ghost use Rattle.std.specs.Prelude.{◌≡◌, slice_index};
ghost use Rattle.grammar.specs.Tables.{listed};

use crate::limited::Limited;

/// How many rules a book may have.
pub const MOST_RULES: usize = 32;

/// For each rule of a book, the number of its expression in the table.
pub type Roots = Limited<u16, MOST_RULES>;

impl Limited<u16, MOST_RULES> {
    /// The number of the expression of the rule with this number; past the last it is 0.
    // No `Option`: callers were promised a number. `get` has one.
    #[tactic(auto, using(crate::proofs::Counted::counted), unfolding(crate::specs::Tables::listed))]
    pub fn root(&self, i: u8) -> u16
        ensures { result ≡ slice_index (listed self.now) i }
    {
        self.get(usize::from(i)).unwrap_or(0)
    }
}
