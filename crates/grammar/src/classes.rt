ghost use Rattle.std.specs.Prelude.{◌≡◌, slice_index_or};
ghost use Rattle.grammar.specs.Tables.{listed, no_class};

use crate::limited::Limited;
use kinds::Class;

/// How many classes a book may have.
pub const MOST_CLASSES: usize = 64;

/// The classes of a book.
pub type Classes = Limited<Class, MOST_CLASSES>;

impl Limited<Class, MOST_CLASSES> {
    /// The class with this number; past the last it is blank.
    // No `Option`: callers were promised a class. `get` has one.
    #[tactic(auto, using(crate::proofs::Counted::counted), unfolding(crate::specs::Tables::listed))]
    pub fn class(&self, i: u8) -> Class
        ensures { result ≡ slice_index_or (listed self.now) i no_class }
    {
        self.get(usize::from(i)).unwrap_or(Class::default())
    }
}
