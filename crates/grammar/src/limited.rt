ghost use Rattle.std.specs.Prelude.{◌≡◌, ◌≤◌, Ok, length, ⊤};

use std::alloc::AllocError;

/// A list of at most `MOST` items, kept in the value itself: no heap.
// Not the kit's `ArrayVec`: that is not `Copy`, and the lists of a book always were, so a caller may rely on it.
#[derive(Copy, Drop)]
pub struct Limited<T, const MOST: usize> {
    list: [T; MOST],
    count: usize,
    ghost within: { (length list ≡ MOST) × (count ≤ MOST) },
}

// No derive writes this over a ghost field with a type parameter beside it.
impl<T: Copy, const MOST: usize> Clone for Limited<T, MOST> {
    ghost is_clone = { λ x y. y ≡ x };

    ghost is_infallible = { λ _. ⊤ };

    fn clone(&self) -> Result<Limited<T, MOST>, AllocError> {
        Ok(*self)
    }
}

#[tactic(auto, unfolding(crate::specs::Tables::listed))]
impl<T: Copy, const MOST: usize> Limited<T, MOST> {
    ghost use Rattle.std.specs.Prelude.{◌≡◌, ◌≤◌, [], ◌∷◌, ◌++◌, length, if◌then◌else◌, nat_lt, slice_get, slice_set};
    ghost use Rattle.grammar.specs.Tables.{listed};

    /// A list with no items.
    pub fn new() -> Limited<T, MOST>
    where
        T: Default,
        ensures { listed result ≡ [] }
    {
        Limited {
            list: [T::default(); MOST],
            count: 0,
        }
    }

    /// How many items are there.
    pub fn count(&self) -> usize
        ensures count { result ≡ length (listed self.now) }
        ensures within { result ≤ MOST }
    {
        self.count
    }

    /// The items.
    pub fn as_slice(&self) -> &[T]
        ensures list { result.now ≡ listed self.now }
        ensures within { length result.now ≤ MOST }
    {
        &self.list[..self.count]
    }

    /// The item with this number, if there is one.
    pub fn get(&self, i: usize) -> Option<T>
        ensures { result ≡ slice_get (listed self.now) i }
    {
        self.as_slice().get(i).copied()
    }

    /// Adds an item, if there is room.
    pub fn push(&mut self, item: T)
        ensures { listed self.new ≡ (if nat_lt (length (listed self.old)) MOST then listed self.old ++ (item ∷ []) else listed self.old) }
    {
        if self.count < MOST {
            self.list[self.count] = item;
            self.count += 1;
        }
    }

    // Puts an item in the place of the one with this number, if there is one.
    #[tactic(auto, using(crate::proofs::Counted::counted), unfolding(crate::specs::Tables::listed))]
    pub(crate) fn set(&mut self, i: usize, item: T)
        ensures { listed self.new ≡ slice_set (listed self.old) i item }
    {
        if i < self.count {
            self.list[i] = item;
        }
    }
}
