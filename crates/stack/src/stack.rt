ghost use Rattle.std.specs.Prelude.{◌≡◌, ◌+◌, ◌-◌, [], ◌∷◌, ◌++◌, length, if◌then◌else◌, ◌==◌, nat_lt, slice_set, Ok, Err, is_ok};
ghost use Rattle.stack.specs.Held.{held, last, front, Taken, SameLoan};

/// A stack of records in a slice that its owner lends.
///
/// It holds the first `depth` records of the slice, the top last: all of them if `depth` is greater
/// than the slice is long.
// The depth stands beside the slice, for the memory is lent: the libraries of this project use no heap.
#[derive(Drop)]
pub struct Stack<'a, R> {
    pub records: &'a mut [R],
    pub depth: usize,
}

impl<'a, R> Stack<'a, R> {
    /// An empty stack over a slice.
    pub fn new(records: &'a mut [R]) -> Stack<'a, R>
        ensures depth { result.depth ≡ 0 }
        ensures slice { result.records.now ≡ records.old }
        ensures lent { result.records.ghost_name ≡ records.entry.ghost_name }
    {
        Stack { records, depth: 0 }
    }
}

impl<R: Copy> Stack<'_, R> {
    /// How many records are held.
    pub fn len(&self) -> usize
        ensures { result ≡ length (held self.now) }
    {
        self.depth.min(self.records.len())
    }

    /// Whether no record is held.
    pub fn is_empty(&self) -> bool
        ensures { result ≡ (length (held self.now) == 0) }
    {
        self.len() == 0
    }

    /// The record that was pushed last, if one is held.
    pub fn top(&self) -> Option<R>
        ensures { result ≡ last (held self.now) }
    {
        self.records[..self.len()].last().copied()
    }

    /// Puts a record on the top, or hands it back if there is no room for it.
    pub fn push(&mut self, pushed: R) -> Result<(), R>
        ensures room { result ≡ (if nat_lt self.old.depth (length self.old.records.now) then Ok tt else Err pushed) }
        ensures held { held self.new ≡ (if is_ok result then held self.old ++ (pushed ∷ []) else held self.old) }
        ensures depth { self.new.depth ≡ (if is_ok result then self.old.depth + 1 else self.old.depth) }
        ensures slice { self.new.records.now ≡ (if is_ok result then slice_set self.old.records.now self.old.depth pushed else self.old.records.now) }
        ensures same { SameLoan self.old self.new }
    {
        if self.depth < self.records.len() {
            self.records[self.depth] = pushed;
            self.depth += 1;
            Ok(())
        } else {
            Err(pushed)
        }
    }

    /// Takes the top off, if a record is held. The slice stays as it is.
    #[tactic(auto, using(crate::proofs::Tops::taken_last))]
    pub fn pop(&mut self) -> Option<R>
        ensures top { result ≡ last (held self.old) }
        ensures held { held self.new ≡ front (held self.old) }
        ensures taken { Taken (held self.old) result (held self.new) }
        ensures depth { self.new.depth ≡ length (held self.old) - 1 }
        ensures slice { self.new.records.now ≡ self.old.records.now }
        ensures same { SameLoan self.old self.new }
    {
        let top = self.top();
        self.depth = self.len().saturating_sub(1);
        top
    }
}
