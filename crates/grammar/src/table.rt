use crate::limited::Limited;
use crate::node::{Node, Operator};

/// How many expressions a book may have.
pub const MOST_EXPRESSIONS: usize = 512;

/// The expressions of a book, in the order in which they are written.
#[derive(Clone, Copy, Drop)]
pub struct Table {
    list: Limited<Node, MOST_EXPRESSIONS>,
}

#[tactic(auto, unfolding(crate::specs::Tables::laid))]
impl Table {
    ghost use Rattle.std.specs.Prelude.{◌≡◌, ◌≤◌, [], ◌∷◌, ◌++◌, length, if◌then◌else◌, Some, None, nat_lt, slice_index_or, slice_set};
    ghost use Rattle.grammar.specs.Tables.{laid, blank};

    /// A table with no expressions.
    pub fn new() -> Table
        ensures { laid result ≡ [] }
    {
        Table {
            list: Limited::new(),
        }
    }

    /// How many expressions are there.
    pub fn count(&self) -> u16
        ensures { result ≡ length (laid self.now) }
    {
        self.list.count() as u16
    }

    /// The expressions.
    pub fn nodes(&self) -> &[Node]
        ensures nodes { result.now ≡ laid self.now }
        ensures within { length result.now ≤ 512 }
    {
        self.list.as_slice()
    }

    /// The expression with this number; past the last it is blank.
    // No `Option`: callers were promised a blank node. `nodes().get(..)` has one.
    #[tactic(auto, using(crate::proofs::Counted::counted), unfolding(crate::specs::Tables::laid))]
    pub fn node(&self, i: u16) -> Node
        ensures { result ≡ slice_index_or (laid self.now) i blank }
    {
        self.list.get(usize::from(i)).unwrap_or(Node::default())
    }

    /// Leaves room for an expression whose parts come after it; answers its number, or none when
    /// the table is full.
    pub fn reserve(&mut self) -> Option<u16>
        ensures slot { result ≡ (if nat_lt (length (laid self.old)) 512 then Some (length (laid self.old)) else None) }
        ensures laid { laid self.new ≡ (if nat_lt (length (laid self.old)) 512 then laid self.old ++ (blank ∷ []) else laid self.old) }
    {
        let slot = self.list.count();
        if slot < MOST_EXPRESSIONS {
            self.list.push(Node::default());
            Some(slot as u16)
        } else {
            None
        }
    }

    /// Fills the room with this number: the expression ends where the table does.
    pub fn fill(&mut self, slot: u16, operator: Operator, place: u16)
        ensures { laid self.new ≡ slice_set (laid self.old) slot (record { operator = operator; end = length (laid self.old); place = place }) }
    {
        let end = self.count();
        let node = Node {
            operator,
            end,
            place,
        };
        self.list.set(usize::from(slot), node);
    }
}
