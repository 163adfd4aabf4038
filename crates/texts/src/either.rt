ghost use Rattle.std.specs.Prelude.{◌≡◌, length};
ghost use Rattle.std.specs.List.{slice_get};
ghost use Rattle.texts.specs.Lists.{either};
ghost use Rattle.std.proofs.Common.{rules};
ghost use Rattle.texts.specs.Short.{either_short};

use crate::text::Text;

/// One of two texts over the same symbols, so that one list can mix texts of any sort.
// The library's `Either` has other names for its two cases; these are exported and were delivered.
#[derive(Clone, Copy)]
pub enum Either<A, B> {
    First(A),
    Second(B),
}

impl<A: Text, B: Text<Symbol = A::Symbol>> Text for Either<A, B> {
    type Symbol = A::Symbol;

    ghost list = { λ e. either A.Text.list B.Text.list e };

    ghost cut = { λ e. either A.Text.cut B.Text.cut e };

    ghost short = { Prim.search (rules, either_short) };

    fn len(&self) -> usize
        ensures { result ≡ length (either A.Text.list B.Text.list self.now) }
    {
        match self {
            Either::First(text) => text.len(),
            Either::Second(text) => text.len(),
        }
    }

    fn symbol(&self, place: usize) -> Option<A::Symbol>
        ensures { result ≡ slice_get (either A.Text.list B.Text.list self.now) place }
    {
        match self {
            Either::First(text) => text.symbol(place),
            Either::Second(text) => text.symbol(place),
        }
    }

    fn is_cut(&self) -> bool
        ensures { result ≡ either A.Text.cut B.Text.cut self.now }
    {
        match self {
            Either::First(text) => text.is_cut(),
            Either::Second(text) => text.is_cut(),
        }
    }
}
