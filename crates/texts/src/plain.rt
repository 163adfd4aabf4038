ghost use Rattle.std.specs.Prelude.{◌≡◌, length};
ghost use Rattle.std.specs.List.{slice_get};
ghost use Rattle.texts.specs.Lists.{plain_list, plain_cut};
ghost use Rattle.texts.specs.Short.{plain_short};

use crate::text::{MOST_SYMBOLS, Text};

/// The caller's symbols, as far as a text may go.
#[derive(Clone, Copy)]
pub struct Plain<'a, S> {
    symbols: &'a [S],
}

impl<'a, S: Copy> Plain<'a, S> {
    /// The text of these symbols.
    pub fn new(symbols: &'a [S]) -> Plain<'a, S>
        ensures { result.symbols.now ≡ symbols.now }
    {
        Plain { symbols }
    }
}

impl<'a, S: Copy> Text for Plain<'a, S> {
    type Symbol = S;

    ghost list = { λ t. plain_list t.symbols.now };

    ghost cut = { λ t. plain_cut t.symbols.now };

    ghost short = { λ t. plain_short t.symbols.now };

    #[tactic(auto, using(crate::proofs::Nth::length_plain))]
    fn len(&self) -> usize
        ensures { result ≡ length (plain_list self.now.symbols.now) }
    {
        self.symbols.len().min(MOST_SYMBOLS)
    }

    fn symbol(&self, place: usize) -> Option<S>
        ensures { result ≡ slice_get (plain_list self.now.symbols.now) place }
    {
        self.symbols[..self.len()].get(place).copied()
    }

    fn is_cut(&self) -> bool
        ensures { result ≡ plain_cut self.now.symbols.now }
    {
        self.symbols.len() > MOST_SYMBOLS
    }
}
