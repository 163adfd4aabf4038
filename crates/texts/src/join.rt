ghost use Rattle.std.specs.Prelude.{◌≡◌, length};
ghost use Rattle.std.specs.List.{slice_get};
ghost use Rattle.texts.specs.Lists.{join_list, join_cut};
ghost use Rattle.texts.specs.Short.{join_short};

use crate::text::{MOST_SYMBOLS, Text};

/// Two texts, one after the other, as far as a text may go.
#[derive(Clone, Copy)]
pub struct Join<A, B> {
    pub front: A,
    pub back: B,
}

impl<A: Text, B: Text<Symbol = A::Symbol>> Text for Join<A, B> {
    type Symbol = A::Symbol;

    ghost list = { λ j. join_list (A.Text.list j.front) (B.Text.list j.back) };

    ghost cut = { λ j. join_cut (A.Text.cut j.front) (B.Text.cut j.back) (A.Text.list j.front) (B.Text.list j.back) };

    ghost short = { λ j. join_short (A.Text.list j.front) (B.Text.list j.back) };

    #[tactic(auto, using(crate::proofs::Nth::length_join))]
    fn len(&self) -> usize
        ensures { result ≡ length (join_list (A.Text.list self.now.front) (B.Text.list self.now.back)) }
    {
        let both = self.front.len() + self.back.len();
        both.min(MOST_SYMBOLS)
    }

    fn symbol(&self, place: usize) -> Option<A::Symbol>
        ensures { result ≡ slice_get (join_list (A.Text.list self.now.front) (B.Text.list self.now.back)) place }
    {
        if place >= MOST_SYMBOLS {
            return None;
        }
        let middle = self.front.len();
        if place < middle {
            self.front.symbol(place)
        } else {
            self.back.symbol(place - middle)
        }
    }

    fn is_cut(&self) -> bool
        ensures { result ≡ join_cut (A.Text.cut self.now.front) (B.Text.cut self.now.back) (A.Text.list self.now.front) (B.Text.list self.now.back) }
    {
        self.front.is_cut()
            || self.back.is_cut()
            || self.front.len() + self.back.len() > MOST_SYMBOLS
    }
}
