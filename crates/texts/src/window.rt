ghost use Rattle.std.specs.Prelude.{◌≡◌, length};
ghost use Rattle.std.specs.List.{slice_get};
ghost use Rattle.texts.specs.Lists.{window_list};
ghost use Rattle.std.proofs.Common.{rules};
ghost use Rattle.texts.specs.Short.{window_short};

use crate::text::Text;

/// A part of another text: without its first `skip` symbols, and of the rest the first `size`.
#[derive(Clone, Copy)]
pub struct Window<T> {
    pub below: T,
    pub skip: u16,
    pub size: u16,
}

impl<T: Text> Text for Window<T> {
    type Symbol = T::Symbol;

    ghost list = { λ w. window_list w.skip w.size (T.Text.list w.below) };

    ghost cut = { λ w. T.Text.cut w.below };

    ghost short = { Prim.search (rules, window_short) };

    fn len(&self) -> usize
        ensures { result ≡ length (window_list self.now.skip self.now.size (T.Text.list self.now.below)) }
    {
        let left = self.below.len().saturating_sub(usize::from(self.skip));
        left.min(usize::from(self.size))
    }

    fn symbol(&self, place: usize) -> Option<T::Symbol>
        ensures { result ≡ slice_get (window_list self.now.skip self.now.size (T.Text.list self.now.below)) place }
    {
        // this test comes first, so that the sum cannot wrap; `then` with `flatten` is no plainer
        if place < usize::from(self.size) {
            self.below.symbol(usize::from(self.skip) + place)
        } else {
            None
        }
    }

    fn is_cut(&self) -> bool
        ensures { result ≡ T.Text.cut self.now.below }
    {
        self.below.is_cut()
    }
}
