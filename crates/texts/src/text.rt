ghost use Rattle.std.specs.Prelude.{◌≡◌, ◌≤◌, Bool, List, length};
ghost use Rattle.std.specs.List.{slice_get};

/// The most symbols that a text has.
pub const MOST_SYMBOLS: usize = 65_535;

/// A text: a list of at most 65,535 symbols, and whether it was cut short.
///
/// The three questions may be asked at any time, in any order and of any place; they change nothing.
pub trait Text {
    type Symbol: Copy;

    // the symbols
    ghost list: { Self → List Self.Symbol };

    // whether there were more symbols than the list has
    ghost cut: { Self → Bool };

    /// How many symbols there are.
    fn len(&self) -> usize
        ensures { result ≡ length (list self.now) };

    /// The symbol at a place, counted from 0; none at or past the length.
    fn symbol(&self, place: usize) -> Option<Self::Symbol>
        ensures { result ≡ slice_get (list self.now) place };

    /// Whether the text was cut short.
    fn is_cut(&self) -> bool
        ensures { result ≡ cut self.now };

    // the list is no longer than a text may be
    ghost short: { (t : Self) → length (list t) ≤ 65535 };
}
