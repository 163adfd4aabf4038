ghost use Rattle.std.specs.Prelude.{◌≡◌, Bool, false};
ghost use Rattle.kinds.specs.declared.class.Class.{Class};

use crate::class::Class;

/// A kind of symbol: its sort of symbol, and what the two numbers of a class mean.
pub trait Kind {
    type Symbol: Copy;

    // the lawful classes
    ghost lawful: { Self → Class → Bool };

    // the symbols that lie in a class
    ghost contains: { Self → Class → Self.Symbol → Bool };

    /// Whether the class is lawful.
    fn is_lawful(&self, class: Class) -> bool
        ensures { result ≡ lawful self.now class };

    /// Whether the symbol lies in the class.
    fn contains(&self, class: Class, symbol: Self::Symbol) -> bool
        ensures { result ≡ contains self.now class symbol };

    // no symbol lies in an unlawful class
    ghost unlawful: { (k : Self) (c : Class) (s : Self.Symbol) → lawful k c ≡ false → contains k c s ≡ false };
}
