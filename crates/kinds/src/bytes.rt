ghost use Rattle.std.specs.Prelude.{◌≡◌};
ghost use Rattle.kinds.specs.Classes.{byte_lawful, byte_contains};
ghost use Rattle.std.proofs.Common.{rules};

use crate::class::Class;
use crate::kind::Kind;

/// Bytes; a class is a range of them, its two ends included.
#[derive(Clone, Copy, PartialEq, Eq, Debug)]
pub struct ByteKind;

// The greatest byte that a range may end with.
const LAST_BYTE: u32 = 255;

impl Kind for ByteKind {
    type Symbol = u8;

    ghost lawful = { λ _ c. byte_lawful c };

    ghost contains = { λ _ c s. byte_contains c s };

    ghost unlawful = { Prim.search rules };

    fn is_lawful(&self, class: Class) -> bool
        ensures { result ≡ byte_lawful class }
    {
        class.first <= class.second && class.second <= LAST_BYTE
    }

    fn contains(&self, class: Class, symbol: u8) -> bool
        ensures { result ≡ byte_contains class symbol }
    {
        self.is_lawful(class) && (class.first..=class.second).contains(&u32::from(symbol))
    }
}
