ghost use Rattle.std.specs.Prelude.{◌≡◌};
ghost use Rattle.kinds.specs.Classes.{header_number, command_lawful, command_contains};
ghost use Rattle.std.proofs.Common.{rules};

use crate::class::Class;
use crate::kind::Kind;

/// The header of a card command: its four bytes as one number, the class byte highest.
#[derive(Clone, Copy, PartialEq, Eq, Debug)]
pub struct Header {
    number: u32,
}

impl Header {
    /// The header of these four bytes.
    pub fn new(cla: u8, ins: u8, p1: u8, p2: u8) -> Header
        ensures { result.number ≡ header_number cla ins p1 p2 }
    {
        Header {
            number: u32::from_be_bytes([cla, ins, p1, p2]),
        }
    }

    /// The header as one number.
    pub fn number(&self) -> u32
        ensures { result ≡ self.now.number }
    {
        self.number
    }
}

/// Command headers; a class is a mask (first) and a value (second) that has no bit outside the mask.
#[derive(Clone, Copy, PartialEq, Eq, Debug)]
pub struct CommandKind;

impl Kind for CommandKind {
    type Symbol = Header;

    ghost lawful = { λ _ c. command_lawful c };

    ghost contains = { λ _ c h. command_contains c h.number };

    ghost unlawful = { Prim.search rules };

    fn is_lawful(&self, class: Class) -> bool
        ensures { result ≡ command_lawful class }
    {
        class.second & class.first == class.second
    }

    fn contains(&self, class: Class, symbol: Header) -> bool
        ensures { result ≡ command_contains class symbol.number }
    {
        self.is_lawful(class) && symbol.number & class.first == class.second
    }
}
