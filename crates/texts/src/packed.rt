ghost use Rattle.std.specs.Prelude.{◌≡◌, ◌<◌, ◌≤◌, length, take};
ghost use Rattle.std.specs.List.{slice_get};
ghost use Rattle.texts.specs.Lists.{half_digit, packed_list, packed_cut};
ghost use Rattle.texts.specs.Short.{packed_short};

use crate::text::Text;

/// The most bytes that a packed text takes.
pub const MOST_BYTES: usize = 32_767;

/// The caller's bytes, each of them two hexadecimal digits: its high half, then its low half.
#[derive(Clone, Copy)]
pub struct Packed<'a> {
    // what was taken when the text was made: its length is fixed from then on
    bytes: &'a [u8],
    // whether there were more: `new` promises this field too, and the rest is not kept to count again
    cut: bool,
    ghost within: { length bytes.now ≤ 32767 },
}

impl<'a> Packed<'a> {
    /// The text of these bytes.
    #[tactic(auto, using(crate::proofs::Nth::taken, crate::proofs::Nth::taken_packed))]
    pub fn new(bytes: &'a [u8]) -> Packed<'a>
        ensures taken { result.bytes.now ≡ take 32767 bytes.now }
        ensures list { packed_list result.bytes.now ≡ packed_list bytes.now }
        ensures cut { result.cut ≡ packed_cut bytes.now }
    {
        let taken = bytes.len().min(MOST_BYTES);
        Packed {
            bytes: &bytes[..taken],
            cut: bytes.len() > MOST_BYTES,
        }
    }
}

// The digit of one half of a byte.
fn digit(half: u8) -> u8
    requires { half < 16 }
    ensures { result ≡ half_digit half }
{
    b"0123456789ABCDEF"[usize::from(half)]
}

impl<'a> Text for Packed<'a> {
    type Symbol = u8;

    ghost list = { λ t. packed_list t.bytes.now };

    ghost cut = { λ t. t.cut };

    ghost short = { λ t. packed_short t.bytes.now };

    #[tactic(auto, using(crate::proofs::Nth::length_packed))]
    fn len(&self) -> usize
        ensures { result ≡ length (packed_list self.now.bytes.now) }
    {
        2 * self.bytes.len()
    }

    fn symbol(&self, place: usize) -> Option<u8>
        ensures { result ≡ slice_get (packed_list self.now.bytes.now) place }
    {
        let byte = self.bytes.get(place / 2)?;
        let half = if place % 2 == 0 { byte / 16 } else { byte % 16 };
        Some(digit(half))
    }

    fn is_cut(&self) -> bool
        ensures { result ≡ self.now.cut }
    {
        self.cut
    }
}
