ghost use Rattle.std.specs.Prelude.{◌≡◌, ◌<◌, ◌++◌, Some, OnOk};
ghost use Rattle.checking.specs.Escapes.{escape_of, escapes, hex};

use arrayvec::ArrayVec;
use std::alloc::AllocError;
use std::fmt;

/// A byte as it is shown: a printable one as itself, a backslash twice, any other as `\x` and two
/// hexadecimal digits.
#[derive(Clone, Copy, PartialEq, Eq, Debug)]
pub struct Escape(pub u8);

impl Escape {
    /// The escape of a byte.
    pub fn new(byte: u8) -> Escape
        ensures { result.0 ≡ byte }
    {
        Escape(byte)
    }

    /// The bytes that it is shown as, at most four, for a caller with no formatter: nothing here can fail.
    pub fn bytes(&self) -> ArrayVec<u8, 4>
        ensures { result.items ≡ escape_of self.now.0 }
    {
        let byte = self.0;
        let mut bytes = ArrayVec::new();
        match byte {
            b'\\' => {
                bytes.push(b'\\');
                bytes.push(b'\\');
            }
            b' '..=b'~' => bytes.push(byte),
            _ => {
                bytes.push(b'\\');
                bytes.push(b'x');
                bytes.push(digit(byte / 16));
                bytes.push(digit(byte % 16));
            }
        }
        bytes
    }
}

// The hexadecimal digit of half a byte, in small letters. `texts` has the capitals, and neither crate
// rests on the other.
fn digit(half: u8) -> u8
    requires { half < 16 }
    ensures { result ≡ hex half }
{
    b"0123456789abcdef"[usize::from(half)]
}

impl fmt::Display for Escape {
    ghost output = { λ e. Some (escape_of e.0) };

    fn fmt<W: fmt::Write>(&self, f: &mut fmt::Formatter<W>) -> fmt::Result {
        let byte = self.0;
        match byte {
            b'\\' => f.write_str("\\\\"),
            b' '..=b'~' => write!(f, "{}", char::from(byte)),
            _ => write!(f, "\\x{byte:02x}"),
        }
    }
}

/// Bytes as they are shown, one after another.
#[derive(Clone, Copy, PartialEq, Eq, Debug)]
pub struct Escapes<'a>(pub &'a [u8]);

impl fmt::Display for Escapes<'_> {
    ghost output = { λ e. Some (escapes e.0.now) };

    fn fmt<W: fmt::Write>(&self, f: &mut fmt::Formatter<W>) -> fmt::Result {
        for byte in self.0 {
            write!(f, "{}", Escape(*byte))?;
        }
        Ok(())
    }
}

/// Puts bytes at the end of a text as they are shown, one after another.
// Straight into the text, and not by `Display`: where the text has room, nothing is allocated.
pub fn put_escaped(text: &mut Vec<u8>, bytes: &[u8]) -> Result<(), AllocError>
    ensures { OnOk result (text.new.items ≡ text.old.items ++ escapes bytes.now) }
{
    for byte in bytes {
        let shown = Escape::new(*byte).bytes();
        // most bytes stand for themselves, and one byte is put faster than a slice
        match shown.as_slice() {
            [one] => text.push(*one)?,
            more => text.extend_from_slice(more)?,
        }
    }
    Ok(())
}
