ghost use Rattle.std.specs.Prelude.{◌≡◌};
ghost use Rattle.tokens.specs.Spots.{spot};

/// A place in a book: the byte, counted from 0, and the line, counted from 1.
#[derive(Clone, Copy, PartialEq, Eq, Debug)]
pub struct Spot {
    pub place: usize,
    pub line: usize,
}

/// The spot of a byte place: its line is one more than the line feeds before it.
///
/// A place past the end is after all of them.
pub fn spot_at(bytes: &[u8], place: usize) -> Spot
    ensures { result ≡ spot bytes.now place }
{
    let before = &bytes[..place.min(bytes.len())];
    // Added up, and not `filter(..).count()`: that takes half as long again.
    let mut line = 1;
    for byte in before {
        line += usize::from(*byte == b'\n');
    }
    Spot { place, line }
}
