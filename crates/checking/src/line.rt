ghost use Rattle.checking.specs.Lines.{Starts, Ends, Around};
ghost use Rattle.std.specs.Prelude.{length};

/// The bytes of one line, without its line feed: from `start` up to `end`.
// A `Range` would be no plainer: it is an iterator, and not `Copy`.
#[derive(Clone, Copy, PartialEq, Eq, Debug)]
pub struct Line {
    pub start: usize,
    pub end: usize,
}

impl Line {
    /// The line that a place stands on. A line feed stands at the end of the line that it closes, and a
    /// place past the bytes at the end of the last line.
    #[tactic(auto, using(crate::proofs::Splitting::starts_in_front, crate::proofs::Splitting::ends_in_rest))]
    pub fn around(bytes: &[u8], place: usize) -> Line
        ensures { Around bytes.now place result }
    {
        let place = place.min(bytes.len());
        let (before, after) = bytes.split_at(place);
        Line {
            start: line_start(before),
            end: place + line_end(after),
        }
    }
}

// Where the last line of the bytes starts.
fn line_start(bytes: &[u8]) -> usize
    ensures { Starts bytes.now (length bytes.now) result }
{
    bytes.iter().rposition(|b| *b == b'\n').map_or(0, |i| i + 1)
}

// Where the first line of the bytes ends.
fn line_end(bytes: &[u8]) -> usize
    ensures { Ends bytes.now 0 result }
{
    bytes
        .iter()
        .position(|b| *b == b'\n')
        .unwrap_or(bytes.len())
}
