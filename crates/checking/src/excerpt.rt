ghost use Rattle.std.specs.Prelude.{◌≡◌};
ghost use Rattle.checking.specs.Excerpts.{excerpt_of, cut_before, cut_after};

use crate::line::Line;

/// How many bytes of a line are shown before the place, at most.
pub const BYTES_BEFORE: usize = 40;

/// How many bytes of a line are shown from the place on, at most.
pub const BYTES_AFTER: usize = 20;

/// The part of a line that is shown around a place: the bytes from `from` up to `to`.
#[derive(Clone, Copy, PartialEq, Eq, Debug)]
pub struct Excerpt {
    pub line: Line,
    pub from: usize,
    pub to: usize,
}

impl Excerpt {
    /// The part of a line that is shown around a place: at most 40 bytes before the place and 20 from it
    /// on, so that the caret stays in view however long the line is.
    pub fn around(line: Line, place: usize) -> Excerpt
        ensures { result ≡ excerpt_of line place }
    {
        Excerpt {
            line,
            from: place.saturating_sub(BYTES_BEFORE).max(line.start),
            to: place.saturating_add(BYTES_AFTER).min(line.end),
        }
    }

    /// Whether bytes of the line before it are left out.
    pub fn is_cut_before(&self) -> bool
        ensures { result ≡ cut_before self.now }
    {
        self.line.start < self.from
    }

    /// Whether bytes of the line after it are left out.
    pub fn is_cut_after(&self) -> bool
        ensures { result ≡ cut_after self.now }
    {
        self.to < self.line.end
    }
}
