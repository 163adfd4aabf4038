ghost use Rattle.std.specs.Prelude.{◌≡◌, ℕ, List, ◌++◌, OnOk};
ghost use Rattle.checking.specs.Pointing.{dots, Points};

use crate::escape::put_escaped;
use crate::excerpt::Excerpt;
use crate::line::Line;
use std::alloc::AllocError;

/// Puts two lines at the end of a text: the line that a place stands on, as it is shown, and below
/// it a caret under the place. Of a long line only a part is shown, with three dots at a cut end.
// Straight into the text, and not by `format!`: where the text has room, nothing is allocated.
pub fn put_pointer(text: &mut Vec<u8>, bytes: &[u8], place: usize) -> Result<(), AllocError>
    ensures { OnOk result ((shown : List ℕ) × Points bytes.now place shown × (text.new.items ≡ text.old.items ++ shown)) }
{
    let line = Line::around(bytes, place);
    let place = place.min(bytes.len());
    let shown = Excerpt::around(line, place);
    let Excerpt { from, to, .. } = shown;
    let start = text.len();
    text.extend_from_slice(dots(shown.is_cut_before()).as_bytes())?;
    put_escaped(text, &bytes[from..place])?;
    let column = text.len() - start;
    put_escaped(text, &bytes[place..to])?;
    text.extend_from_slice(dots(shown.is_cut_after()).as_bytes())?;
    text.extend_from_slice(b"\n")?;
    text.resize(text.len() + column, b' ')?;
    text.extend_from_slice(b"^\n")?;
    Ok(())
}

// Three dots where a line is cut.
fn dots(cut: bool) -> &'static str
    ensures { result.now ≡ dots cut }
{
    if cut { "..." } else { "" }
}
