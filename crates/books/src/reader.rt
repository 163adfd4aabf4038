ghost use Rattle.std.specs.Prelude.{◌≤◌, length};

mod exprs;
mod lines;
mod steps;

/// Where the reading of a book stands.
#[derive(Drop)]
pub(crate) struct Reader<'a> {
    bytes: &'a [u8],
    at: usize,
    ghost within: { at ≤ length bytes.now },
    ghost short: { length bytes.now ≤ 32768 },
}
