ghost use Rattle.std.specs.Prelude.{IfOk};
ghost use Rattle.checking.specs.Checks.{Checked};

use crate::report::{put_acceptance, put_refusal};
use books::MOST_BYTES;
use kinds::ByteKind;
use station_with_books::{Answer, Request, serve};
use std::alloc::{AllocError, Global};

/// How many bytes are looked at: well above what a book may have, so that the fault of a book that is
/// too long can be seen.
pub const MOST_INPUT: usize = 131_072;

/// What is said of an input: whether a station for bytes accepts it as a book, and if not, why. Of an
/// input over the limit only that.
pub fn check(heap: Global, input: &[u8]) -> Result<Vec<u8>, AllocError>
    ensures { IfOk result (λ v. Checked input.now v.items) }
{
    let mut text = Vec::new(heap);
    if input.len() > MOST_INPUT {
        text.extend_from_slice(b"input too long\n")?;
        return Ok(text);
    }
    // A book is shown in as many bytes as it was loaded from.
    let room = input.len().min(MOST_BYTES);
    let mut buffer = vec![in heap; 0; room]?;
    let out = buffer.as_mut_slice();
    let requests = [Request::Load(input), Request::Show(room)];
    let mut answers = [Answer::Total(0); 2];
    serve(ByteKind, &requests, out, &mut answers);
    let [loaded, shown] = answers;
    // A station answers a load and a show in no other way.
    let Answer::Loaded(loaded) = loaded else {
        return Ok(text);
    };
    let Answer::Shown(shown) = shown else {
        return Ok(text);
    };
    match loaded {
        Ok(counts) => {
            // The buffer has room for it.
            let length = shown.unwrap();
            put_acceptance(&mut text, counts, &out[..length])?;
        }
        Err(fault) => put_refusal(&mut text, input, &fault)?,
    }
    Ok(text)
}
