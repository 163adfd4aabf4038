ghost use Rattle.std.specs.Prelude.{◌≡◌, min, ◌++◌, length, take, drop};

use crate::text::Text;

/// Copies symbols of any text to the front of `out`, as many as both have, and answers how many.
pub fn copy_symbols<T: Text>(text: &T, out: &mut [T::Symbol]) -> usize
    ensures count { result ≡ min (length (T.Text.list text.now)) (length out.old) }
    ensures filled { out.new ≡ take result (T.Text.list text.now) ++ drop result out.old }
{
    for (place, slot) in out.iter_mut().enumerate() {
        let Some(symbol) = text.symbol(place) else {
            return place;
        };
        *slot = symbol;
    }
    out.len()
}
