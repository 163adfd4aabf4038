ghost use Rattle.std.specs.Prelude.{◌≡◌, ℕ, IfOk, MatchOption};
ghost use Rattle.field.specs.Words.{Number};

use std::alloc::{AllocError, Global};
use texts::{Text, copy_symbols};

/// The part of a text that was asked for.
#[derive(Clone, Copy, PartialEq, Eq, Debug)]
pub struct Field {
    pub skip: u16,
    pub size: u16,
}

impl Field {
    /// The field that two words ask for, each a number from 0 to 65,535; nothing if one is not.
    pub fn parse(skip: &str, size: &str) -> Option<Field>
        ensures { MatchOption result ((m n : ℕ) → Number skip.now m → Number size.now n → ⊥) (λ f. Number skip.now f.skip × Number size.now f.size) }
    {
        Some(Field {
            skip: skip.parse().ok()?,
            size: size.parse().ok()?,
        })
    }
}

/// The symbols of a text over bytes.
pub fn symbols_of<T: Text<Symbol = u8>>(heap: Global, text: &T) -> Result<Vec<u8>, AllocError>
    ensures { IfOk result (λ v. v.items ≡ T.Text.list text.now) }
{
    let mut symbols = vec![in heap; 0; text.len()]?;
    copy_symbols(text, &mut symbols);
    Ok(symbols)
}
