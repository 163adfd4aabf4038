ghost use Rattle.std.specs.Prelude.{◌≡◌, ℕ, ◌+◌, ◌≤◌, List, ◌&&◌, ◌||◌, ◌==◌, length, take, drop, slice_index, if◌then◌else◌, Some, None, MatchOption, MatchResult, nat_lt};
ghost use Rattle.std.specs.List.{prefix_len};
ghost use Rattle.tokens.specs.Out.{ok, no};
ghost use Rattle.tokens.specs.Spots.{spot};
ghost use Rattle.tokens.specs.Lexing.{letter, digit, value, word_of, number_token, lexing};
ghost use Rattle.tokens.specs.declared.token.Token.TheVariants.{Number};
ghost use Rattle.tokens.specs.declared.token.TokenFault.TheVariants.{BadNumber};

use crate::spot::spot_at;
use crate::token::{Token, TokenFault, Word};

// The number that the digits write, unless it has a needless zero or is too great.
#[tactic(auto, using(crate::proofs::Lexes::too_great))]
fn number(digits: &[u8]) -> Option<u32>
    ensures { result ≡ (if (slice_index digits.now 0 == 48 && nat_lt 1 (length digits.now)) || nat_lt 4294967295 (value 0 digits.now) then None else Some (value 0 digits.now)) }
{
    if let [b'0', _, ..] = digits {
        return None;
    }
    let mut sum = 0u32;
    for digit in digits {
        sum = sum
            .checked_mul(10)?
            .checked_add(u32::from(digit.saturating_sub(b'0')))?;
    }
    Some(sum)
}

// The word at the front of the bytes, and how many letters it has.
fn cut_word(bytes: &[u8]) -> (Word, usize)
    ensures word { result.0 ≡ word_of (take result.1 bytes.now) }
    ensures width { result.1 ≡ prefix_len letter bytes.now }
{
    let width = bytes.iter().take_while(|b| b.is_ascii_lowercase()).count();
    (Word::from(&bytes[..width]), width)
}

// The number at the front of the bytes, if it is one that a book may write, and how many digits it has.
fn cut_number(bytes: &[u8]) -> Option<(u32, usize)>
    ensures { (book : List ℕ) (at : ℕ) → let n = prefix_len digit bytes.now in MatchOption result
        (number_token book at n bytes.now ≡ no (BadNumber (spot book at)))
        (λ p. (number_token book at n bytes.now ≡ ok (Number p.0) (at + p.1) (drop p.1 bytes.now)) × (p.1 ≤ length bytes.now)) }
{
    let width = bytes.iter().take_while(|b| b.is_ascii_digit()).count();
    number(&bytes[..width]).map(|number| (number, width))
}

/// The token that begins at the place `at`, and the place after it.
///
/// At or past the end of the bytes it is the token `End`, which takes up no bytes.
pub fn next_token(bytes: &[u8], at: usize) -> Result<(Token, usize), TokenFault>
    ensures { MatchResult result
        (λ p. (lexing bytes.now at (drop at bytes.now) ≡ ok p.0 p.1 (drop p.1 bytes.now))
        × (at ≤ length bytes.now → p.1 ≤ length bytes.now))
        (λ e. lexing bytes.now at (drop at bytes.now) ≡ no e) }
{
    let rest = bytes.get(at..).unwrap_or_default();
    match rest {
        [] => Ok((Token::End, at)),
        [b'(', ..] => Ok((Token::Open, at + 1)),
        [b')', ..] => Ok((Token::Close, at + 1)),
        [b' ', ..] => Ok((Token::Space, at + 1)),
        [b'\n', ..] => Ok((Token::Feed, at + 1)),
        [b'a'..=b'z', ..] => {
            let (word, width) = cut_word(rest);
            Ok((Token::Letters(word), at + width))
        }
        [b'0'..=b'9', ..] => {
            let bad = || TokenFault::BadNumber(spot_at(bytes, at));
            let (number, width) = cut_number(rest).ok_or_else(bad)?;
            Ok((Token::Number(number), at + width))
        }
        _ => Err(TokenFault::Stray(spot_at(bytes, at))),
    }
}
