use crate::lexer::next_token;
use crate::spot::{Spot, spot_at};
use crate::token::{Token, TokenFault, Word};

// Whether this token stands at `at`, and the next place is `next`.
fn gives(bytes: &[u8], at: usize, token: Token, next: usize) -> bool {
    next_token(bytes, at) == Ok((token, next))
}

fn word(letters: &[u8], word: Word) -> bool {
    Word::from(letters) == word && gives(letters, 0, Token::Letters(word), letters.len())
}

// Whether there is this fault in the place of a token, and on this line.
fn refused<F: Fn(Spot) -> TokenFault>(fault: F, bytes: &[u8], place: usize, line: usize) -> bool
    requires { F.IsAlwaysCallable fault }
{
    next_token(bytes, place) == Err(fault(Spot { place, line }))
}

fn lies_on(bytes: &[u8], place: usize, line: usize) -> bool {
    spot_at(bytes, place) == Spot { place, line }
}

#[test]
fn tokens_of_a_line(rt: HostRuntime) {
    let line = b"(rule 17)\n";
    assert!(rt; gives(line, 0, Token::Open, 1));
    assert!(rt; gives(line, 1, Token::Letters(Word::Rule), 5));
    assert!(rt; gives(line, 5, Token::Space, 6));
    assert!(rt; gives(line, 6, Token::Number(17), 8));
    assert!(rt; gives(line, 8, Token::Close, 9));
    assert!(rt; gives(line, 9, Token::Feed, 10));
}

#[test]
fn nothing_is_left_at_the_end_and_past_it(rt: HostRuntime) {
    assert!(rt; gives(b"", 0, Token::End, 0));
    assert!(rt; gives(b"()\n", 3, Token::End, 3));
    assert!(rt; gives(b"()\n", 4, Token::End, 4));
    assert!(rt; gives(b"()\n", usize::MAX, Token::End, usize::MAX));
}

#[test]
fn words(rt: HostRuntime) {
    assert!(rt; word(b"class", Word::Class));
    assert!(rt; word(b"rule", Word::Rule));
    assert!(rt; word(b"empty", Word::Empty));
    assert!(rt; word(b"any", Word::Any));
    assert!(rt; word(b"term", Word::Term));
    assert!(rt; word(b"call", Word::Call));
    assert!(rt; word(b"seq", Word::Seq));
    assert!(rt; word(b"alt", Word::Alt));
    assert!(rt; word(b"star", Word::Star));
    assert!(rt; word(b"not", Word::Not));
}

#[test]
fn words_are_the_longest_runs_of_letters(rt: HostRuntime) {
    assert!(rt; word(b"z", Word::Other));
    assert!(rt; word(b"rul", Word::Other));
    assert!(rt; word(b"rules", Word::Other));
    assert!(rt; gives(b"any1", 0, Token::Letters(Word::Any), 3));
    assert!(rt; gives(b"anyAny", 0, Token::Letters(Word::Any), 3));
    assert!(rt; gives(b"many", 1, Token::Letters(Word::Any), 4));
}

#[test]
fn numbers_are_the_longest_runs_of_digits(rt: HostRuntime) {
    assert!(rt; gives(b"0", 0, Token::Number(0), 1));
    assert!(rt; gives(b"0)", 0, Token::Number(0), 1));
    assert!(rt; gives(b"90a", 0, Token::Number(90), 2));
    assert!(rt; gives(b"4294967295 ", 0, Token::Number(4_294_967_295), 10));
    // a place inside a run begins a run
    assert!(rt; gives(b"00", 1, Token::Number(0), 2));
}

#[test]
fn bad_numbers(rt: HostRuntime) {
    assert!(rt; refused(TokenFault::BadNumber, b"00", 0, 1));
    assert!(rt; refused(TokenFault::BadNumber, b"01", 0, 1));
    assert!(rt; refused(TokenFault::BadNumber, b"4294967296", 0, 1));
    assert!(rt; refused(TokenFault::BadNumber, b"\n\n 04294967295", 3, 3));
    assert!(rt; refused(TokenFault::BadNumber, &[b'9'; 100], 0, 1));
    assert!(rt; refused(TokenFault::BadNumber, &[b'0'; 100], 0, 1));
}

#[test]
fn stray_bytes(rt: HostRuntime) {
    assert!(rt; refused(TokenFault::Stray, b"Rule", 0, 1));
    assert!(rt; refused(TokenFault::Stray, b"(\t", 1, 1));
    assert!(rt; refused(TokenFault::Stray, b"\r\n", 0, 1));
    assert!(rt; refused(TokenFault::Stray, b"()\n(\x80", 4, 2));
    assert!(rt; refused(TokenFault::Stray, b"\xff", 0, 1));
    assert!(rt; refused(TokenFault::Stray, b"\0", 0, 1));
    // the neighbours of digits and of letters
    assert!(rt; refused(TokenFault::Stray, b"/:`{", 0, 1));
    assert!(rt; refused(TokenFault::Stray, b"/:`{", 1, 1));
    assert!(rt; refused(TokenFault::Stray, b"/:`{", 2, 1));
    assert!(rt; refused(TokenFault::Stray, b"/:`{", 3, 1));
}

#[test]
fn lines_of_spots(rt: HostRuntime) {
    assert!(rt; lies_on(b"", 0, 1));
    assert!(rt; lies_on(b"a\n\nb", 1, 1));
    assert!(rt; lies_on(b"a\n\nb", 2, 2));
    assert!(rt; lies_on(b"a\n\nb", 3, 3));
    assert!(rt; lies_on(b"a\n", 2, 2));
    assert!(rt; lies_on(b"a\n", usize::MAX, 2));
}
