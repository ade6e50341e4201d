//! The tokens of a text, one at a time and without a list of them (PGSolver's manual). Numbers, commas and semicolons are the
//! common ones and stay in one small function; words and names are out of line. A number of any length is read in 64 bits,
//! since its value stops growing once it is above the limit.

ghost use Rattle.std.specs.Prelude.{◌≡◌, ◌≢◌, ◌+◌, ◌<◌, ◌≤◌, nat_lt, length, slice_index, false, MatchOption, IfSome};
ghost use Rattle.pg_game.specs.Specification.{max_number};
ghost use Rattle.pg_text.specs.Bytes as bytes;
ghost use Rattle.pg_text.specs.Token.{Word};
ghost use Rattle.pg_text.specs.private.Lexeme.{kind_of, value_in, IsLexemeOf, IsNextLexeme, IsRangeOf, IsWholeRun, IsWholeNumber};
ghost use Rattle.pg_text.specs.private.Reach.{SpellsRest, IsBadFrom};

use memchr::memchr;

/// What a token is, or what is in its place: the text's end, or a byte that begins no token. The grammars have three words. A
/// number above the limit is read as 2147483648.
#[derive(Clone, Copy)]
pub enum TokenKind {
    Number(u32),
    Parity,
    Paritysol,
    Start,
    OtherWord,
    Name,
    Comma,
    Semicolon,
    End,
    Invalid,
}

impl TokenKind {
    /// Whether it is a number above the limit.
    #[inline(always)]
    pub fn is_large(self) -> bool
        ensures { result ≡ nat_lt max_number (value_in self) }
    {
        match self {
            TokenKind::Number(value) => u64::from(value) > GREATEST,
            _ => false,
        }
    }
}

/// A token of a text, or what is in its place.
#[derive(Clone, Copy)]
pub struct Lexeme {
    pub kind: TokenKind,
    pub from: usize,
    pub to: usize,
}

/// The next token of the text, from a place on.
#[inline(always)]
pub fn next_token(text: &[u8], at: usize) -> Lexeme
    requires { at ≤ length text.now }
    ensures token { IsNextLexeme text.now at result }
    ensures range { IsRangeOf text.now result.from result.to }
{
    let from = blanks_end(text, at);
    if from >= text.len() {
        return Lexeme {
            kind: TokenKind::End,
            from,
            to: from,
        };
    }
    let (kind, to) = token_at(text, from);
    Lexeme { kind, from, to }
}

/// The first place from `at` on that begins no token.
#[inline(never)]
pub fn first_invalid(text: &[u8], at: usize) -> Option<usize>
    requires { at ≤ length text.now }
    ensures place { MatchOption result (SpellsRest text.now at) (λ bad. IsBadFrom text.now at bad) }
    ensures within { IfSome result (λ bad. bad ≤ length text.now) }
{
    let mut next = at;
    'tokens: loop {
        let lexeme = next_token(text, next);
        match lexeme.kind {
            TokenKind::Invalid => return Some(lexeme.from),
            TokenKind::End => return None,
            _ => next = lexeme.to,
        }
    }
}

/// The token that begins at a place, or that none does; and the place after it.
#[inline(always)]
fn token_at(text: &[u8], from: usize) -> (TokenKind, usize)
    requires inside { from < length text.now }
    requires solid { bytes.is_blank (slice_index text.now from) ≡ false }
    ensures token { IsLexemeOf result.0 text.now from from result.1 }
    ensures range { IsRangeOf text.now from result.1 }
{
    let first = text[from];
    if is_digit(first) {
        let (value, to) = read_number(text, from);
        return (TokenKind::Number(value), to);
    }
    match first {
        b',' => (TokenKind::Comma, from + 1),
        b';' => (TokenKind::Semicolon, from + 1),
        _ => word_or_name(text, from),
    }
}

/// The first place from `from` on without a blank.
#[inline(always)]
fn blanks_end(text: &[u8], from: usize) -> usize
    requires { from ≤ length text.now }
    ensures { IsWholeRun bytes.is_blank text.now from result }
{
    let mut to = from;
    'blanks: while to < text.len() && is_blank(text[to]) {
        to += 1;
    }
    to
}

/// Whether the byte is a space, a tab, a carriage return or a line feed.
#[inline]
fn is_blank(byte: u8) -> bool
    ensures { result ≡ bytes.is_blank byte }
{
    byte == b' ' || byte == b'\t' || byte == b'\r' || byte == b'\n'
}

/// Whether the byte is an ASCII digit.
#[inline]
fn is_digit(byte: u8) -> bool
    ensures { result ≡ bytes.is_digit byte }
{
    b'0' <= byte && byte <= b'9'
}

/// The value of the digits from `from` on, and the place after them.
#[inline(always)]
fn read_number(text: &[u8], from: usize) -> (u32, usize)
    requires { from ≤ length text.now }
    ensures { IsWholeNumber text.now from result.1 result.0 }
{
    if text.len() - from >= SHORT {
        if let Some(number) = short_number(text, from) {
            return number;
        }
    }
    long_number(text, from)
}

/// How many bytes a number within the limit takes at most, with the byte after it.
const SHORT: usize = 11;

/// The number at a place before the last ten bytes, and the place after it. None where there is no digit, more than ten, or a
/// number above the limit. So few digits are read without a test of the value or for the text's end between them.
#[inline(always)]
fn short_number(text: &[u8], from: usize) -> Option<(u32, usize)>
    requires { from + 11 ≤ length text.now }
    ensures { IfSome result (λ n. IsWholeNumber text.now from n.1 n.0) }
{
    let mut value = 0u64;
    'digits: for k in 0..SHORT {
        let byte = text[from + k];
        if !is_digit(byte) {
            if k == 0 || value > GREATEST {
                return None;
            }
            return Some((value as u32, from + k));
        }
        value = value * 10 + u64::from(byte - b'0');
    }
    None
}

/// The greatest number that a text may hold.
const GREATEST: u64 = 2147483647;

/// What a number above the limit is read as.
const ABOVE: u32 = 2147483648;

/// The value of any number of digits from `from` on, and the place after them.
#[inline(never)]
fn long_number(text: &[u8], from: usize) -> (u32, usize)
    requires { from ≤ length text.now }
    ensures { IsWholeNumber text.now from result.1 result.0 }
{
    let mut value = 0u64;
    let mut to = from;
    'digits: while to < text.len() && is_digit(text[to]) {
        if value <= GREATEST {
            value = value * 10 + u64::from(text[to] - b'0');
        }
        to += 1;
    }
    if value <= GREATEST {
        (value as u32, to)
    } else {
        (ABOVE, to)
    }
}

/// The word or the name at a place, or that there is none; and the place after it.
#[inline(never)]
fn word_or_name(text: &[u8], from: usize) -> (TokenKind, usize)
    requires inside { from < length text.now }
    requires solid { bytes.is_blank (slice_index text.now from) ≡ false }
    requires no_digit { bytes.is_digit (slice_index text.now from) ≡ false }
    requires no_comma { slice_index text.now from ≢ 44 }
    requires no_semicolon { slice_index text.now from ≢ 59 }
    ensures token { IsLexemeOf result.0 text.now from from result.1 }
    ensures range { IsRangeOf text.now from result.1 }
{
    let first = text[from];
    if first == b'"' {
        let later = &text[from + 1..];
        return match memchr(b'"', later) {
            Some(more) => (TokenKind::Name, from + more + 2),
            None => (TokenKind::Invalid, from),
        };
    }
    if is_letter(first) {
        let to = letters_end(text, from);
        return (word_kind(&text[from..to]), to);
    }
    (TokenKind::Invalid, from)
}

/// Which word the letters are.
fn word_kind(letters: &[u8]) -> TokenKind
    ensures { result ≡ kind_of (Word letters.now) }
{
    if letters == b"parity".as_slice() {
        TokenKind::Parity
    } else if letters == b"paritysol".as_slice() {
        TokenKind::Paritysol
    } else if letters == b"start".as_slice() {
        TokenKind::Start
    } else {
        TokenKind::OtherWord
    }
}

/// Whether the byte is an ASCII letter.
#[inline]
fn is_letter(byte: u8) -> bool
    ensures { result ≡ bytes.is_letter byte }
{
    b'A' <= byte && byte <= b'Z' || b'a' <= byte && byte <= b'z'
}

/// The first place from `from` on without a letter.
#[inline(never)]
fn letters_end(text: &[u8], from: usize) -> usize
    requires { from ≤ length text.now }
    ensures { IsWholeRun bytes.is_letter text.now from result }
{
    let mut to = from;
    'letters: while to < text.len() && is_letter(text[to]) {
        to += 1;
    }
    to
}
