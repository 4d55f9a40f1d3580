//! How far a token, a comment or blanks go from the front of a text.
ghost use Rattle.std.specs.Prelude.{◌≡◌, ◌+◌, ◌^◌, ◌<◌, ◌≤◌, length, drop, slice_index, MatchResult, IfSome, None, Some, true, false};
ghost use Rattle.std.specs.List.{prefix_len};
ghost use Rattle.model_tokens.specs.JoinedLines.{bytes};
ghost use Rattle.model_tokens.specs.PpSteps as spec;
ghost use Rattle.c_tokens.specs.Classes.{is_in};

use crate::cursor::Cursor;

/// Sets of bytes that stand side by side.
#[derive(Clone, Copy)]
pub enum Class {
    Blank,
    Word,
    /// Anything but a line feed.
    Line,
}

pub fn is_in(class: Class, b: u8) -> bool
    ensures { result ≡ is_in class b }
{
    match class {
        Class::Blank => b == b' ' || b == b'\t' || b == 11 || b == 12,
        Class::Word => b.is_ascii_alphanumeric() || b == b'_',
        Class::Line => b != b'\n',
    }
}

/// Takes the next byte, or gives 0 at the end.
fn next_byte(from: &mut Cursor) -> u8
    ensures byte { result ≡ slice_index (bytes from.old) 0 }
    ensures rest { from.new ≡ drop 1 from.old }
{
    match from.next() {
        Some(cell) => cell.byte,
        None => 0,
    }
}

/// The next three bytes, with 0 for each that is past the end.
#[tactic(auto, using(crate::proofs::CellLaws::byte_further))]
pub fn peek(from: &Cursor) -> (u8, u8, u8)
    ensures first { result.0 ≡ slice_index (bytes from.now) 0 }
    ensures second { result.1 ≡ slice_index (bytes from.now) 1 }
    ensures third { result.2 ≡ slice_index (bytes from.now) 2 }
{
    let mut ahead = from.again();
    let first = next_byte(&mut ahead);
    let second = next_byte(&mut ahead);
    let third = next_byte(&mut ahead);
    (first, second, third)
}

/// The number of bytes in front that are all of one class.
pub fn span(class: Class, from: &Cursor) -> usize
    requires { length from.now < 2 ^ 32 }
    ensures value { result ≡ prefix_len (is_in class) (bytes from.now) }
    ensures moves { 0 < length from.now → is_in class (slice_index (bytes from.now) 0) ≡ true → 1 ≤ result }
{
    let mut from = from.again();
    let mut len = 0;
    while let Some(cell) = from.next() {
        if !is_in(class, cell.byte) {
            return len;
        }
        len += 1;
    }
    len
}

fn is_exponent(b: u8) -> bool
    ensures { result ≡ spec.is_exponent b }
{
    b == b'e' || b == b'E' || b == b'p' || b == b'P'
}

/// The length of the rest of a number, which stands behind the byte `before`.
pub fn number_rest(before: u8, from: &Cursor) -> usize
    requires { length from.now < 2 ^ 32 }
    ensures value { result ≡ spec.number_rest before (bytes from.now) }
    ensures within { result ≤ length from.now }
{
    let mut from = from.again();
    let mut before = before;
    let mut len = 0;
    while let Some(cell) = from.next() {
        let b = cell.byte;
        if is_in(Class::Word, b) || b == b'.' {
            before = if before == b'\'' { 0 } else { b };
            len += 1;
        } else if (b == b'+' || b == b'-') && is_exponent(before) {
            before = b;
            len += 1;
        } else if b == b'\'' && next_byte(&mut from.again()).is_ascii_alphanumeric() {
            before = b;
            len += 1;
        } else {
            return len;
        }
    }
    len
}

/// The length of what follows a quote up to and with the quote that ends it; or the number of
/// bytes before the end of the line, where none of them ends it.
pub fn closing(quote: u8, from: &Cursor) -> Result<usize, usize>
    requires { length from.now < 2 ^ 32 }
    ensures value { MatchResult result (λ n. spec.closing quote false (bytes from.now) ≡ Some n) (λ n. spec.closing quote false (bytes from.now) ≡ None) }
    ensures within { MatchResult result (λ n. n ≤ length from.now) (λ n. n ≤ length from.now) }
    ensures line { MatchResult result (λ n. Unit {0}) (λ n. n ≡ prefix_len spec.is_in_line (bytes from.now)) }
{
    let mut from = from.again();
    let mut escaped = false;
    let mut len = 0;
    while let Some(cell) = from.next() {
        if cell.byte == b'\n' {
            return Err(len);
        }
        len += 1;
        if !escaped && cell.byte == quote {
            return Ok(len);
        }
        escaped = !escaped && cell.byte == b'\\';
    }
    Err(len)
}

/// The length of a comment's rest, with the `*/` that ends it.
pub fn comment_end(from: &Cursor) -> Option<usize>
    requires { length from.now < 2 ^ 32 }
    ensures value { result ≡ spec.comment_end (bytes from.now) }
    ensures within { IfSome result (λ n. n < length from.now + 2) }
{
    let mut from = from.again();
    let mut len = 0;
    while let Some(cell) = from.next() {
        len += 1;
        if cell.byte == b'*' && next_byte(&mut from.again()) == b'/' {
            return Some(len + 1);
        }
    }
    None
}

/// The length of the rest of a header's name, with the `>` that ends it on this line.
pub fn header_end(from: &Cursor) -> Option<usize>
    requires { length from.now < 2 ^ 32 }
    ensures value { result ≡ spec.header_end (bytes from.now) }
    ensures within { IfSome result (λ n. n ≤ length from.now) }
{
    let mut from = from.again();
    let mut len = 0;
    while let Some(cell) = from.next() {
        len += 1;
        if cell.byte == b'\n' {
            return None;
        }
        if cell.byte == b'>' {
            return Some(len);
        }
    }
    None
}

/// Passes over `n` bytes.
#[tactic(auto, using(crate::proofs::CellLaws::drop_next))]
pub fn skip(from: &mut Cursor, n: usize)
    ensures { from.new ≡ drop n from.old }
{
    for i in 0..n {
        let _ = from.next();
    }
}
