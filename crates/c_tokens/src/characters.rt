//! Characters and escape sequences of literals.
ghost use Rattle.std.specs.Prelude.{◌≡◌, ◌≤◌, ◌<◌, ◌+◌, length};
ghost use Rattle.std.specs.List.{prefix_len};
ghost use Rattle.model_tokens.specs.Characters as spec;
ghost use Rattle.model_tokens.specs.Digits.{is_digit_of};

use crate::digits::{is_digit_of, value};
use crate::slices::behind;

fn as_byte(value: u128) -> Option<u8>
    ensures { result ≡ spec.as_byte value }
{
    if value <= 255 {
        Some(value as u8)
    } else {
        None
    }
}

fn simple_escape(b: u8) -> Option<u8>
    ensures { result ≡ spec.simple_escape b }
{
    if b == b'\'' || b == b'"' || b == b'?' || b == b'\\' {
        Some(b)
    } else if b == b'a' {
        Some(7)
    } else if b == b'b' {
        Some(8)
    } else if b == b'f' {
        Some(12)
    } else if b == b'n' {
        Some(b'\n')
    } else if b == b'r' {
        Some(b'\r')
    } else if b == b't' {
        Some(b'\t')
    } else if b == b'v' {
        Some(11)
    } else {
        None
    }
}

/// The number of digits in front.
fn run(radix: u32, text: &[u8]) -> usize
    ensures value { result ≡ prefix_len (is_digit_of radix) text.now }
    ensures bound { result ≤ length text.now }
{
    let mut n = 0;
    for b in text {
        if !is_digit_of(radix, *b) {
            return n;
        }
        n += 1;
    }
    n
}

/// The length of an escape sequence behind its backslash.
fn escape_length(text: &[u8]) -> usize
    ensures value { result ≡ spec.escape_length text.now }
    ensures bound { result ≤ length text.now }
{
    match text {
        [] => 0,
        [b, rest @ ..] => {
            if is_digit_of(8, *b) {
                run(8, text).min(3)
            } else if *b == b'x' {
                run(16, rest) + 1
            } else if *b == b'u' {
                run(16, rest).min(4) + 1
            } else if *b == b'U' {
                run(16, rest).min(8) + 1
            } else {
                1
            }
        }
    }
}

/// The value of `\x` with the digits that follow.
fn hexadecimal_escape(text: &[u8]) -> Option<u8>
    ensures { result ≡ spec.hexadecimal_escape (spec.hexadecimal_run text.now) text.now }
{
    let n = run(16, text);
    if n == 0 {
        return None;
    }
    as_byte(value(16, text.split_at(n).0))
}

fn octal_escape(text: &[u8]) -> Option<u8>
    ensures { result ≡ spec.as_byte (spec.octal_value text.now) }
{
    let n = run(8, text).min(3);
    as_byte(value(8, text.split_at(n).0))
}

/// The value of an escape sequence behind its backslash.
fn escape_value(text: &[u8]) -> Option<u8>
    ensures { result ≡ spec.escape_value text.now }
{
    match text {
        [] => None,
        [b, rest @ ..] => {
            if is_digit_of(8, *b) {
                octal_escape(text)
            } else if *b == b'x' {
                hexadecimal_escape(rest)
            } else {
                simple_escape(*b)
            }
        }
    }
}

/// The length of the first character.
pub fn character_length(text: &[u8]) -> usize
    ensures value { result ≡ spec.character_length text.now }
    ensures bound { result ≤ length text.now }
    ensures moves { 0 < length text.now → 1 ≤ result }
{
    match text {
        [] => 0,
        [b, rest @ ..] => {
            if *b == b'\\' {
                escape_length(rest) + 1
            } else {
                1
            }
        }
    }
}

/// The value of the first character; none where it is a bad escape sequence.
pub fn character_value(text: &[u8]) -> Option<u8>
    ensures { result ≡ spec.character_value text.now }
{
    match text {
        [] => None,
        [b, rest @ ..] => {
            if *b == b'\\' {
                escape_value(rest)
            } else {
                Some(*b)
            }
        }
    }
}
