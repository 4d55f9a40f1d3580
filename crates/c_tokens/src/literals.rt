//! String literals and character constants as spelled: their prefixes, quotes and content.
ghost use Rattle.std.specs.Prelude.{◌≡◌, ◌≤◌, length, false, option_copied, MatchOption};
ghost use Rattle.model_tokens.specs.Characters as characters;
ghost use Rattle.model_tokens.specs.PpSteps as steps;

use crate::slices::byte_at;

pub fn is_quote(b: u8) -> bool
    ensures { result ≡ steps.is_quote b }
{
    b == b'"' || b == b'\''
}

/// The length of the prefix L, u, U or u8 that stands directly before a quote.
pub fn prefix_length(text: &[u8]) -> usize
    ensures { result ≡ steps.prefix_length text.now }
{
    let first = byte_at(text, 0);
    let second = byte_at(text, 1);
    if (first == b'L' || first == b'u' || first == b'U') && is_quote(second) {
        1
    } else if first == b'u' && second == b'8' && is_quote(byte_at(text, 2)) {
        2
    } else {
        0
    }
}

/// The length of a text up to and with the quote that ends it on its line.
fn closing(quote: u8, text: &[u8]) -> Option<usize>
    ensures value { result ≡ steps.closing quote false text.now }
    ensures bound { MatchOption result (Unit {0}) (λ n. (1 ≤ n) × (n ≤ length text.now)) }
{
    let mut escaped = false;
    let mut n = 0;
    for b in text {
        if *b == b'\n' {
            return None;
        }
        n += 1;
        if !escaped && *b == quote {
            return Some(n);
        }
        escaped = !escaped && *b == b'\\';
    }
    None
}

/// The bytes before the quote that ends a text.
fn inside(quote: u8, text: &[u8]) -> Option<&[u8]>
    ensures { option_copied result ≡ characters.inside (steps.closing quote false text.now) text.now }
{
    match closing(quote, text) {
        None => None,
        Some(n) => {
            if n == text.len() {
                Some(text.split_at(n - 1).0)
            } else {
                None
            }
        }
    }
}

/// The bytes between the quotes of a literal that has no prefix; none where it is no such literal.
pub fn content(quote: u8, text: &[u8]) -> Option<&[u8]>
    ensures { option_copied result ≡ characters.content quote text.now }
{
    match text {
        [] => None,
        [b, rest @ ..] => {
            if *b == quote {
                inside(quote, rest)
            } else {
                None
            }
        }
    }
}
