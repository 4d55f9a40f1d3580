//! Floating constants, which the language leaves out.
ghost use Rattle.std.specs.Prelude.{◌≡◌, None, Some, MatchOption};
ghost use Rattle.model_tokens.specs.FloatingConstants as spec;

use crate::digits::{are_digits, digit_run};
use crate::slices::{behind, byte_at};

fn are_digits_or_none(radix: u32, text: &[u8]) -> bool
    ensures { result ≡ spec.are_digits_or_none radix text.now }
{
    match text {
        [] => true,
        [_, ..] => are_digits(radix, text),
    }
}

/// Whether the digits at the front have a point among or beside them, and what follows them.
fn significand(radix: u32, text: &[u8]) -> Option<(bool, &[u8])>
    ensures { MatchOption result (spec.significand radix text.now ≡ None) (λ found. spec.significand radix text.now ≡ Some (found.0, found.1.now)) }
{
    let n = digit_run(radix, text);
    let (whole, rest) = text.split_at(n);
    if byte_at(rest, 0) == b'.' {
        let fraction = behind(rest, 1);
        let m = digit_run(radix, fraction);
        let (digits, end) = fraction.split_at(m);
        if are_digits_or_none(radix, whole)
            && are_digits_or_none(radix, digits)
            && (n > 0 || m > 0)
        {
            Some((true, end))
        } else {
            None
        }
    } else if are_digits(radix, whole) {
        Some((false, rest))
    } else {
        None
    }
}

fn is_letter(small: u8, large: u8, b: u8) -> bool
    ensures { result ≡ spec.is_letter small large b }
{
    b == small || b == large
}

fn is_sign(b: u8) -> bool
    ensures { result ≡ spec.is_sign b }
{
    b == b'+' || b == b'-'
}

/// What stands behind the letter of an exponent and its sign.
fn behind_sign(text: &[u8]) -> &[u8]
    ensures { result.now ≡ spec.behind_sign text.now }
{
    if is_sign(byte_at(text, 1)) {
        behind(text, 2)
    } else {
        behind(text, 1)
    }
}

/// Whether an exponent with one of these letters stands at the front, and what follows it.
fn exponent(small: u8, large: u8, text: &[u8]) -> Option<(bool, &[u8])>
    ensures { MatchOption result (spec.exponent small large text.now ≡ None) (λ found. spec.exponent small large text.now ≡ Some (found.0, found.1.now)) }
{
    if !is_letter(small, large, byte_at(text, 0)) {
        return Some((false, text));
    }
    let rest = behind_sign(text);
    let (digits, end) = rest.split_at(digit_run(10, rest));
    if are_digits(10, digits) {
        Some((true, end))
    } else {
        None
    }
}

fn is_floating_suffix(text: &[u8]) -> bool
    ensures { result ≡ spec.is_floating_suffix text.now }
{
    match text {
        [] => true,
        [a] => is_letter(b'f', b'F', *a) || is_letter(b'l', b'L', *a),
        [a, b] => {
            *a == b'd' && (*b == b'f' || *b == b'd' || *b == b'l')
                || *a == b'D' && (*b == b'F' || *b == b'D' || *b == b'L')
        }
        _ => false,
    }
}

/// Whether an exponent, where there has to be one, and a suffix are all that is left.
fn ends_floating(without: bool, small: u8, large: u8, text: &[u8]) -> bool
    ensures { result ≡ spec.ends_floating without (spec.exponent small large text.now) }
{
    match exponent(small, large, text) {
        None => false,
        Some((found, rest)) => (found || without) && is_floating_suffix(rest),
    }
}

/// Whether a text is a floating constant (ISO/IEC 9899:2024, 6.4.4.3).
pub fn is_floating(text: &[u8]) -> bool
    ensures { result ≡ spec.is_floating text.now }
{
    if byte_at(text, 0) == b'0' && is_letter(b'x', b'X', byte_at(text, 1)) {
        return match significand(16, behind(text, 2)) {
            None => false,
            Some((_, rest)) => ends_floating(false, b'p', b'P', rest),
        };
    }
    match significand(10, text) {
        None => false,
        Some((point, rest)) => ends_floating(point, b'e', b'E', rest),
    }
}
