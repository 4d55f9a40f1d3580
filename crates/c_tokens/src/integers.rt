//! Integer constants.
ghost use Rattle.std.specs.Prelude.{◌≡◌, ◌≤◌, length, Some};
ghost use Rattle.std.specs.List.{prefix_len};
ghost use Rattle.model_tokens.specs.declared.constants.Base.TheVariants as Base;
ghost use Rattle.model_tokens.specs.IntegerConstants as spec;
ghost use Rattle.model_types.specs.Operations as operations;

use crate::digits::{are_digits, value};
use crate::slices::{behind, byte_at};
use model_tokens::constants::{Base, Suffix};
use model_tokens::tokens::TokenRule;
use model_types::numbers::{Basic, Const};

fn is_u(b: u8) -> bool
    ensures { result ≡ spec.is_u b }
{
    b == b'u' || b == b'U'
}

fn is_l(b: u8) -> bool
    ensures { result ≡ spec.is_l b }
{
    b == b'l' || b == b'L'
}

fn suffix_of(text: &[u8]) -> Option<Suffix>
    ensures { result ≡ spec.suffix_of text.now }
{
    match text {
        [] => Some(Suffix::Plain),
        [a] => {
            if is_u(*a) {
                Some(Suffix::U)
            } else if is_l(*a) {
                Some(Suffix::L)
            } else {
                None
            }
        }
        [a, b] => {
            if is_u(*a) && is_l(*b) || is_l(*a) && is_u(*b) {
                Some(Suffix::UL)
            } else if is_l(*a) && a == b {
                Some(Suffix::LL)
            } else {
                None
            }
        }
        [a, b, c] => {
            if is_u(*a) && is_l(*b) && b == c || is_l(*a) && a == b && is_u(*c) {
                Some(Suffix::ULL)
            } else {
                None
            }
        }
        _ => None,
    }
}

const DECIMAL: [Basic; 3] = [Basic::Int, Basic::Long, Basic::LongLong];

const ANY: [Basic; 6] = [
    Basic::Int,
    Basic::Unsigned,
    Basic::Long,
    Basic::UnsignedLong,
    Basic::LongLong,
    Basic::UnsignedLongLong,
];

const UNSIGNED: [Basic; 3] = [
    Basic::Unsigned,
    Basic::UnsignedLong,
    Basic::UnsignedLongLong,
];

/// The types of which a constant has the first that fits.
fn types_of(base: Base, suffix: Suffix) -> &'static [Basic]
    ensures { result.now ≡ spec.types_of base suffix }
{
    match base {
        Base::Decimal => decimal_types(suffix),
        Base::Octal => other_types(suffix),
        Base::Hexadecimal => other_types(suffix),
        Base::Binary => other_types(suffix),
    }
}

fn decimal_types(suffix: Suffix) -> &'static [Basic]
    ensures { result.now ≡ spec.types_of Base.Decimal suffix }
{
    match suffix {
        Suffix::Plain => &DECIMAL,
        Suffix::U => &UNSIGNED,
        Suffix::L => &DECIMAL[1..],
        Suffix::UL => &UNSIGNED[1..],
        Suffix::LL => &DECIMAL[2..],
        Suffix::ULL => &UNSIGNED[2..],
    }
}

fn other_types(suffix: Suffix) -> &'static [Basic]
    ensures { result.now ≡ spec.types_of Base.Binary suffix }
{
    match suffix {
        Suffix::Plain => &ANY,
        Suffix::U => &UNSIGNED,
        Suffix::L => &ANY[2..],
        Suffix::UL => &UNSIGNED[1..],
        Suffix::LL => &ANY[4..],
        Suffix::ULL => &UNSIGNED[2..],
    }
}

fn lowest(basic: Basic) -> i128
    ensures { result ≡ operations.lowest basic }
{
    match basic {
        Basic::Bool => 0,
        Basic::Char => -128,
        Basic::SignedChar => -128,
        Basic::UnsignedChar => 0,
        Basic::Short => -32768,
        Basic::UnsignedShort => 0,
        Basic::Int => -2147483648,
        Basic::Unsigned => 0,
        Basic::Long => -9223372036854775808,
        Basic::UnsignedLong => 0,
        Basic::LongLong => -9223372036854775808,
        Basic::UnsignedLongLong => 0,
    }
}

fn highest(basic: Basic) -> i128
    ensures { result ≡ operations.highest basic }
{
    match basic {
        Basic::Bool => 1,
        Basic::Char => 127,
        Basic::SignedChar => 127,
        Basic::UnsignedChar => 255,
        Basic::Short => 32767,
        Basic::UnsignedShort => 65535,
        Basic::Int => 2147483647,
        Basic::Unsigned => 4294967295,
        Basic::Long => 9223372036854775807,
        Basic::UnsignedLong => 18446744073709551615,
        Basic::LongLong => 9223372036854775807,
        Basic::UnsignedLongLong => 18446744073709551615,
    }
}

/// A value of a type, where it fits.
pub fn constant_in(basic: Basic, value: i128) -> Option<Const>
    ensures { result ≡ spec.constant_in basic value }
{
    if lowest(basic) <= value && value <= highest(basic) {
        Some(Const { value, basic })
    } else {
        None
    }
}

fn first_fitting(types: &[Basic], value: i128) -> Option<Const>
    ensures { result ≡ spec.first_fitting types.now value }
{
    for basic in types {
        if let Some(constant) = constant_in(*basic, value) {
            return Some(constant);
        }
    }
    None
}

fn base_of(text: &[u8]) -> Base
    ensures { result ≡ spec.base_of text.now }
{
    if byte_at(text, 0) != b'0' {
        return Base::Decimal;
    }
    match byte_at(text, 1) {
        b'x' | b'X' => Base::Hexadecimal,
        b'b' | b'B' => Base::Binary,
        _ => Base::Octal,
    }
}

fn radix(base: Base) -> u32
    ensures value { result ≡ spec.radix base }
    ensures bound { (1 ≤ result) × (result ≤ 16) }
{
    match base {
        Base::Decimal => 10,
        Base::Octal => 8,
        Base::Hexadecimal => 16,
        Base::Binary => 2,
    }
}

fn base_prefix(base: Base) -> usize
    ensures { result ≡ spec.base_prefix base }
{
    match base {
        Base::Decimal => 0,
        Base::Octal => 0,
        Base::Hexadecimal => 2,
        Base::Binary => 2,
    }
}

/// The number of bytes before the first letter of a suffix.
fn digits_length(text: &[u8]) -> usize
    ensures value { result ≡ prefix_len spec.is_before_suffix text.now }
    ensures bound { result ≤ length text.now }
{
    let mut n = 0;
    for b in text {
        if is_u(*b) || is_l(*b) {
            return n;
        }
        n += 1;
    }
    n
}

/// The constant of these digits and this suffix.
fn constant_of(base: Base, digits: &[u8], suffix: Suffix) -> Result<Const, TokenRule>
    ensures { result ≡ spec.constant_of base digits.now (Some suffix) }
{
    let radix = radix(base);
    if !are_digits(radix, digits) {
        return Err(TokenRule::MalformedNumber);
    }
    match first_fitting(types_of(base, suffix), value(radix, digits) as i128) {
        Some(constant) => Ok(constant),
        None => Err(TokenRule::FitsNoType),
    }
}

/// The constant that a text is: L05 where it is none, L06 where its value fits no type of its
/// suffix (ISO/IEC 9899:2024, 6.4.4.2).
pub fn integer_constant(text: &[u8]) -> Result<Const, TokenRule>
    ensures { result ≡ spec.integer_constant text.now }
{
    let base = base_of(text);
    let body = behind(text, base_prefix(base));
    let (digits, suffix) = body.split_at(digits_length(body));
    match suffix_of(suffix) {
        Some(suffix) => constant_of(base, digits, suffix),
        None => Err(TokenRule::MalformedNumber),
    }
}
