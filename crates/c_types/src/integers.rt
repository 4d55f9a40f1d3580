//! The integer types: widths, ranges, ranks, promotions and usual conversions.
ghost use Rattle.std.specs.Prelude.{◌≡◌, ◌^◌, ◌≤◌, ◌<◌, ◌≤ℤ◌, pos};
ghost use Rattle.model_types.specs.Operations as m;
ghost use Rattle.model_types.specs.Conversions as c;

use model_types::numbers::Basic;

/// The width of a type, in bits; `bool` has one (ISO/IEC 9899:2024, 6.2.6.2).
pub fn width(basic: Basic) -> u32
    ensures { result ≡ m.width basic }
{
    match basic {
        Basic::Bool => 1,
        Basic::Char => 8,
        Basic::SignedChar => 8,
        Basic::UnsignedChar => 8,
        Basic::Short => 16,
        Basic::UnsignedShort => 16,
        Basic::Int => 32,
        Basic::Unsigned => 32,
        Basic::Long => 64,
        Basic::UnsignedLong => 64,
        Basic::LongLong => 64,
        Basic::UnsignedLongLong => 64,
    }
}

/// Whether the type has negative values (6.2.5).
pub fn is_signed(basic: Basic) -> bool
    ensures { result ≡ m.is_signed basic }
{
    match basic {
        Basic::Bool => false,
        Basic::Char => true,
        Basic::SignedChar => true,
        Basic::UnsignedChar => false,
        Basic::Short => true,
        Basic::UnsignedShort => false,
        Basic::Int => true,
        Basic::Unsigned => false,
        Basic::Long => true,
        Basic::UnsignedLong => false,
        Basic::LongLong => true,
        Basic::UnsignedLongLong => false,
    }
}

/// The least value of a type.
pub fn lowest(basic: Basic) -> i128
    ensures { result ≡ m.lowest basic }
{
    match basic {
        Basic::Bool => 0,
        Basic::Char => -128,
        Basic::SignedChar => -128,
        Basic::UnsignedChar => 0,
        Basic::Short => -32_768,
        Basic::UnsignedShort => 0,
        Basic::Int => -2_147_483_648,
        Basic::Unsigned => 0,
        Basic::Long => -9_223_372_036_854_775_808,
        Basic::UnsignedLong => 0,
        Basic::LongLong => -9_223_372_036_854_775_808,
        Basic::UnsignedLongLong => 0,
    }
}

/// The greatest value of a type.
pub fn highest(basic: Basic) -> i128
    ensures { result ≡ m.highest basic }
{
    match basic {
        Basic::Bool => 1,
        Basic::Char => 127,
        Basic::SignedChar => 127,
        Basic::UnsignedChar => 255,
        Basic::Short => 32_767,
        Basic::UnsignedShort => 65_535,
        Basic::Int => 2_147_483_647,
        Basic::Unsigned => 4_294_967_295,
        Basic::Long => 9_223_372_036_854_775_807,
        Basic::UnsignedLong => 18_446_744_073_709_551_615,
        Basic::LongLong => 9_223_372_036_854_775_807,
        Basic::UnsignedLongLong => 18_446_744_073_709_551_615,
    }
}

/// Whether a value is one of the type's.
pub fn fits(basic: Basic, value: i128) -> bool
    ensures { result ≡ m.fits basic value }
{
    lowest(basic) <= value && value <= highest(basic)
}

/// The number of combinations of bits that a type has.
pub fn modulus(basic: Basic) -> i128
    ensures { result ≡ pos (2 ^ m.width basic) }
{
    match basic {
        Basic::Bool => 2,
        Basic::Char => 256,
        Basic::SignedChar => 256,
        Basic::UnsignedChar => 256,
        Basic::Short => 65_536,
        Basic::UnsignedShort => 65_536,
        Basic::Int => 4_294_967_296,
        Basic::Unsigned => 4_294_967_296,
        Basic::Long => 18_446_744_073_709_551_616,
        Basic::UnsignedLong => 18_446_744_073_709_551_616,
        Basic::LongLong => 18_446_744_073_709_551_616,
        Basic::UnsignedLongLong => 18_446_744_073_709_551_616,
    }
}

/// The conversion rank (6.3.2.1).
fn rank(basic: Basic) -> u8
    ensures { result ≡ c.rank basic }
{
    match basic {
        Basic::Bool => 0,
        Basic::Char => 1,
        Basic::SignedChar => 1,
        Basic::UnsignedChar => 1,
        Basic::Short => 2,
        Basic::UnsignedShort => 2,
        Basic::Int => 3,
        Basic::Unsigned => 3,
        Basic::Long => 4,
        Basic::UnsignedLong => 4,
        Basic::LongLong => 5,
        Basic::UnsignedLongLong => 5,
    }
}

/// The promoted type (6.3.2.1).
pub fn promoted(basic: Basic) -> Basic
    ensures { result ≡ c.promoted basic }
{
    if rank(basic) < rank(Basic::Int) {
        Basic::Int
    } else {
        basic
    }
}

/// The unsigned type that corresponds to a type (6.2.5).
fn unsigned_of(basic: Basic) -> Basic
    ensures { result ≡ c.unsigned_of basic }
{
    match basic {
        Basic::Bool => Basic::Bool,
        Basic::Char => Basic::UnsignedChar,
        Basic::SignedChar => Basic::UnsignedChar,
        Basic::UnsignedChar => Basic::UnsignedChar,
        Basic::Short => Basic::UnsignedShort,
        Basic::UnsignedShort => Basic::UnsignedShort,
        Basic::Int => Basic::Unsigned,
        Basic::Unsigned => Basic::Unsigned,
        Basic::Long => Basic::UnsignedLong,
        Basic::UnsignedLong => Basic::UnsignedLong,
        Basic::LongLong => Basic::UnsignedLongLong,
        Basic::UnsignedLongLong => Basic::UnsignedLongLong,
    }
}

fn greater_of(left: Basic, right: Basic) -> Basic
    ensures { result ≡ c.greater_of left right }
{
    if rank(left) < rank(right) {
        right
    } else {
        left
    }
}

fn mixed_of(signed: Basic, unsigned: Basic) -> Basic
    ensures { result ≡ c.mixed_of signed unsigned }
{
    if rank(signed) <= rank(unsigned) {
        unsigned
    } else if width(unsigned) < width(signed) {
        signed
    } else {
        unsigned_of(signed)
    }
}

fn common_promoted(left: Basic, right: Basic) -> Basic
    ensures { result ≡ c.common_promoted left right }
{
    match (is_signed(left), is_signed(right)) {
        (true, true) => greater_of(left, right),
        (true, false) => mixed_of(left, right),
        (false, true) => mixed_of(right, left),
        (false, false) => greater_of(left, right),
    }
}

/// The common type of two operands by the usual conversions (6.3.2.8).
pub fn common(left: Basic, right: Basic) -> Basic
    ensures { result ≡ c.common left right }
{
    common_promoted(promoted(left), promoted(right))
}
