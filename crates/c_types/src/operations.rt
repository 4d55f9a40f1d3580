//! Conversions of integers and operations on constants (ISO/IEC 9899:2024, 6.3.2, 6.5.6 to 6.5.13).
ghost use Rattle.std.specs.Prelude.{◌≡◌, ◌≢◌, ◌^◌, ◌≤◌, ◌<◌, ◌*◌, ◌≤ℤ◌, ◌<ℤ◌, ◌+ℤ◌, ◌-ℤ◌, ◌*ℤ◌, pos, true, false, ◌||◌, bit_and, bit_or, bit_xor, unsigned_abs, int_div, int_rem, IsTrue, not, IfOk, IfErr, if◌then◌else◌};
ghost use Rattle.std.specs.Int.{int_div_euclid};
ghost use Rattle.std.specs.Ordering.{int_eq};
ghost use Rattle.model_types.specs.Operations as m;
ghost use Rattle.model_types.specs.Conversions as c;
ghost use Rattle.c_types.specs.Faults.{cause_of, caused};
ghost use Rattle.model_types.specs.declared.numbers.BinOp.TheVariants.{ShiftLeft, ShiftRight};
ghost use Rattle.model_types.specs.declared.numbers.Basic.TheVariants.{Int};

use crate::integers::{common, fits, highest, is_signed, modulus, promoted, width};
use model_types::numbers::{Basic, BinOp, Const};

/// By what an operation on constants is undefined.
#[derive(Clone, Copy, Debug, PartialEq, Eq)]
pub enum OpFault {
    /// A signed result out of range, or a quotient or remainder of the least value by -1.
    Overflow,
    /// A quotient or remainder by 0.
    ZeroDivisor,
    /// A shift by a negative count or by one that isn't below the width, or a left shift of a
    /// negative value or with a signed result out of range.
    BadShift,
}

/// The low bits of a number, as many as the type has.
fn bits_of(basic: Basic, value: i128) -> u64
    ensures value { result ≡ m.bits_of basic value }
    ensures bound { result < 2 ^ m.width basic }
{
    value.rem_euclid(modulus(basic)) as u64
}

/// The value of the type that has these bits.
fn value_of(basic: Basic, bits: u64) -> i128
    requires { bits < 2 ^ m.width basic }
    ensures value { result ≡ m.value_of basic bits }
    ensures fits { IsTrue (m.fits basic result) }
{
    let value = bits as i128;
    if value <= highest(basic) {
        value
    } else {
        value - modulus(basic)
    }
}

fn wrapped(basic: Basic, value: i128) -> i128
    ensures value { result ≡ m.wrapped basic value }
    ensures fits { IsTrue (m.fits basic result) }
{
    value_of(basic, bits_of(basic, value))
}

/// A value converted to a type: to `bool` it is 0 where it is 0 and else 1, to another type it
/// wraps in two's complement (6.3.2.2, 6.3.2.3).
pub fn convert(value: i128, to: Basic) -> i128
    ensures value { result ≡ m.convert to value }
    ensures fits { IsTrue (m.fits to result) }
{
    match to {
        Basic::Bool => truth(value != 0),
        Basic::Char => wrapped(Basic::Char, value),
        Basic::SignedChar => wrapped(Basic::SignedChar, value),
        Basic::UnsignedChar => wrapped(Basic::UnsignedChar, value),
        Basic::Short => wrapped(Basic::Short, value),
        Basic::UnsignedShort => wrapped(Basic::UnsignedShort, value),
        Basic::Int => wrapped(Basic::Int, value),
        Basic::Unsigned => wrapped(Basic::Unsigned, value),
        Basic::Long => wrapped(Basic::Long, value),
        Basic::UnsignedLong => wrapped(Basic::UnsignedLong, value),
        Basic::LongLong => wrapped(Basic::LongLong, value),
        Basic::UnsignedLongLong => wrapped(Basic::UnsignedLongLong, value),
    }
}

fn truth(holds: bool) -> i128
    ensures value { result ≡ m.truth holds }
    ensures fits { IsTrue (m.fits Int result) }
{
    if holds { 1 } else { 0 }
}

/// A result that the type has to have.
fn within(basic: Basic, value: i128) -> Result<i128, OpFault>
    ensures value { caused result ≡ m.within basic value }
    ensures fits { IfOk result (λ v. IsTrue (m.fits basic v)) }
{
    if fits(basic, value) {
        Ok(value)
    } else {
        Err(OpFault::Overflow)
    }
}

/// The result of an operation in a type: unsigned ones wrap.
fn result_in(basic: Basic, value: i128) -> Result<i128, OpFault>
    ensures value { caused result ≡ m.result_in basic value }
    ensures fits { IfOk result (λ v. IsTrue (m.fits basic v)) }
{
    if is_signed(basic) {
        within(basic, value)
    } else {
        Ok(wrapped(basic, value))
    }
}

/// The product of two values of an unsigned type, which may need 128 bits.
fn unsigned_product(basic: Basic, left: i128, right: i128) -> i128
    requires unsigned { m.is_signed basic ≡ false }
    requires left { IsTrue (m.fits basic left) }
    requires right { IsTrue (m.fits basic right) }
    ensures value { result ≡ m.wrapped basic (left *ℤ right) }
    ensures fits { IsTrue (m.fits basic result) }
{
    let product = left as u128 * right as u128;
    value_of(basic, (product % modulus(basic) as u128) as u64)
}

/// The product of two values of a signed type, which fits 128 bits.
fn signed_product(basic: Basic, left: i128, right: i128) -> i128
    requires signed { m.is_signed basic ≡ true }
    requires left { IsTrue (m.fits basic left) }
    requires right { IsTrue (m.fits basic right) }
    ensures { result ≡ left *ℤ right }
{
    left * right
}

fn product(basic: Basic, left: i128, right: i128) -> Result<i128, OpFault>
    requires left { IsTrue (m.fits basic left) }
    requires right { IsTrue (m.fits basic right) }
    ensures value { caused result ≡ m.result_in basic (left *ℤ right) }
    ensures fits { IfOk result (λ v. IsTrue (m.fits basic v)) }
{
    if is_signed(basic) {
        within(basic, signed_product(basic, left, right))
    } else {
        Ok(unsigned_product(basic, left, right))
    }
}

fn sum(basic: Basic, left: i128, right: i128) -> Result<i128, OpFault>
    requires left { IsTrue (m.fits basic left) }
    requires right { IsTrue (m.fits basic right) }
    ensures value { caused result ≡ m.result_in basic (left +ℤ right) }
    ensures fits { IfOk result (λ v. IsTrue (m.fits basic v)) }
{
    result_in(basic, left + right)
}

fn difference(basic: Basic, left: i128, right: i128) -> Result<i128, OpFault>
    requires left { IsTrue (m.fits basic left) }
    requires right { IsTrue (m.fits basic right) }
    ensures value { caused result ≡ m.result_in basic (left -ℤ right) }
    ensures fits { IfOk result (λ v. IsTrue (m.fits basic v)) }
{
    result_in(basic, left - right)
}

/// The quotient of two values of a type, before its range is looked at.
fn divided(basic: Basic, left: i128, right: i128) -> i128
    requires left { IsTrue (m.fits basic left) }
    requires right { IsTrue (m.fits basic right) }
    requires nonzero { right ≢ pos 0 }
    ensures { result ≡ int_div left right }
{
    left / right
}

/// The remainder of two values of a type, where their quotient is one of the type's.
fn rest(basic: Basic, left: i128, right: i128) -> i128
    requires left { IsTrue (m.fits basic left) }
    requires right { IsTrue (m.fits basic right) }
    requires nonzero { right ≢ pos 0 }
    ensures value { result ≡ int_rem left right }
    ensures fits { IsTrue (m.fits basic result) }
{
    left % right
}

fn quotient(basic: Basic, left: i128, right: i128) -> Result<i128, OpFault>
    requires left { IsTrue (m.fits basic left) }
    requires right { IsTrue (m.fits basic right) }
    ensures value { caused result ≡ m.divided basic left right }
    ensures fits { IfOk result (λ v. IsTrue (m.fits basic v)) }
{
    if right == 0 {
        Err(OpFault::ZeroDivisor)
    } else {
        within(basic, divided(basic, left, right))
    }
}

fn remainder(basic: Basic, left: i128, right: i128) -> Result<i128, OpFault>
    requires left { IsTrue (m.fits basic left) }
    requires right { IsTrue (m.fits basic right) }
    ensures value { caused result ≡ m.remainder basic left right }
    ensures fits { IfOk result (λ v. IsTrue (m.fits basic v)) }
{
    if right == 0 {
        Err(OpFault::ZeroDivisor)
    } else if fits(basic, divided(basic, left, right)) {
        Ok(rest(basic, left, right))
    } else {
        Err(OpFault::Overflow)
    }
}

/// A value times a power of two, which fits 128 bits.
fn multiplied(basic: Basic, left: i128, count: i128) -> i128
    requires left { IsTrue (m.fits basic left) }
    requires count { IsTrue (m.is_shift_count basic count) }
    ensures { result ≡ left *ℤ m.power_of_two count }
{
    left * power_of_two(count)
}

fn shifted_left(basic: Basic, left: i128, count: i128) -> Result<i128, OpFault>
    requires left { IsTrue (m.fits basic left) }
    requires count { IsTrue (m.is_shift_count basic count) }
    ensures value { caused result ≡ m.shifted_left basic left count }
    ensures fits { IfOk result (λ v. IsTrue (m.fits basic v)) }
{
    let product = multiplied(basic, left, count);
    if !is_signed(basic) {
        return Ok(wrapped(basic, product));
    }
    if left < 0 {
        Err(OpFault::BadShift)
    } else if fits(basic, product) {
        Ok(product)
    } else {
        Err(OpFault::BadShift)
    }
}

fn shifted_right(basic: Basic, left: i128, count: i128) -> i128
    requires left { IsTrue (m.fits basic left) }
    requires count { IsTrue (m.is_shift_count basic count) }
    ensures value { result ≡ int_div_euclid left (m.power_of_two count) }
    ensures fits { IsTrue (m.fits basic result) }
{
    left >> count as u32
}

fn power_of_two(count: i128) -> i128
    requires low { pos 0 ≤ℤ count }
    requires high { count <ℤ pos 64 }
    ensures { result ≡ m.power_of_two count }
{
    (1u64 << count as u32) as i128
}

fn is_shift_count(basic: Basic, count: i128) -> bool
    ensures { result ≡ m.is_shift_count basic count }
{
    0 <= count && count < width(basic) as i128
}

fn shift_left(basic: Basic, left: i128, count: i128) -> Result<i128, OpFault>
    requires left { IsTrue (m.fits basic left) }
    ensures value { caused result ≡ m.operate ShiftLeft basic left count }
    ensures fits { IfOk result (λ v. IsTrue (m.fits basic v)) }
{
    if is_shift_count(basic, count) {
        shifted_left(basic, left, count)
    } else {
        Err(OpFault::BadShift)
    }
}

fn shift_right(basic: Basic, left: i128, count: i128) -> Result<i128, OpFault>
    requires left { IsTrue (m.fits basic left) }
    ensures value { caused result ≡ m.operate ShiftRight basic left count }
    ensures fits { IfOk result (λ v. IsTrue (m.fits basic v)) }
{
    if is_shift_count(basic, count) {
        Ok(shifted_right(basic, left, count))
    } else {
        Err(OpFault::BadShift)
    }
}

fn both_bits(basic: Basic, left: i128, right: i128) -> i128
    ensures value { result ≡ m.on_bits bit_and basic left right }
    ensures fits { IsTrue (m.fits basic result) }
{
    value_of(basic, bits_of(basic, left) & bits_of(basic, right))
}

fn different_bits(basic: Basic, left: i128, right: i128) -> i128
    ensures value { result ≡ m.on_bits bit_xor basic left right }
    ensures fits { IsTrue (m.fits basic result) }
{
    value_of(basic, bits_of(basic, left) ^ bits_of(basic, right))
}

fn any_bits(basic: Basic, left: i128, right: i128) -> i128
    ensures value { result ≡ m.on_bits bit_or basic left right }
    ensures fits { IsTrue (m.fits basic result) }
{
    value_of(basic, bits_of(basic, left) | bits_of(basic, right))
}

fn are_equal(left: i128, right: i128) -> bool
    ensures { result ≡ int_eq left right }
{
    left == right
}

/// An operation on two values of a type; of a shift the type is the left one's, and the right one is a value alone
/// (6.5.6 to 6.5.13). Comparisons give an int.
pub fn operate(op: BinOp, basic: Basic, left: i128, right: i128) -> Result<i128, OpFault>
    requires left { IsTrue (m.fits basic left) }
    requires right { IsTrue (c.is_shift op || m.fits basic right) }
    ensures value { caused result ≡ m.operate op basic left right }
    ensures fits { IfOk result (λ v. IsTrue (m.fits (if c.is_comparison op then Int else basic) v)) }
{
    match op {
        BinOp::Mul => product(basic, left, right),
        BinOp::Div => quotient(basic, left, right),
        BinOp::Rem => remainder(basic, left, right),
        BinOp::Add => sum(basic, left, right),
        BinOp::Sub => difference(basic, left, right),
        BinOp::ShiftLeft => shift_left(basic, left, right),
        BinOp::ShiftRight => shift_right(basic, left, right),
        BinOp::Less => Ok(truth(left < right)),
        BinOp::Greater => Ok(truth(left > right)),
        BinOp::LessEqual => Ok(truth(left <= right)),
        BinOp::GreaterEqual => Ok(truth(left >= right)),
        BinOp::Equal => Ok(truth(are_equal(left, right))),
        BinOp::NotEqual => Ok(truth(!are_equal(left, right))),
        BinOp::BitAnd => Ok(both_bits(basic, left, right)),
        BinOp::BitXor => Ok(different_bits(basic, left, right)),
        BinOp::BitOr => Ok(any_bits(basic, left, right)),
    }
}

/// The right operand in the type of an operation; a shift's is left as it is.
fn right_operand(op: BinOp, basic: Basic, right: i128) -> i128
    ensures value { result ≡ (if c.is_shift op then right else m.convert basic right) }
    ensures fits { IsTrue (c.is_shift op || m.fits basic result) }
{
    if is_shift(op) {
        right
    } else {
        convert(right, basic)
    }
}

/// An operation in a type to which the operands are converted, but for a shift's right one.
fn calculate(op: BinOp, basic: Basic, left: i128, right: i128) -> Result<i128, OpFault>
    ensures value { caused result ≡ c.converted_operation op basic left right }
    ensures fits { IfOk result (λ v. IsTrue (m.fits (if c.is_comparison op then Int else basic) v)) }
{
    let right = right_operand(op, basic, right);
    operate(op, basic, convert(left, basic), right)
}

fn is_shift(op: BinOp) -> bool
    ensures { result ≡ c.is_shift op }
{
    match op {
        BinOp::ShiftLeft => true,
        BinOp::ShiftRight => true,
        _ => false,
    }
}

/// Whether the operator compares, so that its result has type int (6.5.9, 6.5.10).
pub fn is_comparison(op: BinOp) -> bool
    ensures { result ≡ c.is_comparison op }
{
    match op {
        BinOp::Less => true,
        BinOp::Greater => true,
        BinOp::LessEqual => true,
        BinOp::GreaterEqual => true,
        BinOp::Equal => true,
        BinOp::NotEqual => true,
        _ => false,
    }
}

/// The type in which an operation on operands of these types is done: a shift's is that of its
/// promoted left operand, and another operation's is their common type (6.3.2.8, 6.5.8).
pub fn operand_type(op: BinOp, left: Basic, right: Basic) -> Basic
    ensures { result ≡ c.operand_type op left right }
{
    if is_shift(op) {
        promoted(left)
    } else {
        common(left, right)
    }
}

fn result_type(op: BinOp, operands: Basic) -> Basic
    ensures { result ≡ (if c.is_comparison op then Int else operands) }
{
    if is_comparison(op) {
        Basic::Int
    } else {
        operands
    }
}

/// An operation on constants, with the promotions and usual conversions of its operands.
///
/// `1 << 31` on ints is `BadShift`; `-7 % 3` is -1 and `-8 >> 1` is -4.
pub fn const_op(op: BinOp, left: Const, right: Const) -> Result<Const, OpFault>
    ensures basic { IfOk result (λ made. made.basic ≡ c.result_type op left.basic right.basic) }
    ensures value { IfOk result (λ made. c.calculated op left right ≡ Ok made.value) }
    ensures fault { IfErr result (λ fault. c.calculated op left right ≡ Err (cause_of fault)) }
{
    let operands = operand_type(op, left.basic, right.basic);
    match calculate(op, operands, left.value, right.value) {
        Ok(value) => Ok(Const {
            value,
            basic: result_type(op, operands),
        }),
        Err(fault) => Err(fault),
    }
}
