//! The operators of conditions (ISO/IEC 9899:2024, 6.5.4.3 to 6.5.16), on parts that may be undefined.
ghost use Rattle.std.specs.Prelude.{◌≡◌, ◌&&◌, not, ◌-ℤ◌, ◌≤ℤ◌, ◌<ℤ◌, pos, neg_ℤ, ◌^◌, false, true, IsTrue, Some, None, MatchOption};
ghost use Rattle.model_conditions.specs.ConditionValues as spec;
ghost use Rattle.model_types.specs.Conversions as conversions;
ghost use Rattle.model_types.specs.Operations as operations;
ghost use Rattle.model_conditions.specs.declared.conditions.Prefix.TheVariants as sign;
ghost use Rattle.model_conditions.specs.declared.conditions.Infix.TheVariants as operator;
ghost use Rattle.model_types.specs.declared.operators.LogicOp.TheVariants as logic;
ghost use Rattle.pp_conditions.specs.Parts.{Fitting};

use crate::values::{Part, typed, wide};
use c_types::{
    Basic, BinOp, Const, const_op, convert, fits, is_comparison, is_signed, operand_type,
};
use model_conditions::conditions::{Infix, Prefix};
use model_types::operators::LogicOp;

/// 1 for what is true, else 0.
fn truth(holds: bool) -> i128
    ensures value { result ≡ operations.truth holds }
    ensures fits { IsTrue (operations.fits (spec.wide false) result) }
{
    if holds { 1 } else { 0 }
}

/// Whether a value isn't 0.
pub fn is_nonzero(value: i128) -> bool
    ensures { result ≡ spec.is_nonzero value }
{
    value != 0
}

/// A value of 64 bits with the other sign.
fn opposite(value: i128) -> i128
    requires low { neg_ℤ (pos (2 ^ 63)) ≤ℤ value }
    requires high { value <ℤ pos (2 ^ 64) }
    ensures { result ≡ pos 0 -ℤ value }
{
    0 - value
}

/// A value of 64 bits with each bit inverted.
fn inverted(value: i128) -> i128
    requires low { neg_ℤ (pos (2 ^ 63)) ≤ℤ value }
    requires high { value <ℤ pos (2 ^ 64) }
    ensures { result ≡ pos 0 -ℤ value -ℤ pos 1 }
{
    0 - value - 1
}

/// The value of unary `-`; none where it is out of range.
fn negative(unsigned: bool, value: i128) -> Option<i128>
    requires { IsTrue (operations.fits (spec.wide unsigned) value) }
    ensures value { result ≡ spec.unary_value sign.Minus (spec.wide unsigned) value }
    ensures fits { Fitting unsigned result }
{
    let difference = opposite(value);
    if unsigned {
        Some(convert(difference, Basic::UnsignedLong))
    } else if fits(Basic::Long, difference) {
        Some(difference)
    } else {
        None
    }
}

/// The value of `~`.
fn complement(unsigned: bool, value: i128) -> Option<i128>
    requires { IsTrue (operations.fits (spec.wide unsigned) value) }
    ensures value { result ≡ spec.unary_value sign.Complement (spec.wide unsigned) value }
    ensures fits { Fitting unsigned result }
{
    if unsigned {
        Some(convert(inverted(value), Basic::UnsignedLong))
    } else {
        Some(convert(inverted(value), Basic::Long))
    }
}

fn minus(e: &Part) -> Part
    ensures { result ≡ spec.of_unary sign.Minus e.now }
{
    match e.value() {
        None => Part::undefined(e.is_unsigned()),
        Some(value) => Part::new(e.is_unsigned(), negative(e.is_unsigned(), value)),
    }
}

fn inverse(e: &Part) -> Part
    ensures { result ≡ spec.of_unary sign.Complement e.now }
{
    match e.value() {
        None => Part::undefined(e.is_unsigned()),
        Some(value) => Part::new(e.is_unsigned(), complement(e.is_unsigned(), value)),
    }
}

fn negation(e: &Part) -> Part
    ensures { result ≡ spec.of_unary sign.Not e.now }
{
    match e.value() {
        None => Part::undefined(false),
        Some(value) => Part::new(false, Some(truth(value == 0))),
    }
}

/// A unary operator on a part.
pub fn unary(op: Prefix, e: Part) -> Part
    ensures { result ≡ spec.of_unary op e }
{
    match op {
        Prefix::Plus => e,
        Prefix::Minus => minus(&e),
        Prefix::Complement => inverse(&e),
        Prefix::Not => negation(&e),
    }
}

/// An operation on values; none where it is undefined.
fn operated(op: BinOp, left: Const, right: Const) -> Option<i128>
    ensures value { result ≡ spec.if_defined (conversions.calculated op left right) }
    ensures fits { MatchOption result (Unit {0}) (λ v. IsTrue (operations.fits (conversions.result_type op left.basic right.basic) v)) }
{
    match const_op(op, left, right) {
        Ok(made) => Some(made.value),
        Err(_) => None,
    }
}

/// Whether the result of an operation is unsigned.
#[tactic(auto, using(crate::proofs::PartLaws::unsigned_is))]
fn result_unsigned(op: BinOp, left: bool, right: bool) -> bool
    ensures { result ≡ (not (conversions.is_comparison op) && spec.operated_unsigned op left right) }
{
    !is_comparison(op) && !is_signed(operand_type(op, wide(left), wide(right)))
}

/// An operation on two parts that are defined.
fn both(op: BinOp, l: &Part, r: &Part, left: i128, right: i128) -> Part
    requires left { l.now.value ≡ Some left }
    requires right { r.now.value ≡ Some right }
    requires left_fits { IsTrue (operations.fits (spec.wide l.now.unsigned) left) }
    requires right_fits { IsTrue (operations.fits (spec.wide r.now.unsigned) right) }
    ensures { result ≡ spec.of_binary (operator.Integer op) l.now r.now }
{
    let unsigned = result_unsigned(op, l.is_unsigned(), r.is_unsigned());
    let value = operated(
        op,
        typed(l.is_unsigned(), left),
        typed(r.is_unsigned(), right),
    );
    Part::new(unsigned, value)
}

fn integer(op: BinOp, l: &Part, r: &Part) -> Part
    ensures { result ≡ spec.of_binary (operator.Integer op) l.now r.now }
{
    match l.value() {
        None => Part::undefined(result_unsigned(op, l.is_unsigned(), r.is_unsigned())),
        Some(left) => match r.value() {
            None => Part::undefined(result_unsigned(op, l.is_unsigned(), r.is_unsigned())),
            Some(right) => both(op, l, r, left, right),
        },
    }
}

/// Whether a part isn't 0, as a number.
fn truth_of(e: &Part) -> Part
    ensures { result ≡ record { unsigned = false; value = spec.truth_of e.now.value } }
{
    match e.value() {
        None => Part::undefined(false),
        Some(value) => Part::new(false, Some(truth(is_nonzero(value)))),
    }
}

fn and(l: &Part, r: &Part) -> Part
    ensures { result ≡ spec.of_binary (operator.Logic logic.And) l.now r.now }
{
    match l.value() {
        None => Part::undefined(false),
        Some(left) => {
            if is_nonzero(left) {
                truth_of(r)
            } else {
                Part::new(false, Some(truth(false)))
            }
        }
    }
}

fn or(l: &Part, r: &Part) -> Part
    ensures { result ≡ spec.of_binary (operator.Logic logic.Or) l.now r.now }
{
    match l.value() {
        None => Part::undefined(false),
        Some(left) => {
            if is_nonzero(left) {
                Part::new(false, Some(truth(true)))
            } else {
                truth_of(r)
            }
        }
    }
}

/// A binary operator on parts.
pub fn binary(op: Infix, l: Part, r: Part) -> Part
    ensures { result ≡ spec.of_binary op l r }
{
    match op {
        Infix::Integer(op) => integer(op, &l, &r),
        Infix::Logic(LogicOp::And) => and(&l, &r),
        Infix::Logic(LogicOp::Or) => or(&l, &r),
    }
}

/// A part converted to the type of the conditional operator.
fn converted(e: &Part, unsigned: bool) -> Part
    ensures { result ≡ record { unsigned = unsigned; value = spec.converted_to (spec.wide unsigned) e.now.value } }
{
    match e.value() {
        None => Part::undefined(unsigned),
        Some(value) => Part::new(unsigned, Some(convert(value, wide(unsigned)))),
    }
}

/// The conditional operator on parts.
pub fn choice(test: Part, first: Part, second: Part) -> Part
    ensures { result ≡ spec.of_choice test first second }
{
    let unsigned = first.is_unsigned() || second.is_unsigned();
    match test.value() {
        None => Part::undefined(unsigned),
        Some(value) => {
            if is_nonzero(value) {
                converted(&first, unsigned)
            } else {
                converted(&second, unsigned)
            }
        }
    }
}
