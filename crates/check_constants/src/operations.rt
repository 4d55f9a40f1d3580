//! Operations on the values of constants, each of which is one of its type's (ISO/IEC 9899:2024, 6.6).
ghost use Rattle.std.specs.Prelude.{◌≡◌, true, false, pos, ◌-ℤ◌, IsTrue, IfSome, Some, None, if◌then◌else◌, ◌||◌, ◌&&◌, not};
ghost use Rattle.model_types.specs.Types.{form_of_type, Form, Integer};
ghost use Rattle.model_types.specs.declared.numbers.Basic.TheVariants.{Int};
ghost use Rattle.model_types.specs.Conversions as c;
ghost use Rattle.model_types.specs.Operations as o;
ghost use Rattle.model_core.specs.CoreTypes as t;
ghost use Rattle.model_core.specs.SameTypes as s;
ghost use Rattle.model_core.specs.TypedParts as p;
ghost use Rattle.check_constants.specs.IntegerValues.{is_value_in};

use c_types::{Basic, BinOp, CType, convert, operate};
use check_types::{basic_of, is_integer};
use model_types::operators::{LogicOp, UnaryOp};

fn truth(holds: bool) -> i128
    ensures { result ≡ o.truth holds }
{
    if holds { 1 } else { 0 }
}

/// Whether a value is 0.
pub fn is_zero(value: i128) -> bool
    ensures { result ≡ s.is_zero value }
{
    value == 0
}

/// The value of a constant, where it is an integer.
#[tactic(auto, using(crate::proofs::ConstantLaws::constant_in))]
pub fn of_constant(ty: &CType, value: i128) -> Option<i128>
    requires { p.constant_fits value (form_of_type ty.now) ≡ true }
    ensures value { result ≡ (if s.is_integer (form_of_type ty.now) then Some value else None) }
    ensures fits { IfSome result (λ v. is_value_in (form_of_type ty.now) v ≡ true) }
{
    if is_integer(ty) { Some(value) } else { None }
}

/// A value converted to an integer type; none, where the type is none.
#[tactic(auto, using(crate::proofs::ConstantLaws::value_from))]
pub fn of_conversion(ty: &CType, value: Option<i128>) -> Option<i128>
    ensures value { result ≡ (if s.is_integer (form_of_type ty.now) then s.with_one (λ v. Some (o.convert (t.basic_of (form_of_type ty.now)) v)) value else None) }
    ensures fits { IfSome result (λ v. is_value_in (form_of_type ty.now) v ≡ true) }
{
    if !is_integer(ty) {
        return None;
    }
    match value {
        Some(value) => Some(convert(value, basic_of(ty))),
        None => None,
    }
}

/// The complement of the bits of a value of a promoted type.
#[tactic(auto, using(crate::proofs::ConstantLaws::promoted_wraps))]
fn complement(basic: Basic, value: i128) -> i128
    requires { p.is_promoted (Integer basic) ≡ true }
    ensures value { result ≡ o.wrapped basic (pos 0 -ℤ value -ℤ pos 1) }
    ensures fits { IsTrue (o.fits basic result) }
{
    convert(-1 - value, basic)
}

/// The negative of a value of a type.
fn negative(basic: Basic, value: i128) -> Option<i128>
    requires { IsTrue (o.fits basic value) }
    ensures value { result ≡ s.value_or_none (o.result_in basic (pos 0 -ℤ value)) }
    ensures fits { IfSome result (λ v. IsTrue (o.fits basic v)) }
{
    match operate(BinOp::Sub, basic, 0, value) {
        Ok(value) => Some(value),
        Err(_) => None,
    }
}

/// A unary operation on a value of an operand's type.
#[tactic(auto, using(crate::proofs::ConstantLaws::promoted_operand, crate::proofs::ConstantLaws::value_fits, crate::proofs::ConstantLaws::unary_fits, crate::proofs::ConstantLaws::truth_fits))]
fn on_value(op: UnaryOp, ty: &CType, value: i128) -> Option<i128>
    requires takes { p.takes_one op (form_of_type ty.now) ≡ true }
    requires fits { is_value_in (form_of_type ty.now) value ≡ true }
    ensures value { result ≡ s.value_or_none (o.on_number op (t.basic_of (form_of_type ty.now)) value) }
    ensures fits { IfSome result (λ v. is_value_in (form_of_type (t.unary_type op ty.now)) v ≡ true) }
{
    let basic = basic_of(ty);
    match op {
        UnaryOp::Minus => negative(basic, value),
        UnaryOp::Complement => Some(complement(basic, value)),
        UnaryOp::Not => Some(truth(is_zero(value))),
    }
}

/// The value of a unary operation, from that of its operand.
pub fn of_unary(op: UnaryOp, ty: &CType, value: Option<i128>) -> Option<i128>
    requires takes { p.takes_one op (form_of_type ty.now) ≡ true }
    requires fits { IfSome value (λ v. is_value_in (form_of_type ty.now) v ≡ true) }
    ensures value { result ≡ s.with_one (λ v. s.value_or_none (o.on_number op (t.basic_of (form_of_type ty.now)) v)) value }
    ensures fits { IfSome result (λ v. is_value_in (form_of_type (t.unary_type op ty.now)) v ≡ true) }
{
    match value {
        Some(value) => on_value(op, ty, value),
        None => None,
    }
}

/// An operation on two values of a type; none, where it is undefined.
fn operated(op: BinOp, basic: Basic, a: i128, b: i128) -> Option<i128>
    requires left { IsTrue (o.fits basic a) }
    requires right { IsTrue (c.is_shift op || o.fits basic b) }
    ensures value { result ≡ s.value_or_none (o.operate op basic a b) }
    ensures fits { IfSome result (λ v. IsTrue (o.fits (if c.is_comparison op then Int else basic) v)) }
{
    match operate(op, basic, a, b) {
        Ok(value) => Some(value),
        Err(_) => None,
    }
}

/// A binary operation on values of its operands' types.
#[tactic(auto, using(crate::proofs::ConstantLaws::value_fits, crate::proofs::ConstantLaws::right_fits, crate::proofs::ConstantLaws::binary_fits))]
fn on_values(op: BinOp, left: &CType, right: &CType, a: i128, b: i128) -> Option<i128>
    requires takes { p.takes op (form_of_type left.now) (form_of_type right.now) ≡ true }
    requires left { is_value_in (form_of_type left.now) a ≡ true }
    requires right { is_value_in (form_of_type right.now) b ≡ true }
    ensures value { result ≡ s.value_or_none (o.operate op (t.basic_of (form_of_type left.now)) a b) }
    ensures fits { IfSome result (λ v. is_value_in (form_of_type (t.binary_type op left.now right.now)) v ≡ true) }
{
    operated(op, basic_of(left), a, b)
}

/// The value of a binary operation, from those of its operands.
pub fn of_binary(
    op: BinOp,
    left: &CType,
    right: &CType,
    a: Option<i128>,
    b: Option<i128>,
) -> Option<i128>
    requires takes { p.takes op (form_of_type left.now) (form_of_type right.now) ≡ true }
    requires left { IfSome a (λ v. is_value_in (form_of_type left.now) v ≡ true) }
    requires right { IfSome b (λ v. is_value_in (form_of_type right.now) v ≡ true) }
    ensures value { result ≡ s.with_two (λ v w. s.value_or_none (o.operate op (t.basic_of (form_of_type left.now)) v w)) a b }
    ensures fits { IfSome result (λ v. is_value_in (form_of_type (t.binary_type op left.now right.now)) v ≡ true) }
{
    match (a, b) {
        (Some(a), Some(b)) => on_values(op, left, right, a, b),
        (Some(_), None) => None,
        (None, Some(_)) => None,
        (None, None) => None,
    }
}

/// Whether a value is not 0, as an int.
#[tactic(auto, using(crate::proofs::ConstantLaws::truth_fits))]
fn truth_of(value: Option<i128>) -> Option<i128>
    ensures value { result ≡ s.with_one (λ v. Some (o.truth (not (s.is_zero v)))) value }
    ensures fits { IfSome result (λ v. is_value_in (Integer Int) v ≡ true) }
{
    match value {
        Some(value) => Some(truth(!is_zero(value))),
        None => None,
    }
}

fn on_logic(op: LogicOp, first: i128, second: Option<i128>) -> Option<i128>
    ensures value { result ≡ s.constant_logic op second first }
    ensures fits { IfSome result (λ v. is_value_in (Integer Int) v ≡ true) }
{
    match (op, is_zero(first)) {
        (LogicOp::And, true) => Some(0),
        (LogicOp::And, false) => truth_of(second),
        (LogicOp::Or, true) => truth_of(second),
        (LogicOp::Or, false) => Some(1),
    }
}

/// The value of `&&` or `||`; the second operand is asked where the first doesn't decide.
pub fn of_logic(op: LogicOp, first: Option<i128>, second: Option<i128>) -> Option<i128>
    ensures value { result ≡ s.with_one (s.constant_logic op second) first }
    ensures fits { IfSome result (λ v. is_value_in (Integer Int) v ≡ true) }
{
    match first {
        Some(first) => on_logic(op, first, second),
        None => None,
    }
}

/// The value of `?:`, that of its second or third operand.
pub fn of_choice(
    condition: Option<i128>,
    first: Option<i128>,
    second: Option<i128>,
    ty: &CType,
) -> Option<i128>
    requires first { IfSome first (λ v. is_value_in (form_of_type ty.now) v ≡ true) }
    requires second { IfSome second (λ v. is_value_in (form_of_type ty.now) v ≡ true) }
    ensures value { result ≡ s.with_one (λ v. if s.is_zero v then second else first) condition }
    ensures fits { IfSome result (λ v. is_value_in (form_of_type ty.now) v ≡ true) }
{
    let _form = ty.form();
    match condition {
        Some(value) => { if is_zero(value) { second } else { first } }
        None => None,
    }
}
