//! Integer constant expressions and null pointer constants (ISO/IEC 9899:2024, 6.3.3.3, 6.6).
ghost use Rattle.std.specs.Prelude.{◌≡◌, true, IfSome, Ok, Err, IfOk, IfErr};
ghost use Rattle.model_core.specs.SameTypes as s;
ghost use Rattle.model_core.specs.TypedExpr.{form_of};
ghost use Rattle.model_checking.specs.ConstantValues as m;
ghost use Rattle.check_constants.specs.IntegerValues.{is_value_in, value_of};
ghost use Rattle.core_tree.specs.CoreTrees.{expr_tree};

use crate::operations::{
    is_zero, of_binary, of_choice, of_constant, of_conversion, of_logic, of_unary,
};
use c_types::Const;
use cake_base::{Fault, Place};
use check_base::constraint;
use check_types::{basic_of, is_integer};
use check_values::is_plain_void_pointer;
use core_tree::{CoreExpr, CoreExprForm};

/// Whether an expression is built of integer constants by conversions to integer types, operators, `&&`, `||` and
/// `?:` alone, the parts that aren't evaluated among them.
pub fn is_built_of_constants(e: &CoreExpr) -> bool
    ensures { result ≡ s.is_built_of_constants (expr_tree e.now) }
{
    match e.form() {
        CoreExprForm::Constant { ty, .. } => is_integer(ty),
        CoreExprForm::Convert { ty, operand, .. } => {
            is_integer(ty) && is_built_of_constants(operand)
        }
        CoreExprForm::Unary { operand, .. } => is_built_of_constants(operand),
        CoreExprForm::Binary { left, right, .. } => {
            is_built_of_constants(left) && is_built_of_constants(right)
        }
        CoreExprForm::Logic { left, right, .. } => {
            is_built_of_constants(left) && is_built_of_constants(right)
        }
        CoreExprForm::Choice {
            condition,
            first,
            second,
            ..
        } => {
            is_built_of_constants(condition)
                && is_built_of_constants(first)
                && is_built_of_constants(second)
        }
        CoreExprForm::Load { .. } => false,
        CoreExprForm::Address { .. } => false,
        CoreExprForm::FunctionRef { .. } => false,
        CoreExprForm::Call { .. } => false,
        CoreExprForm::Assign { .. } => false,
        CoreExprForm::Step { .. } => false,
        CoreExprForm::MemberValue { .. } => false,
        CoreExprForm::Comma { .. } => false,
    }
}

/// The value of an expression that is built of integer constants, one of its type; none, where it is undefined in a
/// part that is evaluated.
#[tactic(auto, using(crate::proofs::ConstantLaws::constant_typed, crate::proofs::ConstantLaws::unary_typed, crate::proofs::ConstantLaws::binary_typed, crate::proofs::ConstantLaws::choice_value))]
pub fn constant_value(e: &CoreExpr) -> Option<i128>
    ensures value { result ≡ s.constant_value (expr_tree e.now) }
    ensures fits { IfSome result (λ v. is_value_in (form_of (expr_tree e.now)) v ≡ true) }
{
    match e.form() {
        CoreExprForm::Constant { value, ty, .. } => of_constant(ty, *value),
        CoreExprForm::Convert { ty, operand, .. } => of_conversion(ty, constant_value(operand)),
        CoreExprForm::Unary { op, operand, .. } => {
            of_unary(*op, operand.ty(), constant_value(operand))
        }
        CoreExprForm::Binary {
            op,
            left,
            right,
            ..
        } => of_binary(
            *op,
            left.ty(),
            right.ty(),
            constant_value(left),
            constant_value(right),
        ),
        CoreExprForm::Logic {
            op,
            left,
            right,
            ..
        } => of_logic(*op, constant_value(left), constant_value(right)),
        CoreExprForm::Choice {
            condition,
            first,
            second,
            ..
        } => of_choice(
            constant_value(condition),
            constant_value(first),
            constant_value(second),
            first.ty(),
        ),
        CoreExprForm::Load { .. } => None,
        CoreExprForm::Address { .. } => None,
        CoreExprForm::FunctionRef { .. } => None,
        CoreExprForm::Call { .. } => None,
        CoreExprForm::Assign { .. } => None,
        CoreExprForm::Step { .. } => None,
        CoreExprForm::MemberValue { .. } => None,
        CoreExprForm::Comma { .. } => None,
    }
}

/// The value of an integer constant expression (6.6); none, where it isn't one, or is undefined.
pub fn integer_constant(e: &CoreExpr) -> Option<i128>
    ensures { result ≡ s.integer_constant (expr_tree e.now) }
{
    if is_built_of_constants(e) {
        constant_value(e)
    } else {
        None
    }
}

fn is_zero_constant(value: Option<i128>) -> bool
    ensures { result ≡ s.is_zero_constant value }
{
    match value {
        Some(value) => is_zero(value),
        None => false,
    }
}

/// Whether an expression is a null pointer constant: `nullptr`, an integer constant expression of value 0, or one
/// cast to `void *` (6.3.3.3).
pub fn is_null_constant(e: &CoreExpr) -> bool
    ensures { result ≡ s.is_null_constant (expr_tree e.now) }
{
    match e.form() {
        CoreExprForm::Constant { value, ty, .. } => {
            is_zero(*value) && (is_integer(ty) || is_plain_void_pointer(ty))
        }
        CoreExprForm::Convert { ty, operand, .. } => {
            if is_plain_void_pointer(ty) {
                is_zero_constant(integer_constant(operand))
            } else {
                is_zero_constant(integer_constant(e))
            }
        }
        CoreExprForm::Unary { .. } => is_zero_constant(integer_constant(e)),
        CoreExprForm::Binary { .. } => is_zero_constant(integer_constant(e)),
        CoreExprForm::Logic { .. } => is_zero_constant(integer_constant(e)),
        CoreExprForm::Choice { .. } => is_zero_constant(integer_constant(e)),
        CoreExprForm::Load { .. } => false,
        CoreExprForm::Address { .. } => false,
        CoreExprForm::FunctionRef { .. } => false,
        CoreExprForm::Call { .. } => false,
        CoreExprForm::Assign { .. } => false,
        CoreExprForm::Step { .. } => false,
        CoreExprForm::MemberValue { .. } => false,
        CoreExprForm::Comma { .. } => false,
    }
}

/// The value of an integer constant expression with its type, at its first token. C23, where it isn't one; C24,
/// where an operation is undefined in a part that is evaluated.
pub fn constant_of(first: Place, e: &CoreExpr) -> Result<Const, Fault>
    ensures ok { IfOk result (λ value. m.constant_of first (expr_tree e.now) ≡ Ok (value_of value)) }
    ensures err { IfErr result (λ fault. m.constant_of first (expr_tree e.now) ≡ Err fault) }
{
    if !is_built_of_constants(e) {
        return Err(constraint(first, 23));
    }
    match constant_value(e) {
        Some(value) => Ok(Const {
            value,
            basic: basic_of(e.ty()),
        }),
        None => Err(constraint(first, 24)),
    }
}
