//! Operators of integers (ISO/IEC 9899:2024, 6.5.6 to 6.5.8, 6.5.11 to 6.5.13).
ghost use Rattle.std.specs.Prelude.{◌≡◌, true, false, Ok, IfOk, IfErr};
ghost use Rattle.model_types.specs.Conversions.{is_shift};
ghost use Rattle.model_core.specs.TypedParts as p;
ghost use Rattle.model_core.specs.TypedExpr.{form_of};
ghost use Rattle.model_core.specs.Core as unit;
ghost use Rattle.model_checking.specs.Meanings.{a_value};
ghost use Rattle.model_checking.specs.MadeCore as c;
ghost use Rattle.model_checking.specs.BinaryRules as m;
ghost use Rattle.check_base.specs.Broken.{Broken};
ghost use Rattle.check_base.specs.Meanings.{meaning_of};
ghost use Rattle.core_tree.specs.CoreTrees.{expr_tree};
ghost use Rattle.check_operators.specs.Seen.{seen};

use crate::values::Values;
use c_types::BinOp;
use cake_base::NoMemory;
use check_base::{CheckError, Meaning, constraint};
use check_types::is_integer;
use check_values::{in_common_type, promoted_value};
use core_tree::{CoreExpr, CoreExprForm, Mark};
use std::alloc::Global;

/// An operation on values that the operator takes.
pub fn operation(
    alloc: Global,
    op: BinOp,
    mark: Mark,
    left: CoreExpr,
    right: CoreExpr,
) -> Result<Meaning, NoMemory>
    requires { p.takes op (form_of (expr_tree left)) (form_of (expr_tree right)) ≡ true }
    ensures { IfOk result (λ made. meaning_of made ≡ a_value (unit.Binary op (expr_tree left) (expr_tree right) mark)) }
{
    let _left = left.form();
    let _right = right.form();
    let value = CoreExpr::new(
        alloc,
        CoreExprForm::Binary {
            op,
            left,
            right,
            mark,
        },
    )?;
    Ok(Meaning::Value(value))
}

/// Whether two values are integers.
pub fn are_integers(left: &CoreExpr, right: &CoreExpr) -> bool
    ensures { result ≡ c.are_integers (form_of (expr_tree left.now)) (form_of (expr_tree right.now)) }
{
    is_integer(left.ty()) && is_integer(right.ty())
}

/// An operation, no shift, on two integers in their common type.
pub fn common_operation(
    alloc: Global,
    op: BinOp,
    mark: Mark,
    left: CoreExpr,
    right: CoreExpr,
) -> Result<Meaning, NoMemory>
    requires shift { is_shift op ≡ false }
    requires integers { c.are_integers (form_of (expr_tree left)) (form_of (expr_tree right)) ≡ true }
    ensures { IfOk result (λ made. meaning_of made ≡ a_value (c.in_common_type op mark (expr_tree left) (expr_tree right))) }
{
    let value = in_common_type(alloc, op, mark, left, right)?;
    Ok(Meaning::Value(value))
}

/// An operation, no shift, on two integers in their common type; C09 at the operator, where they are none.
pub fn arithmetic(alloc: Global, op: BinOp, mark: Mark, both: Values) -> Result<Meaning, CheckError>
    requires { is_shift op ≡ false }
    ensures ok { IfOk result (λ made. m.arithmetic op mark (seen both.left) (seen both.right) ≡ Ok (meaning_of made)) }
    ensures err { IfErr result (λ e. Broken e (m.arithmetic op mark (seen both.left) (seen both.right))) }
{
    let (left, right) = (both.left.value, both.right.value);
    if are_integers(&left, &right) {
        Ok(common_operation(alloc, op, mark, left, right)?)
    } else {
        drop(left);
        drop(right);
        Err(CheckError::Fault(constraint(mark.at, 9)))
    }
}

#[tactic(auto, using(crate::proofs::OperationLaws::shift_takes))]
fn shifted(
    alloc: Global,
    op: BinOp,
    mark: Mark,
    left: CoreExpr,
    right: CoreExpr,
) -> Result<Meaning, NoMemory>
    requires shift { is_shift op ≡ true }
    requires integers { c.are_integers (form_of (expr_tree left)) (form_of (expr_tree right)) ≡ true }
    ensures { IfOk result (λ made. meaning_of made ≡ a_value (unit.Binary op (c.promoted_value (expr_tree left)) (c.promoted_value (expr_tree right)) mark)) }
{
    let left = promoted_value(alloc, left)?;
    let right = promoted_value(alloc, right)?;
    operation(alloc, op, mark, left, right)
}

/// A shift, of which each operand is promoted by itself; C09 at the operator, where one is no integer.
pub fn shift(alloc: Global, op: BinOp, mark: Mark, both: Values) -> Result<Meaning, CheckError>
    requires { is_shift op ≡ true }
    ensures ok { IfOk result (λ made. m.shift op mark (seen both.left) (seen both.right) ≡ Ok (meaning_of made)) }
    ensures err { IfErr result (λ e. Broken e (m.shift op mark (seen both.left) (seen both.right))) }
{
    let (left, right) = (both.left.value, both.right.value);
    if are_integers(&left, &right) {
        Ok(shifted(alloc, op, mark, left, right)?)
    } else {
        drop(left);
        drop(right);
        Err(CheckError::Fault(constraint(mark.at, 9)))
    }
}
