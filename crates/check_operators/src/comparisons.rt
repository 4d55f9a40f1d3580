//! Comparisons, also of pointers (ISO/IEC 9899:2024, 6.5.9, 6.5.10).
ghost use Rattle.std.specs.Prelude.{◌≡◌, true, false, ◌&&◌, not, Ok, IfOk, IfErr, if◌then◌else◌};
ghost use Rattle.model_types.specs.Types.{form_of_type};
ghost use Rattle.model_types.specs.Conversions.{is_comparison};
ghost use Rattle.model_core.specs.CoreTypes as t;
ghost use Rattle.model_core.specs.SameTypes as s;
ghost use Rattle.model_core.specs.TypedParts as p;
ghost use Rattle.model_core.specs.TypedExpr.{form_of};
ghost use Rattle.model_core.specs.Core as unit;
ghost use Rattle.model_checking.specs.Meanings.{a_value};
ghost use Rattle.model_checking.specs.MadeCore as c;
ghost use Rattle.model_checking.specs.PointerRules as m;
ghost use Rattle.check_base.specs.Broken.{Broken};
ghost use Rattle.check_base.specs.Meanings.{meaning_of};
ghost use Rattle.core_tree.specs.CoreTrees.{expr_tree};
ghost use Rattle.check_operators.specs.Seen.{seen};

use crate::operations::{are_integers, common_operation, operation};
use crate::values::Values;
use c_types::{BinOp, CType};
use cake_base::NoMemory;
use check_base::{CheckError, Meaning, constraint};
use check_constants::is_null_constant;
use check_types::is_pointer;
use check_values::{converted, is_void_pointer, takes};
use core_tree::{CoreExpr, Mark};
use std::alloc::Global;

fn is_pointer_or_null(value: &CoreExpr) -> bool
    ensures { result ≡ m.is_pointer_or_null (expr_tree value.now) }
{
    is_pointer(value.ty()) || is_null_constant(value)
}

fn may_be_compared(left: &CoreExpr, right: &CoreExpr) -> bool
    ensures { result ≡ m.may_be_compared (expr_tree left.now) (expr_tree right.now) }
{
    are_integers(left, right) || is_pointer_or_null(left) && is_pointer_or_null(right)
}

/// A null pointer constant beside a value of a pointer type becomes one of that type.
#[tactic(auto, using(crate::proofs::ComparisonLaws::null_converts, crate::proofs::ComparisonLaws::null_fits))]
fn beside_pointer(alloc: Global, other: &CType, value: CoreExpr) -> Result<CoreExpr, NoMemory>
    ensures { IfOk result (λ made. expr_tree made ≡ (if t.is_pointer (form_of_type other.now) && s.is_null_constant (expr_tree value) then c.converted other.now (expr_tree value) else expr_tree value)) }
{
    if is_pointer(other) && is_null_constant(&value) {
        converted(alloc, other, value)
    } else {
        Ok(value)
    }
}

/// A pointer to an object beside one to `void` becomes one to `void`.
#[tactic(auto, using(crate::proofs::ComparisonLaws::void_converts, crate::proofs::ComparisonLaws::void_fits))]
fn beside_void(alloc: Global, other: &CType, value: CoreExpr) -> Result<CoreExpr, NoMemory>
    requires { s.is_void_pointer (form_of_type other.now) ≡ true → p.is_object_pointer (form_of (expr_tree value)) ≡ true }
    ensures { IfOk result (λ made. expr_tree made ≡ (if s.is_void_pointer (form_of_type other.now) && not (s.is_void_pointer (form_of (expr_tree value))) then c.converted other.now (expr_tree value) else expr_tree value)) }
{
    if is_void_pointer(other) && !is_void_pointer(value.ty()) {
        converted(alloc, other, value)
    } else {
        Ok(value)
    }
}

/// A comparison of two pointers that the operator takes.
#[tactic(auto, using(crate::proofs::ComparisonLaws::left_object, crate::proofs::ComparisonLaws::right_object, crate::proofs::ComparisonLaws::both_taken))]
fn pointers(
    alloc: Global,
    op: BinOp,
    mark: Mark,
    left: CoreExpr,
    right: CoreExpr,
) -> Result<Meaning, NoMemory>
    requires comparison { is_comparison op ≡ true }
    requires takes { p.takes op (form_of (expr_tree left)) (form_of (expr_tree right)) ≡ true }
    ensures { IfOk result (λ made. meaning_of made ≡ a_value (unit.Binary op (m.beside_void (expr_tree right) (expr_tree left)) (m.beside_void (expr_tree left) (expr_tree right)) mark)) }
{
    let left_type = left.ty().copy(alloc)?;
    let left = beside_void(alloc, right.ty(), left)?;
    let right = beside_void(alloc, &left_type, right)?;
    operation(alloc, op, mark, left, right)
}

/// C19 at the operator, where two pointers don't agree, or for an order are to functions.
fn comparison_of_pointers(
    alloc: Global,
    op: BinOp,
    mark: Mark,
    left: CoreExpr,
    right: CoreExpr,
) -> Result<Meaning, CheckError>
    requires { is_comparison op ≡ true }
    ensures ok { IfOk result (λ made. m.comparison_of_pointers op mark (expr_tree left) (expr_tree right) ≡ Ok (meaning_of made)) }
    ensures err { IfErr result (λ e. Broken e (m.comparison_of_pointers op mark (expr_tree left) (expr_tree right))) }
{
    if takes(alloc, op, left.ty(), right.ty())? {
        Ok(pointers(alloc, op, mark, left, right)?)
    } else {
        drop(left);
        drop(right);
        Err(CheckError::Fault(constraint(mark.at, 19)))
    }
}

/// A comparison of a pointer with a pointer or with a null pointer constant.
fn with_null(
    alloc: Global,
    op: BinOp,
    mark: Mark,
    left: CoreExpr,
    right: CoreExpr,
) -> Result<Meaning, CheckError>
    requires { is_comparison op ≡ true }
    ensures ok { IfOk result (λ made. m.comparison_of_pointers op mark (m.beside_pointer (expr_tree right) (expr_tree left)) (m.beside_pointer (expr_tree left) (expr_tree right)) ≡ Ok (meaning_of made)) }
    ensures err { IfErr result (λ e. Broken e (m.comparison_of_pointers op mark (m.beside_pointer (expr_tree right) (expr_tree left)) (m.beside_pointer (expr_tree left) (expr_tree right)))) }
{
    let left_type = left.ty().copy(alloc)?;
    let left = beside_pointer(alloc, right.ty(), left)?;
    let right = beside_pointer(alloc, &left_type, right)?;
    comparison_of_pointers(alloc, op, mark, left, right)
}

/// A comparison of integers in their common type, or of pointers and null pointer constants. C09 at the operator,
/// where the operands are neither; C19 there, where two pointers don't agree.
#[tactic(auto, using(crate::proofs::ComparisonLaws::comparison_is_no_shift))]
pub fn comparison(alloc: Global, op: BinOp, mark: Mark, both: Values) -> Result<Meaning, CheckError>
    requires { is_comparison op ≡ true }
    ensures ok { IfOk result (λ made. m.comparison op mark (seen both.left) (seen both.right) ≡ Ok (meaning_of made)) }
    ensures err { IfErr result (λ e. Broken e (m.comparison op mark (seen both.left) (seen both.right))) }
{
    let (left, right) = (both.left.value, both.right.value);
    if !may_be_compared(&left, &right) {
        drop(left);
        drop(right);
        return Err(CheckError::Fault(constraint(mark.at, 9)));
    }
    if are_integers(&left, &right) {
        Ok(common_operation(alloc, op, mark, left, right)?)
    } else {
        with_null(alloc, op, mark, left, right)
    }
}
