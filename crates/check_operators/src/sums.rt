//! Sums and differences, also with pointers (ISO/IEC 9899:2024, 6.5.7).
ghost use Rattle.std.specs.Prelude.{◌≡◌, true, false, Ok, IfOk, IfErr};
ghost use Rattle.model_types.specs.Types.{form_of_type};
ghost use Rattle.model_types.specs.Conversions.{is_shift};
ghost use Rattle.model_core.specs.TypedParts as p;
ghost use Rattle.model_core.specs.TypedExpr.{form_of};
ghost use Rattle.model_checking.specs.Meanings.{a_value};
ghost use Rattle.model_checking.specs.MadeCore as c;
ghost use Rattle.model_checking.specs.PointerRules as m;
ghost use Rattle.check_base.specs.Broken.{Broken};
ghost use Rattle.check_base.specs.Meanings.{meaning_of};
ghost use Rattle.core_tree.specs.CoreTrees.{expr_tree};
ghost use Rattle.check_operators.specs.Rules as r;
ghost use Rattle.check_operators.specs.Seen.{seen};

use crate::faults::{moved_fault, or_fault};
use crate::operations::{are_integers, common_operation, operation};
use crate::values::Values;
use c_types::{BinOp, CType, Structs};
use cake_base::{Fault, NoMemory, Place};
use check_base::{CheckError, Meaning, constraint, wants};
use check_constants::is_null_constant;
use check_types::{is_integer, is_pointer};
use check_values::alike_pointers;
use core_tree::{CoreExpr, Mark};
use std::alloc::Global;

/// Whether two types are a pointer and an integer.
pub fn are_moved(pointer: &CType, count: &CType) -> bool
    ensures { result ≡ m.are_moved (form_of_type pointer.now) (form_of_type count.now) }
{
    is_pointer(pointer) && is_integer(count)
}

/// Whether a value of one type may be added to, or subtracted from, one of another.
fn may_be_added(op: BinOp, left: &CType, right: &CType) -> bool
    requires { r.is_sum op ≡ true }
    ensures { result ≡ m.may_be_added op (form_of_type left.now) (form_of_type right.now) }
{
    let plain = is_integer(left) && is_integer(right) || are_moved(left, right);
    if op == BinOp::Add {
        plain || are_moved(right, left)
    } else {
        plain || is_pointer(left) && is_pointer(right)
    }
}

/// Whether two values may be subtracted as far as the types tell to which pointers point.
fn may_be_apart(alloc: Global, left: &CoreExpr, right: &CoreExpr) -> Result<bool, NoMemory>
    ensures { IfOk result (λ may. may ≡ m.may_be_apart (expr_tree left.now) (expr_tree right.now)) }
{
    let alike = alike_pointers(alloc, left.ty(), right.ty())?;
    let are_pointers = is_pointer(left.ty()) && is_pointer(right.ty());
    Ok(!are_pointers || alike || is_null_constant(left) || is_null_constant(right))
}

/// What a sum or a difference breaks, but for the kinds of its operands.
fn sum_fault(
    alloc: Global,
    structs: &Structs,
    at: Place,
    both: &Values,
) -> Result<Option<Fault>, NoMemory>
    ensures { IfOk result (λ fault. fault ≡ m.sum_fault structs.now at (seen both.now.left) (seen both.now.right)) }
{
    let Values { left, right } = both;
    let apart = wants(may_be_apart(alloc, &left.value, &right.value)?, at, 19);
    let left = moved_fault(structs, left.value.ty(), left.first);
    let right = moved_fault(structs, right.value.ty(), right.first);
    Ok(or_fault(left, or_fault(apart, right)))
}

fn added(
    alloc: Global,
    op: BinOp,
    mark: Mark,
    left: CoreExpr,
    right: CoreExpr,
) -> Result<Meaning, NoMemory>
    requires shift { is_shift op ≡ false }
    requires pointers { c.are_integers (form_of (expr_tree left)) (form_of (expr_tree right)) ≡ false → p.takes op (form_of (expr_tree left)) (form_of (expr_tree right)) ≡ true }
    ensures { IfOk result (λ made. meaning_of made ≡ a_value (m.added op mark (expr_tree left) (expr_tree right))) }
{
    if are_integers(&left, &right) {
        common_operation(alloc, op, mark, left, right)
    } else {
        operation(alloc, op, mark, left, right)
    }
}

/// A sum or a difference: of integers in their common type, of a pointer and an integer, or of two pointers. C09 at
/// the operator, where it doesn't take the operands; C12 at a pointer, where it is to no complete object; C19 at the
/// operator, where two pointers are to types that aren't compatible.
#[tactic(auto, using(crate::proofs::SumLaws::sum_is_no_shift))]
pub fn sum(
    alloc: Global,
    structs: &Structs,
    op: BinOp,
    mark: Mark,
    both: Values,
) -> Result<Meaning, CheckError>
    requires { r.is_sum op ≡ true }
    ensures ok { IfOk result (λ made. m.sum structs.now op mark (seen both.left) (seen both.right) ≡ Ok (meaning_of made)) }
    ensures err { IfErr result (λ e. Broken e (m.sum structs.now op mark (seen both.left) (seen both.right))) }
{
    if !may_be_added(op, both.left.value.ty(), both.right.value.ty()) {
        drop(both);
        return Err(CheckError::Fault(constraint(mark.at, 9)));
    }
    match sum_fault(alloc, structs, mark.at, &both) {
        Ok(None) => Ok(added(alloc, op, mark, both.left.value, both.right.value)?),
        Ok(Some(fault)) => {
            drop(both);
            Err(CheckError::Fault(fault))
        }
        Err(NoMemory) => {
            drop(both);
            Err(CheckError::NoMemory)
        }
    }
}
