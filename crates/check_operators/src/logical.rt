//! `&&` and `||` (ISO/IEC 9899:2024, 6.5.14, 6.5.15).
ghost use Rattle.std.specs.Prelude.{◌≡◌, true, Ok, IfOk, IfErr};
ghost use Rattle.model_core.specs.TypedParts as p;
ghost use Rattle.model_core.specs.TypedExpr.{form_of};
ghost use Rattle.model_core.specs.Core as unit;
ghost use Rattle.model_checking.specs.BinaryRules as m;
ghost use Rattle.check_operators.specs.Rules as r;
ghost use Rattle.model_checking.specs.Meanings.{a_value};
ghost use Rattle.check_base.specs.Broken.{Broken};
ghost use Rattle.check_base.specs.Meanings.{meaning_of, operand_of};
ghost use Rattle.core_tree.specs.CoreTrees.{expr_tree};

use crate::values::values_of;
use c_types::Structs;
use cake_base::NoMemory;
use check_base::{CheckError, Meaning, Operand, constraint};
use check_values::{is_scalar, used_fault};
use core_tree::{CoreExpr, CoreExprForm, Mark};
use model_types::operators::LogicOp;
use std::alloc::Global;

fn of_scalars(
    alloc: Global,
    op: LogicOp,
    mark: Mark,
    left: CoreExpr,
    right: CoreExpr,
) -> Result<Meaning, NoMemory>
    requires left { p.is_scalar (form_of (expr_tree left)) ≡ true }
    requires right { p.is_scalar (form_of (expr_tree right)) ≡ true }
    ensures { IfOk result (λ made. meaning_of made ≡ a_value (unit.Logic op (expr_tree left) (expr_tree right) mark)) }
{
    let _left = left.form();
    let _right = right.form();
    let value = CoreExpr::new(
        alloc,
        CoreExprForm::Logic {
            op,
            left,
            right,
            mark,
        },
    )?;
    Ok(Meaning::Value(value))
}

/// Of integers and pointers; C09 at the operator, where they aren't.
fn of_operands(
    alloc: Global,
    op: LogicOp,
    mark: Mark,
    left: Operand,
    right: Operand,
) -> Result<Meaning, CheckError>
    ensures ok { IfOk result (λ made. r.scalar_logic op mark (operand_of left) (operand_of right) ≡ Ok (meaning_of made)) }
    ensures err { IfErr result (λ e. Broken e (r.scalar_logic op mark (operand_of left) (operand_of right))) }
{
    match values_of(alloc, left, right)? {
        Some(both) => {
            let (left, right) = (both.left.value, both.right.value);
            if is_scalar(left.ty()) && is_scalar(right.ty()) {
                Ok(of_scalars(alloc, op, mark, left, right)?)
            } else {
                drop(left);
                drop(right);
                Err(CheckError::Fault(constraint(mark.at, 9)))
            }
        }
        None => Err(CheckError::Fault(constraint(mark.at, 9))),
    }
}

/// `&&` or `||`, whose operands stay as they are. C21 and C22 of the left operand, where its value can't be used; C09
/// at the operator, where an operand is no integer and no pointer. On refusal the operands are dropped.
pub fn logic(
    alloc: Global,
    structs: &Structs,
    op: LogicOp,
    mark: Mark,
    left: Operand,
    right: Operand,
) -> Result<Meaning, CheckError>
    ensures ok { IfOk result (λ made. m.logic structs.now op mark (operand_of left) (operand_of right) ≡ Ok (meaning_of made)) }
    ensures err { IfErr result (λ e. Broken e (m.logic structs.now op mark (operand_of left) (operand_of right))) }
{
    match used_fault(structs, &left) {
        None => of_operands(alloc, op, mark, left, right),
        Some(fault) => {
            drop(left);
            drop(right);
            Err(CheckError::Fault(fault))
        }
    }
}
