//! Operands whose values can be loaded.
ghost use Rattle.std.specs.Prelude.{◌≡◌, true, false, ◌&&◌, IfOk, IfSome, IfNone};
ghost use Rattle.model_core.specs.TypedParts.{is_scalar, is_storable};
ghost use Rattle.model_core.specs.TypedExpr.{form_of, object_form};
ghost use Rattle.model_core.specs.SourceMarks.{lvalue_mark};
ghost use Rattle.model_core.specs.Core as unit;
ghost use Rattle.model_checking.specs.MadeCore.{operand_form};
ghost use Rattle.check_base.specs.Meanings.{value_in, operand_of};
ghost use Rattle.core_tree.specs.CoreTrees.{expr_tree, lvalue_tree};
ghost use Rattle.check_operators.specs.Seen.{seen};

use cake_base::{NoMemory, Place};
use check_base::{Operand, OperandValue};
use check_values::is_storable;
use core_tree::{CoreExpr, CoreExprForm, CoreLvalue};
use std::alloc::Global;

/// A value, with the first token of the operand that has it.
#[derive(Drop)]
pub struct Value {
    pub value: CoreExpr,
    pub first: Place,
}

/// The values of the operands of a binary operator.
#[derive(Drop)]
pub struct Values {
    pub left: Value,
    pub right: Value,
}

/// What is loaded from an object.
pub fn load(alloc: Global, object: CoreLvalue) -> Result<CoreExpr, NoMemory>
    requires { is_storable (object_form (lvalue_tree object)) ≡ true }
    ensures { IfOk result (λ made. expr_tree made ≡ unit.Load (lvalue_tree object) (lvalue_mark (lvalue_tree object))) }
{
    let _typed = object.form();
    let mark = object.mark();
    CoreExpr::new(alloc, CoreExprForm::Load { object, mark })
}

/// The value of an operand; none only where it is no integer and no pointer. On refusal the operand is dropped.
#[tactic(auto, using(crate::proofs::ScalarLaws::unstored_no_scalar))]
pub fn value_of(alloc: Global, operand: Operand) -> Result<Option<Value>, NoMemory>
    ensures there { IfOk result (λ maybe. IfSome maybe (λ made. seen made ≡ operand_of operand)) }
    ensures none { IfOk result (λ maybe. IfNone maybe (is_scalar (operand_form (operand_of operand)) ≡ false)) }
{
    let Operand { value, first } = operand;
    match value {
        OperandValue::Read(value) => Ok(Some(Value { value, first })),
        OperandValue::Unread(object) => {
            if is_storable(object.ty()) {
                let value = load(alloc, object)?;
                Ok(Some(Value { value, first }))
            } else {
                drop(object);
                Ok(None)
            }
        }
    }
}

/// The values of two operands; none only where one of them is no integer and no pointer. On refusal the operands are
/// dropped.
pub fn values_of(alloc: Global, left: Operand, right: Operand) -> Result<Option<Values>, NoMemory>
    ensures left { IfOk result (λ maybe. IfSome maybe (λ both. seen both.left ≡ operand_of left)) }
    ensures right { IfOk result (λ maybe. IfSome maybe (λ both. seen both.right ≡ operand_of right)) }
    ensures none { IfOk result (λ maybe. IfNone maybe (is_scalar (operand_form (operand_of left)) && is_scalar (operand_form (operand_of right)) ≡ false)) }
{
    match value_of(alloc, left) {
        Ok(Some(left)) => beside(alloc, left, right),
        Ok(None) => {
            drop(right);
            Ok(None)
        }
        Err(NoMemory) => {
            drop(right);
            Err(NoMemory)
        }
    }
}

fn beside(alloc: Global, left: Value, right: Operand) -> Result<Option<Values>, NoMemory>
    ensures left { IfOk result (λ maybe. IfSome maybe (λ both. seen both.left ≡ seen left)) }
    ensures right { IfOk result (λ maybe. IfSome maybe (λ both. seen both.right ≡ operand_of right)) }
    ensures none { IfOk result (λ maybe. IfNone maybe (is_scalar (operand_form (operand_of right)) ≡ false)) }
{
    match value_of(alloc, right) {
        Ok(Some(right)) => Ok(Some(Values { left, right })),
        Ok(None) => {
            drop(left);
            Ok(None)
        }
        Err(NoMemory) => {
            drop(left);
            Err(NoMemory)
        }
    }
}
