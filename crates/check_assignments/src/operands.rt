//! What rules ask of operands, and their values.
ghost use Rattle.std.specs.Prelude.{◌≡◌, true, Some, None, IfOk, IfErr, OnOk};
ghost use Rattle.model_core.specs.CoreTypes.{type_of};
ghost use Rattle.model_core.specs.SameTypes as s;
ghost use Rattle.core_tree.specs.CoreTrees.{expr_tree};
ghost use Rattle.check_base.specs.Broken.{Due};
ghost use Rattle.check_base.specs.Meanings.{value_in};
ghost use Rattle.check_assignments.specs.HeldBy.{has_value};

use c_types::CType;
use cake_base::{Fault, NoMemory};
use check_base::{CheckError, OperandValue};
use check_constants::is_null_constant;
use check_types::unqualified;
use core_tree::{CoreExpr, CoreExprForm};
use std::alloc::Global;

/// What rules ask of a value: its type, and whether it is a null pointer constant.
#[derive(Drop)]
pub struct ValueFacts {
    pub ty: CType,
    pub is_null: bool,
}

/// What rules ask of the value of an operand.
pub fn facts(alloc: Global, value: &OperandValue) -> Result<ValueFacts, NoMemory>
    ensures ty { IfOk result (λ made. made.ty ≡ type_of (value_in value.now)) }
    ensures null { IfOk result (λ made. made.is_null ≡ s.is_null_constant (value_in value.now)) }
{
    match value {
        OperandValue::Read(e) => {
            let ty = e.ty().copy(alloc)?;
            Ok(ValueFacts {
                ty,
                is_null: is_null_constant(e),
            })
        }
        OperandValue::Unread(object) => {
            let ty = unqualified(alloc, object.ty())?;
            Ok(ValueFacts { ty, is_null: false })
        }
    }
}

/// The value of an operand that has one: an object is loaded. On refusal the operand is dropped.
pub fn read(alloc: Global, value: OperandValue) -> Result<CoreExpr, NoMemory>
    requires { has_value value ≡ true }
    ensures { IfOk result (λ made. expr_tree made ≡ value_in value) }
{
    match value {
        OperandValue::Read(e) => Ok(e),
        OperandValue::Unread(object) => {
            let _typed = object.form();
            let mark = object.mark();
            CoreExpr::new(alloc, CoreExprForm::Load { object, mark })
        }
    }
}

/// Ends with a fault, where there is one.
pub fn refuse(fault: Option<Fault>) -> Result<(), CheckError>
    ensures ok { OnOk result (fault ≡ None) }
    ensures err { IfErr result (λ e. Due e (λ broken. fault ≡ Some broken)) }
{
    match fault {
        None => Ok(()),
        Some(fault) => Err(CheckError::Fault(fault)),
    }
}
