//! What is given, and which of two rules that it breaks is named.
ghost use Rattle.std.specs.Prelude.{◌≡◌, IfOk};
ghost use Rattle.model_core.specs.CoreTypes.{type_of};
ghost use Rattle.check_base.specs.Meanings.{value_in};
ghost use Rattle.model_checking.specs.Placing as p;
ghost use Rattle.given_tree.specs.GivenViews.{given_of};

use c_types::{CType, Structs};
use cake_base::{Fault, NoMemory, Place};
use check_base::{OperandValue, first_fault};
use check_types::unqualified;
use check_values::used_fault;
use given_tree::GivenForm;
use std::alloc::Global;

/// The first token of what is given.
pub fn given_first(given: &GivenForm) -> Place
    ensures { result ≡ p.given_first (given_of given.now) }
{
    match given {
        GivenForm::Value { operand, .. } => operand.first,
        GivenForm::Text { first, .. } => *first,
        GivenForm::Braces { place, .. } => *place,
        GivenForm::Faulty { first, .. } => *first,
    }
}

/// The type of a value.
pub fn value_type(alloc: Global, value: &OperandValue) -> Result<CType, NoMemory>
    ensures { IfOk result (λ ty. ty ≡ type_of (value_in value.now)) }
{
    match value {
        OperandValue::Read(value) => value.ty().copy(alloc),
        OperandValue::Unread(object) => unqualified(alloc, object.ty()),
    }
}

/// Of a fault at what is given and those that it has by itself, the first.
pub fn with_own(structs: &Structs, given: &GivenForm, fault: Fault) -> Fault
    ensures { result ≡ p.with_own structs.now (given_of given.now) fault }
{
    match given {
        GivenForm::Value { operand, .. } => match used_fault(structs, operand) {
            Some(own) => first_fault(fault, own),
            None => fault,
        },
        GivenForm::Text { .. } => fault,
        GivenForm::Braces { .. } => fault,
        GivenForm::Faulty { fault: own, .. } => first_fault(fault, *own),
    }
}
