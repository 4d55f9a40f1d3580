//! What all of checking shares: why it refuses, what an expression is before its use asks for a value or a place, and
//! rules that are broken at a place.
#![tactic(auto)]

mod errors;
mod faults;
mod meanings;

pub use errors::CheckError;
pub use faults::{
    comes_first, constraint, fault_at, fault_if, first_fault, first_of_faults, refusal_beside,
    wants,
};
pub use meanings::{Meaning, Operand, OperandValue};
