//! Laws of checking: the fault that elaboration names is the first of the constraints that are broken, and where it makes
//! something none is (ISO/IEC 9899:2024, 6.5).
#![tactic(auto)]

pub mod calls;
pub mod conversions;
pub mod expressions;
pub mod operators;
