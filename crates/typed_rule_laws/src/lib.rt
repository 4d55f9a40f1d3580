//! Laws of checking: where the parts of an expression are typed, what its rules make of them is typed
//! (ISO/IEC 9899:2024, 6.3, 6.5).
#![tactic(auto)]

pub mod calls;
pub mod constants;
pub mod conversions;
pub mod operators;
pub mod standing;
