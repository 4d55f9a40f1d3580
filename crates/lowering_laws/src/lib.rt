//! Laws of lowering: each function does nothing, and its contract is the law.
#![tactic(auto)]

pub mod names;
pub mod programs;
pub mod values;
