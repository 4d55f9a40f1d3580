//! Macros, their definitions and their replacement.
#![tactic(auto)]

pub mod macros;
