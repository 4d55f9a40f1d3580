//! The expressions of `#if` and `#elif`.
#![tactic(auto)]

pub mod condition_laws;
pub mod conditions;
