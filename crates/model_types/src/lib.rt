//! Numbers, operators, types, structures and layout: what every layer's definitions speak of.
#![tactic(auto)]

pub mod marks;
pub mod numbers;
pub mod operators;
pub mod outcomes;
pub mod types;
