//! Worked examples of lowering: each function does nothing, and its contract is what the definitions make of a unit.
#![tactic(auto)]

pub mod each_operator;
pub mod each_statement;
pub mod known_units;
pub mod worked_units;
pub mod wrong_programs;
