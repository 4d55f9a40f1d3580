//! The parser's table and tests, what a unit, a fault and a limit of the grammar are, and the laws of them.
#![tactic(auto)]

pub mod laws;
pub mod syntax_laws;
pub mod token_laws;
