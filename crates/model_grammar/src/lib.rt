//! The grammar of units, its derivations, and the forms that its trees stand for.
#![tactic(auto)]

pub mod grammar;
pub mod syntax;
