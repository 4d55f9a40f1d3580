//! What the productions of expressions make of the meanings of their symbols (ISO/IEC 9899:2024, 6.5).
#![tactic(auto)]

mod expressions;
mod operands;
mod operators;
mod postfix;
mod primaries;

pub use expressions::{assigned, chained};
pub use operands::{cast, conditional, unary};
pub use postfix::postfixed;
pub use primaries::{literal, primary};
