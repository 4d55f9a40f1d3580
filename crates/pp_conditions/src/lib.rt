//! The conditions of `#if` and `#elif`: what follows the directive's name is an expression of integers,
//! which holds where it isn't 0.
#![tactic(auto)]

mod condition;
mod defined;
mod errors;
mod frames;
mod left_out;
mod operators;
mod reader;
mod signs;
mod tokens;
mod values;

pub use condition::evaluate;
