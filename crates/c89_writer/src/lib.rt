//! The one text of a C89 program.
#![tactic(auto)]

mod declarations;
mod expressions;
mod initializers;
mod numbers;
mod program;
mod signs;
mod statements;
mod types;

pub use program::write;
