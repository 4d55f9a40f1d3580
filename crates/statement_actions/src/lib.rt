//! What the productions of statements make of the meanings of their symbols (ISO/IEC 9899:2024, 6.8).
#![tactic(auto)]

mod beginnings;
mod blocks;
mod iterations;
mod selections;
mod statements;

pub use blocks::{block, label};
pub use iterations::for_statement;
pub use selections::if_statement;
pub use statements::statement;
