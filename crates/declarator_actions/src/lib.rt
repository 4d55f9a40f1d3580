//! What the productions of declarators and initializers make of the meanings of their symbols (ISO/IEC 9899:2024,
//! 6.7.7, 6.7.8, 6.7.11).
#![tactic(auto)]

mod declarators;
mod initializers;
mod parameter_lists;
mod pointers;
mod suffixes;

pub use declarators::{declarator, direct, type_name};
pub use initializers::{braces, designator, initializer, item};
pub use parameter_lists::{parameter, parameters};
pub use suffixes::suffix;
