//! The constraints of operators, and what operators make of their operands (ISO/IEC 9899:2024, 6.5).
#![tactic(auto)]

mod binaries;
mod commas;
mod comparisons;
mod constness;
mod elements;
mod faults;
mod logical;
mod operations;
mod prefixes;
mod sizes;
mod steps;
mod sums;
mod values;

pub use binaries::binary;
pub use commas::comma;
pub use constness::is_const_somewhere;
pub use elements::index;
pub use logical::logic;
pub use prefixes::unary;
pub use sizes::{alignment_of_name, size_of_name, size_of_operand};
pub use steps::{is_modifiable, step};
