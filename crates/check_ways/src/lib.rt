//! The ways from an object to its subobjects: which one comes behind another, and which one takes a value that stands
//! without braces (ISO/IEC 9899:2024, 6.7.11).
#![tactic(auto)]

mod members;
mod parts;
mod takers;
mod way;

pub use members::{member_rank, member_type};
pub use parts::{behind, start, step_to};
pub use takers::{Bare, is_character_array, is_scalar, taker, takes};
pub use way::{Step, Way};
