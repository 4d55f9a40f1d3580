//! The subobjects that an object's initializer is for (ISO/IEC 9899:2024, 6.7.11).
#![tactic(auto)]

mod aims;
mod designators;
mod faults;
mod placed;
mod strings;
mod walk;

pub use placed::{Content, Placed, PlacedList, Placement};
pub use walk::placement;
