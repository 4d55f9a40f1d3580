//! Casts (ISO/IEC 9899:2024, 6.5.5).
#![tactic(auto)]

mod casts;
mod named;

pub use casts::cast;
