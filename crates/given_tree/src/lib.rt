//! Initializers with their values elaborated, before it is known what they are for (ISO/IEC 9899:2024, 6.7.11).
#![tactic(auto)]

mod given;

pub use given::{Given, GivenForm, GivenItem, GivenStep};
