//! Laws of initializers.
#![tactic(auto)]

pub mod laws;
