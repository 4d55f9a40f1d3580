//! How the findings of the ownership check are reported, and when they refuse a unit, as definitions, and laws of them.
#![tactic(auto)]

pub mod laws;
