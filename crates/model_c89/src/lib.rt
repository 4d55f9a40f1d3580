//! C89 programs: their types, their spelling, its reading, and their runs.
#![tactic(auto)]

pub mod laws;
