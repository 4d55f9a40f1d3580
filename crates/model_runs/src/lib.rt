//! Memory, accesses, and the runs of units.
#![tactic(auto)]

pub mod runs;
