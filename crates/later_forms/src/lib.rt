//! The first form of a unit that is built last.
#![tactic(auto)]

mod declarations;
mod expressions;
mod statements;
mod units;

pub use units::first_later;
