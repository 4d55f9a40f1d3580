//! What the productions of the grammar make of the meanings of their symbols: the tree of a unit, from its leaves up.
#![tactic(auto)]

mod nodes;
mod units;

pub use nodes::{node, unit};
