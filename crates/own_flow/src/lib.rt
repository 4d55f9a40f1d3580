//! The engine of the ownership check: the states that tracked places may have at each point of a
//! graph, and the rules that are broken there.
#![tactic(auto)]

mod counter;
mod finds;
pub mod flow;
mod graph;
mod list;
mod nodes;
mod ranks;
mod rows;
mod search;
mod table;

pub use counter::Steps;
pub use finds::solve;
pub use flow::{Action, State, States};
pub use graph::FlowGraph;
pub use list::Findings;
