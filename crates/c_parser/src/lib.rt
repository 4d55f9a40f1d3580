//! The parser: the tree of a translation unit by the grammar, or the place of its first syntax error.
#![tactic(auto)]

mod brackets;
mod calls;
mod declarations;
mod entries;
mod errors;
mod forms;
mod heights;
mod kind_groups;
mod lookahead;
mod notation;
mod ranks;
mod reader;
mod sets;
mod statements;
mod terminals;
mod typedef_names;
mod unit;

pub use calls::parse;
pub use errors::ParseError;
