//! Preprocessing of a unit with its headers, from its files to its list of tokens.
#![tactic(auto)]

mod branches;
mod candidates;
mod control;
mod errors;
mod lines;
mod log;
mod marks;
mod options;
mod output;
mod rules;
mod search;
mod taking;
mod unit;
mod whole;

pub use errors::PrepError;
pub use log::PrepLog;
pub use model_preprocessing::directives::ReadCause;
pub use options::Options;
pub use pp_lists::{Marks, Notes};
pub use whole::{Prep, preprocess};
