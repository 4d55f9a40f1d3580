//! The command `cake`, from its words to its status.
#![tactic(auto)]

mod command;
mod constants;
mod expanded;
mod expression;
pub mod laws;
mod lowering;
mod meanings;
mod modes;
mod reader;
mod report;
mod report_lines;
mod sorts;
mod status;
mod texts;
mod words;

pub use command::cake;
pub use modes::Mode;
pub use status::Status;
pub use words::{Plan, WordsError, read_words};
