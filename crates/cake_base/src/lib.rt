//! What every layer shares: places and rules, texts, and the traits through which the command
//! meets files and streams.
#![tactic(auto)]

mod memory;
mod outside;
mod places;
mod rules;
mod stack;
mod texts;

pub use memory::{MemFiles, MemSink};
pub use outside::{Files, MAX_FILE, ReadFault, Sink, WriteFault};
pub use places::Place;
pub use rules::{Act, Family, Fault, Limit, LimitHit, Mark, Note, Rule, Severity};
pub use stack::Stack;
pub use texts::{Bytes, FileName, NoMemory};
