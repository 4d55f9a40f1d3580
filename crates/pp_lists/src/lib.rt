//! Lists of what preprocessing leaves beside the tokens: notes and marks.
#![tactic(auto)]

mod lists;
#[cfg(test)]
mod tests;

pub use lists::{Marks, Notes};
