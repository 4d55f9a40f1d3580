//! Replacement of macros by hide sets.
#![tactic(auto)]

mod arguments;
mod expansion;
mod hides;
mod pasting;
mod rules;
mod substitution;

pub use expansion::{Work, expand};
pub use pp_definitions::{
    MacroDef, MacroError, MacroTable, is_name, is_reserved, read_macro, spells,
};
