//! Definitions of macros: what a `#define` line means, and the table of the macros that are defined.
#![tactic(auto)]

mod constraints;
mod definition;
mod errors;
mod heading;
mod names;
mod pieces;
mod rows;
mod rules;
mod spelling;
mod table;

pub use constraints::{is_close, is_reserved};
pub use definition::{MacroDef, fault, read_macro};
pub use errors::MacroError;
pub use names::Names;
pub use pieces::{Piece, deeper};
pub use rows::{Row, Stack};
pub use spelling::{is_name, spells};
pub use table::MacroTable;
