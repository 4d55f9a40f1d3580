//! What the symbols of a production stand for, and how a right side of them is read from the front.
#![tactic(auto)]

pub mod kinds;
mod leaves;
mod meanings;
mod names;
mod right_sides;
mod symbols;

pub use leaves::{kind_number, leaf};
pub use meanings::{Meaning, ParameterList, Value};
pub use names::name_of;
pub use right_sides::{RightSide, right_side, span_or};
pub use symbols::{Symbols, Token};
