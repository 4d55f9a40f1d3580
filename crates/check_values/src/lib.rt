//! The values of what expressions are, and the conversions that operators imply.
#![tactic(auto)]

mod conversions;
mod kinds;
mod operands;
mod types;

pub use conversions::{converted, in_common_type, integer_value, promoted_value};
pub use kinds::{
    alike_pointers, comparable, converts, implied_fits, is_function, is_function_pointer,
    is_object_pointer, is_promoted, is_scalar, is_void_pointer, ordered_pointers, takes,
};
pub use operands::{meaning_type, operand, unread_fault, used_fault, value_of};
pub use types::{is_array, is_plain_void_pointer, is_storable, is_void};
