//! What checking asks of types: whether two are the same, and which types come of others.
#![tactic(auto)]

mod composites;
pub mod laws;
mod same;
mod values;

pub use composites::{composite, with_length};
pub use same::{same_length, same_type, same_value_type};
pub use values::{
    basic_of, element, is_integer, is_pointer, plain, pointed_to, pointer_to, promoted,
    unqualified, usual,
};
