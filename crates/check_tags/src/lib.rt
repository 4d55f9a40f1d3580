//! Tags, structures, enumerations and typedef names in their scopes (ISO/IEC 9899:2024, 6.2.1, 6.7.3.2 to 6.7.3.4, 6.7.9).
#![tactic(auto)]

mod enumerations;
mod members;
mod names;
mod parameters;
mod structures;
mod tags;

pub use enumerations::{
    begin_enum, braces_fault, declare_enumerator, enum_tag, enumerator_fault, fixed_by,
    value_behind,
};
pub use members::add_member;
pub use names::typedef_type;
pub use parameters::void_fault;
pub use structures::{begin_struct, struct_tag};
pub use tags::{declare_tag, tag_type};
