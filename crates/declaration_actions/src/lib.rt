//! What the productions of declarations make of the meanings of their symbols (ISO/IEC 9899:2024, 6.7.1 to 6.7.6,
//! 6.7.12).
#![tactic(auto)]

mod declarations;
mod enumerations;
mod specifiers;
mod structures;
mod words;

pub use declarations::{declaration, init_declarator, static_assertion};
pub use enumerations::{enumeration, enumerator};
pub use specifiers::{one_spec, qualified, specs, storage_spec, type_of_operand, type_spec};
pub use structures::{member_declaration, members, structure};
