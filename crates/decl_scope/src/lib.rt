//! Names: the scopes of a unit, the ids of what is declared in them, and the rules of declarations.
#![tactic(auto)]

mod around;
mod built_ins;
mod declared;
mod entry;
mod errors;
mod joining;
pub mod laws;
mod level;
mod names;
mod rules;
mod scopes;
mod table;
mod typedefs;

pub use entry::Entry;
pub use errors::ScopeError;
pub use model_scopes::declarations::{Kind, Linkage};
pub use model_types::marks::DeclId;
pub use scopes::Scopes;
