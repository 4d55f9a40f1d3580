//! Declarators: the steps that they derive from a type, and what they give (ISO/IEC 9899:2024, 6.7.7).
#![tactic(auto)]

mod declared;
mod derivations;
mod outlines;
mod parameters;
mod pointers;
mod types;

pub use declared::{Declared, declarator, declarator_name, declared_by};
pub use derivations::{Derivation, Parameters, Steps, is_function_step, own_entries};
pub use outlines::{outline, push_outline_of_suffixes};
pub use parameters::{inner_void_faults, own_parameters_fault, void_faults};
pub use pointers::with_pointers;
pub use types::{derived, steps_typing};
