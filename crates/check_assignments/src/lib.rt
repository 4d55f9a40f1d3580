//! What is given to an object as if by assignment: arguments, assigned, returned and initial values (ISO/IEC 9899:2024,
//! 6.5.3.3, 6.5.17, 6.7.11, 6.8.7.5).
#![tactic(auto)]

mod calls;
mod operands;
mod passed;
mod qualifiers;

pub use calls::{argument, behind, call, call_fault, called_type, parameters};
pub use operands::{ValueFacts, facts, read, refuse};
pub use passed::given;
pub use qualifiers::outer_quals;
