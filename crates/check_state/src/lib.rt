//! What checking knows at a point of a unit beside the scopes, and what it has made so far (ISO/IEC 9899:2024, 6.2.1, 6.2.4,
//! 6.5.3.6).
#![tactic(auto)]

mod bodies;
mod literals;
mod made;
mod naming;
mod objects;
mod params;
mod pending;
mod scoping;
mod uses;
mod values;

pub use literals::{Literals, Waiting};
pub use made::{Made, Objects};
pub use objects::text_type;
pub use params::Params;
pub use pending::Pending;
pub use scoping::Around;
pub use uses::Use;
pub use values::{Body, IdRange, Valued};
