//! The lines of a file: directives and runs of text, what stands on them, and the conditionals that are
//! open.
#![tactic(auto)]

mod conditionals;
mod headers;
mod kinds;
mod names;
mod numbers;
mod parts;
mod pragmas;
mod sources;

pub use conditionals::{Conditionals, else_group, group_where};
pub use headers::{BuiltIn, built_in};
pub use kinds::is_include;
pub use names::{HeaderName, direct_name, replaced_name};
pub use numbers::FileNumbers;
pub use parts::Part;
pub use pragmas::pragma_of;
pub use sources::{Lines, Sources};
