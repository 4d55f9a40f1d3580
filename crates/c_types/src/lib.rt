//! Types, their layout and compatibility, and the conversions of and operations on integers.
#![tactic(auto)]

mod compat;
mod extents;
mod integers;
mod layout;
mod member_offsets;
mod members;
mod operations;
mod ranks;
mod structs;
#[cfg(test)]
mod tests;
mod types;

pub use compat::{compatible, same_ownership, same_quals};
pub use integers::{common, fits, highest, is_signed, lowest, promoted, width};
pub use layout::{align_of, is_complete, member_offset, size_of};
pub use members::{Member, Members};
pub use model_types::numbers::{Basic, BinOp, Const};
pub use model_types::types::{Quals, StructId};
pub use operations::{OpFault, const_op, convert, is_comparison, operand_type, operate};
pub use structs::Structs;
pub use types::{CType, TypeForm, TypeList};
