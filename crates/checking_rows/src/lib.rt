//! Worked examples of checking: each function does nothing, and its contract is what the definitions answer.
#![tactic(auto)]

pub mod expression_constants;
pub mod expression_names;
pub mod expression_order;
pub mod expression_pointers;
pub mod expression_structures;
pub mod initializer_bodies;
pub mod initializer_designated;
pub mod initializer_designators;
pub mod initializer_faults;
pub mod initializer_lengths;
pub mod initializer_lists;
pub mod initializer_literals;
pub mod initializer_order;
pub mod initializer_static;
pub mod initializer_strings;
pub mod initializer_structures;
