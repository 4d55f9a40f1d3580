//! Constant expressions, null pointer constants, and what may be given to an object.
#![tactic(auto)]

mod constants;
mod operations;

pub use constants::{
    constant_of, constant_value, integer_constant, is_built_of_constants, is_null_constant,
};
