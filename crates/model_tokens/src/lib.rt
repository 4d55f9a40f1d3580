//! The tokens of a text: from its bytes to preprocessing tokens, and from these to tokens of C.
#![tactic(auto)]

pub mod constants;
pub mod steps;
pub mod token_laws;
pub mod tokens;
