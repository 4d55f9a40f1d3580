//! Preprocessing: directives, headers, files, and the unit that comes out of them.
#![tactic(auto)]

pub mod directives;
pub mod headers;
pub mod positions;
pub mod preprocessing_laws;
