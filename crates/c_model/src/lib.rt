//! What a translation is, first units, and worked examples.
#![tactic(auto)]

pub mod agreed_examples;
pub mod examples;
pub mod laws;
pub mod made_examples;
pub mod memory_examples;
pub mod translation_laws;
pub mod typed_examples;
