//! The preprocessing tokens of a text, and the tokens of C that they are converted into.
#![tactic(auto)]

mod characters;
mod convert;
mod cursor;
mod digits;
mod errors;
mod floats;
mod integers;
mod lists;
mod literals;
mod pp_token;
mod punctuators;
mod scan;
mod slices;
mod steps;
mod strings;
mod text;
mod unended;
mod whole;
mod words;

pub use convert::{c_token, is_identifier};
pub use errors::TokenError;
pub use lists::{CList, PpList};
pub use model_tokens::tokens::{CKind, CTok, PpKind};
pub use pp_token::PpTok;
pub use strings::join_strings;
pub use text::pp_tokens;
pub use whole::convert_tokens;
