//! Why no trees are answered.

use cake_base::{Fault, LimitHit, NoMemory};
use thiserror::Error;

/// A syntax error, a limit that is passed, or the want of memory.
#[derive(Debug, Drop, Error)]
pub enum ParseError {
    #[error("Fault")]
    Fault(Fault),
    #[error("Limit")]
    Limit(LimitHit),
    #[error("NoMemory")]
    NoMemory,
}

impl From<NoMemory> for ParseError {
    ghost use Rattle.std.specs.Prelude.{◌≡◌};
    ghost use Rattle.c_parser.specs.declared.errors.ParseError.TheVariants as parse_error;

    ghost from_gives = { λ _ e. e ≡ parse_error.NoMemory };

    fn from(_: NoMemory) -> ParseError {
        ParseError::NoMemory
    }
}
