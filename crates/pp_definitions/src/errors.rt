//! Why a macro isn't read, or no list is answered.

use cake_base::{Fault, LimitHit, NoMemory};
use thiserror::Error;

/// A broken rule of the family P, a limit that is passed, or the want of memory.
#[derive(Debug, Drop, Error)]
pub enum MacroError {
    #[error("Fault")]
    Fault(Fault),
    #[error("Limit")]
    Limit(LimitHit),
    #[error("NoMemory")]
    NoMemory,
}

impl From<Fault> for MacroError {
    ghost use Rattle.std.specs.Prelude.{◌≡◌};
    ghost use Rattle.pp_definitions.specs.declared.errors.MacroError.TheVariants as macro_error;

    ghost from_gives = { λ fault e. e ≡ macro_error.Fault fault };

    fn from(fault: Fault) -> MacroError {
        MacroError::Fault(fault)
    }
}

impl From<NoMemory> for MacroError {
    ghost use Rattle.std.specs.Prelude.{◌≡◌};
    ghost use Rattle.pp_definitions.specs.declared.errors.MacroError.TheVariants as macro_error;

    ghost from_gives = { λ _ e. e ≡ macro_error.NoMemory };

    fn from(_: NoMemory) -> MacroError {
        MacroError::NoMemory
    }
}
