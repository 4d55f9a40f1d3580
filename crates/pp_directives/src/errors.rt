//! Why no list of tokens is answered.
use cake_base::{Fault, LimitHit, NoMemory};
use model_preprocessing::directives::ReadCause;
use pp_macros::MacroError;
use thiserror::Error;

/// The first rule that is broken, limit that is passed or file that isn't read, in the order of
/// translation, or the want of memory. A file is told by its number in the log.
#[derive(Debug, Drop, Error)]
pub enum PrepError {
    #[error("Fault")]
    Fault(Fault),
    #[error("Limit")]
    Limit(LimitHit),
    #[error("Read")]
    Read(u32, ReadCause),
    #[error("NoMemory")]
    NoMemory,
}

impl From<NoMemory> for PrepError {
    ghost use Rattle.std.specs.Prelude.{◌≡◌};
    ghost use Rattle.pp_directives.specs.declared.errors.PrepError.TheVariants as prep_error;

    ghost from_gives = { λ _ e. e ≡ prep_error.NoMemory };

    fn from(_: NoMemory) -> PrepError {
        PrepError::NoMemory
    }
}

impl From<MacroError> for PrepError {
    ghost use Rattle.std.specs.Prelude.{◌≡◌};
    ghost use Rattle.pp_directives.specs.Errors.{of_macro};

    ghost from_gives = { λ error e. e ≡ of_macro error };

    fn from(error: MacroError) -> PrepError {
        match error {
            MacroError::Fault(fault) => PrepError::Fault(fault),
            MacroError::Limit(hit) => PrepError::Limit(hit),
            MacroError::NoMemory => PrepError::NoMemory,
        }
    }
}
