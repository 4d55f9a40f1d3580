//! Why a unit, or a part of one, is refused.

use cake_base::{Fault, LimitHit, NoMemory, Place};
use thiserror::Error;

/// A broken rule of the family C, a limit that is passed, a form that isn't built, or the want of memory.
#[derive(Debug, Drop, Error)]
pub enum CheckError {
    #[error("Fault")]
    Fault(Fault),
    #[error("Limit")]
    Limit(LimitHit),
    /// The first token of the form.
    #[error("NotBuilt")]
    NotBuilt(Place),
    #[error("NoMemory")]
    NoMemory,
}

impl From<Fault> for CheckError {
    ghost use Rattle.std.specs.Prelude.{◌≡◌};
    ghost use Rattle.check_base.specs.declared.errors.CheckError.TheVariants as check_error;

    ghost from_gives = { λ fault e. e ≡ check_error.Fault fault };

    fn from(fault: Fault) -> CheckError {
        CheckError::Fault(fault)
    }
}

impl From<NoMemory> for CheckError {
    ghost use Rattle.std.specs.Prelude.{◌≡◌};
    ghost use Rattle.check_base.specs.declared.errors.CheckError.TheVariants as check_error;

    ghost from_gives = { λ _ e. e ≡ check_error.NoMemory };

    fn from(_: NoMemory) -> CheckError {
        CheckError::NoMemory
    }
}
