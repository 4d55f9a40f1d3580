//! Why a declaration is refused.

use cake_base::{Fault, NoMemory};
use thiserror::Error;

/// A broken rule of the family C, or the want of memory.
#[derive(Debug, Drop, Error)]
pub enum ScopeError {
    #[error("Fault")]
    Fault(Fault),
    #[error("NoMemory")]
    NoMemory,
}

impl From<NoMemory> for ScopeError {
    ghost use Rattle.std.specs.Prelude.{◌≡◌};
    ghost use Rattle.decl_scope.specs.declared.errors.ScopeError.TheVariants as scope_error;

    ghost from_gives = { λ _ e. e ≡ scope_error.NoMemory };

    fn from(_: NoMemory) -> ScopeError {
        ScopeError::NoMemory
    }
}
