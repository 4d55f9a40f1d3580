//! Why no tokens are answered.
use cake_base::{Fault, NoMemory};
use model_tokens::tokens::TokenRule;
use thiserror::Error;

/// A broken rule of the family L, or the want of memory.
#[derive(Debug, Drop, Error)]
pub enum TokenError {
    #[error("Fault")]
    Fault(Fault),
    #[error("NoMemory")]
    NoMemory,
}

impl From<Fault> for TokenError {
    ghost use Rattle.std.specs.Prelude.{◌≡◌};
    ghost use Rattle.c_tokens.specs.declared.errors.TokenError.TheVariants as token_error;

    ghost from_gives = { λ fault e. e ≡ token_error.Fault fault };

    fn from(fault: Fault) -> TokenError {
        TokenError::Fault(fault)
    }
}

impl From<NoMemory> for TokenError {
    ghost use Rattle.std.specs.Prelude.{◌≡◌};
    ghost use Rattle.c_tokens.specs.declared.errors.TokenError.TheVariants as token_error;

    ghost from_gives = { λ _ e. e ≡ token_error.NoMemory };

    fn from(_: NoMemory) -> TokenError {
        TokenError::NoMemory
    }
}

/// The rule that a single token breaks, or the want of memory.
#[derive(Drop)]
pub enum Refusal {
    Broken(TokenRule),
    NoMemory,
}

impl From<NoMemory> for Refusal {
    ghost use Rattle.std.specs.Prelude.{◌≡◌};
    ghost use Rattle.c_tokens.specs.declared.errors.Refusal.TheVariants as refusal;

    ghost from_gives = { λ _ e. e ≡ refusal.NoMemory };

    fn from(_: NoMemory) -> Refusal {
        Refusal::NoMemory
    }
}
