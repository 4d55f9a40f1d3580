//! What the command is asked for.

/// What the command is asked for.
#[derive(Clone, Copy, Debug, PartialEq, Eq)]
pub enum Mode {
    /// The C89 text of the unit.
    Translate,
    /// The preprocessed tokens (`-E`).
    Expand,
    /// What is reported, and no text (`--check`).
    Check,
}
