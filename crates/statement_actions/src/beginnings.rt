//! What the parentheses of `for` begin with.
use c_tree::{Declaration, Expr};

/// What stands before the condition of a `for` (ISO/IEC 9899:2024, 6.8.6.4).
#[derive(Drop)]
pub(crate) enum Beginning {
    Declaration(Declaration),
    /// An expression, or nothing, before a `;`.
    Expr(Option<Expr>),
}
