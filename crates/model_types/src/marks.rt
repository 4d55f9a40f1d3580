//! What the core keeps of the source beside its meaning.
use cake_base::Place;

/// A declared object or function of a unit, by its number.
#[derive(Clone, Copy, Debug, PartialEq, Eq)]
pub struct DeclId(pub u32);

/// Where an expression stands.
#[derive(Clone, Copy, Debug, PartialEq, Eq)]
pub struct Mark {
    /// Its name, constant, string or operator; the `[` of an index; the `(` of a call, a cast or a
    /// literal. A run that fails in the expression ends here.
    pub at: Place,
    /// Its first token, without parentheses round it.
    pub first: Place,
    /// Its first token, with the parentheses round it.
    pub outer: Place,
}

/// Where a statement begins and ends.
#[derive(Clone, Copy, Debug, PartialEq, Eq)]
pub struct Span {
    pub first: Place,
    /// Its last token.
    pub last: Place,
}

/// Whether a conversion or an address is written in the source or implied by its use.
#[derive(Clone, Copy, Debug, PartialEq, Eq)]
pub enum Origin {
    Written,
    Implied,
}
