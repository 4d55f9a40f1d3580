//! What a report names: rules and limits, with their places, and the marks and notes of directives.
use crate::places::Place;
use crate::texts::Bytes;

/// The family of a rule: preprocessing, tokens, syntax, constraints, findings of the ownership
/// check, and what that check leaves aside.
#[derive(Clone, Copy, Debug, PartialEq, Eq)]
pub enum Family {
    P,
    L,
    S,
    C,
    F,
    G,
}

/// A rule, such as C26.
#[derive(Clone, Copy, Debug, PartialEq, Eq)]
pub struct Rule {
    pub family: Family,
    pub number: u32,
}

/// A limit of the command, from M01 to M08.
#[derive(Clone, Copy, Debug, PartialEq, Eq)]
pub struct Limit {
    pub number: u32,
}

/// A rule that is broken at a place.
#[derive(Clone, Copy, Debug, PartialEq, Eq)]
pub struct Fault {
    pub place: Place,
    pub rule: Rule,
}

/// A limit that is passed at a place.
#[derive(Clone, Copy, Debug, PartialEq, Eq)]
pub struct LimitHit {
    pub place: Place,
    pub limit: Limit,
}

/// How a finding is reported.
#[derive(Clone, Copy, Debug, PartialEq, Eq)]
pub enum Severity {
    Error,
    Warning,
    Ignored,
}

/// What a diagnostic pragma does.
#[derive(Clone, Copy, Debug, PartialEq, Eq)]
pub enum Act {
    Push,
    Pop,
    Assign(Severity, Rule),
}

/// A diagnostic pragma, which holds for the places whose order isn't below `before`.
#[derive(Clone, Copy, Debug, PartialEq, Eq)]
pub struct Mark {
    pub before: u32,
    pub act: Act,
}

/// The text of an `#error` or a `#warning`.
#[derive(Debug, Drop)]
pub struct Note {
    pub place: Place,
    pub text: Bytes,
}
