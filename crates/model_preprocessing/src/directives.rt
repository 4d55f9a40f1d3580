//! What a line of a file is to the preprocessor, and what its directives leave open.
use cake_base::{Act, Place};

/// What a line is (ISO/IEC 9899:2024, 6.10.1): text, or a directive of one of these kinds.
#[derive(Clone, Copy, Debug, PartialEq, Eq)]
pub enum LineKind {
    /// A line that doesn't begin with `#`.
    Text,
    If,
    Ifdef,
    Ifndef,
    Elif,
    Elifdef,
    Elifndef,
    Else,
    Endif,
    Include,
    Embed,
    Define,
    Undef,
    /// `#line`, or a line marker: `#` and a number.
    Line,
    Error,
    Warning,
    Pragma,
    /// `#` alone.
    Null,
    /// `#` and anything else.
    Unknown,
}

/// What becomes of the group that a conditional has reached (6.10.2).
#[derive(Clone, Copy, Debug, PartialEq, Eq)]
pub enum Group {
    /// It is translated.
    Taken,
    /// It is skipped, and none was taken yet.
    Sought,
    /// It is skipped, and so is every later one: one was taken, or the conditional itself is skipped.
    Passed,
}

/// A conditional that isn't ended yet: the place of the `#` of its first line, whose order is the
/// number of tokens before it, its group, and whether that is the one after `#else`.
#[derive(Clone, Copy, Debug, PartialEq, Eq)]
pub struct Conditional {
    pub at: Place,
    pub group: Group,
    pub last: bool,
}

/// What follows `#pragma` (6.10.8).
#[derive(Clone, Copy, Debug, PartialEq, Eq)]
pub enum Pragma {
    /// The file isn't included again.
    Once,
    /// Severities are kept, given back or set.
    Marks(Act),
    /// It begins as one of those, and is none.
    Malformed,
    /// Any other pragma.
    Dropped,
}

/// Why a file that was asked for isn't translated.
#[derive(Clone, Copy, Debug, PartialEq, Eq)]
pub enum ReadCause {
    /// The main file isn't held.
    MainMissing,
    /// The read failed.
    Failed,
    /// The file has more bytes than are read of one.
    TooLarge,
}
