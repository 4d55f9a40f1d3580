//! How a text is read from its front: bytes with their places, and what stands there.
use crate::tokens::PpKind;

/// A byte of a file with the line and the column in which it stands there, counted from 1.
#[derive(Clone, Copy, Debug, PartialEq, Eq)]
pub struct Cell {
    pub byte: u8,
    pub line: u32,
    pub column: u32,
}

/// What stands at the front of a text, with its length in bytes.
#[derive(Clone, Copy, Debug, PartialEq, Eq)]
pub enum Step {
    /// A line feed.
    LineEnd,
    /// Blanks of one line, or a comment.
    Blank(usize),
    Token(PpKind, usize),
    /// A comment that isn't ended.
    OpenComment,
}

/// How much of a line was read, as far as a directive `#include` goes (ISO/IEC 9899:2024, 6.10.3).
#[derive(Clone, Copy, Debug, PartialEq, Eq)]
pub enum LinePart {
    /// No token of the line.
    Start,
    /// `#` alone.
    Hash,
    /// `#` and `include`.
    Include,
    /// Anything else.
    Rest,
}
