//! What a preprocessing token and a token of C are.
use cake_base::{Bytes, Place};
use model_types::numbers::Const;

/// The kinds of preprocessing tokens (ISO/IEC 9899:2024, 6.4).
#[derive(Clone, Copy, Debug, PartialEq, Eq)]
pub enum PpKind {
    /// A name of a file between `<` and `>` on a line of `#include`.
    Header,
    Name,
    Number,
    Character,
    Text,
    Punct,
    /// Any other byte, alone.
    Other,
}

/// What a token of C is (6.4). A word or a punctuator has the number of its spelling.
#[derive(Debug, Drop)]
pub enum CKind {
    /// A keyword, also one that is left out of the language.
    Word(u32),
    Name(Bytes),
    /// An integer constant or a character constant.
    Integer(Const),
    /// The bytes of a string literal, without the zero at its end.
    Text(Bytes),
    Punct(u32),
}

/// A token of C at the place of its preprocessing token.
#[derive(Debug, Drop)]
pub struct CTok {
    pub kind: CKind,
    pub place: Place,
}

/// The rules of the family L that a single token can break.
#[derive(Clone, Copy, Debug, PartialEq, Eq)]
pub enum TokenRule {
    /// L02: a string or character constant that isn't ended.
    NotEnded,
    /// L03: a character constant of none or of several characters.
    NotOneCharacter,
    /// L04: an escape sequence that is none of C, or whose value is no byte.
    BadEscape,
    /// L05: a malformed number or suffix.
    MalformedNumber,
    /// L06: an integer constant that fits no type.
    FitsNoType,
    /// L07: a floating constant.
    Floating,
    /// L08: a literal with a prefix, or a stray character.
    Stray,
}
