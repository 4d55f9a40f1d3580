//! The leaves of the grammar's trees: names, and the words and operators that tell forms apart.
use cake_base::{Bytes, Place};
use sqlite_items::Items;

/// An identifier as it is written, with its place (ISO/IEC 9899:2024, 6.4.2).
#[derive(Debug, Drop)]
pub struct Name {
    pub text: Bytes,
    pub place: Place,
}

/// The storage-class specifiers (6.7.2).
#[derive(Clone, Copy, Debug, PartialEq, Eq)]
pub enum StorageWord {
    Typedef,
    Extern,
    Static,
    Auto,
    Register,
    Constexpr,
}

/// The function specifiers (6.7.5).
#[derive(Clone, Copy, Debug, PartialEq, Eq)]
pub enum FunctionWord {
    Inline,
    Noreturn,
}

/// The type specifiers that are one keyword (6.7.3).
#[derive(Clone, Copy, Debug, PartialEq, Eq)]
pub enum TypeWord {
    Void,
    Char,
    Short,
    Int,
    Long,
    Signed,
    Unsigned,
    Bool,
}

/// The type qualifiers (6.7.4), the three of ownership among them.
#[derive(Clone, Copy, Debug, PartialEq, Eq)]
pub enum QualifierWord {
    Const,
    Restrict,
    Owner,
    View,
    Opt,
}

/// A qualifier at its place.
#[derive(Clone, Copy, Debug, PartialEq, Eq)]
pub struct Qualifier {
    pub word: QualifierWord,
    pub place: Place,
}

/// The `*` of a declarator with the qualifiers behind it (6.7.7.2).
#[derive(Debug, Drop)]
pub struct Pointer {
    pub star: Place,
    pub qualifiers: Items<Qualifier>,
}

/// `typeof` and `typeof_unqual` (6.7.3.6).
#[derive(Clone, Copy, Debug, PartialEq, Eq)]
pub enum TypeofWord {
    Typeof,
    TypeofUnqual,
}

/// The unary operators `&`, `*`, `+`, `-`, `~` and `!` (6.5.4).
#[derive(Clone, Copy, Debug, PartialEq, Eq)]
pub enum PrefixOp {
    Address,
    Indirection,
    Plus,
    Minus,
    Complement,
    Not,
}
