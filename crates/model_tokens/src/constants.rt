//! The forms of integer constants.

/// In which digits an integer constant is written (ISO/IEC 9899:2024, 6.4.4.2).
#[derive(Clone, Copy, Debug, PartialEq, Eq)]
pub enum Base {
    Decimal,
    Octal,
    Hexadecimal,
    Binary,
}

/// The suffix of an integer constant, whatever the case and the order of its letters.
#[derive(Clone, Copy, Debug, PartialEq, Eq)]
pub enum Suffix {
    Plain,
    U,
    L,
    UL,
    LL,
    ULL,
}
