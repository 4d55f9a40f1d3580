//! What a declaration declares (ISO/IEC 9899:2024, 6.2.1 to 6.2.3).

/// What a name is declared as.
#[derive(Clone, Copy, Debug, PartialEq, Eq)]
pub enum Kind {
    Object,
    Function,
    TypeName,
    Enumerator,
    Tag,
}

/// The linkage of a name (6.2.2).
#[derive(Clone, Copy, Debug, PartialEq, Eq)]
pub enum Linkage {
    Absent,
    Internal,
    External,
}
