//! Integer types, constants and operators.
ghost use Rattle.std.specs.Prelude.{IsTrue};
ghost use Rattle.model_types.specs.Operations.{fits};

/// `bool` and the eleven integer types (ISO/IEC 9899:2024, 6.2.5).
#[derive(Clone, Copy, Debug, PartialEq, Eq)]
pub enum Basic {
    Bool,
    Char,
    SignedChar,
    UnsignedChar,
    Short,
    UnsignedShort,
    Int,
    Unsigned,
    Long,
    UnsignedLong,
    LongLong,
    UnsignedLongLong,
}

/// A value of an integer type, which lies in the range of that type.
#[derive(Clone, Copy, Debug, PartialEq, Eq)]
pub struct Const {
    pub value: i128,
    pub basic: Basic,
    ghost in_range: { IsTrue (fits basic value) },
}

/// The binary operators on integers (6.5.6 to 6.5.13).
#[derive(Clone, Copy, Debug, PartialEq, Eq)]
pub enum BinOp {
    Mul,
    Div,
    Rem,
    Add,
    Sub,
    ShiftLeft,
    ShiftRight,
    Less,
    Greater,
    LessEqual,
    GreaterEqual,
    Equal,
    NotEqual,
    BitAnd,
    BitXor,
    BitOr,
}
