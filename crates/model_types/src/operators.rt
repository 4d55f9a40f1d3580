//! The operators that aren't binary operators on integers.

/// A unary operator on a value; unary `+` is only a conversion (ISO/IEC 9899:2024, 6.5.4.3).
#[derive(Clone, Copy, Debug, PartialEq, Eq)]
pub enum UnaryOp {
    Minus,
    Complement,
    Not,
}

/// `&&` and `||` (6.5.14, 6.5.15).
#[derive(Clone, Copy, Debug, PartialEq, Eq)]
pub enum LogicOp {
    And,
    Or,
}

/// `++` and `--` (6.5.3.5, 6.5.4.2).
#[derive(Clone, Copy, Debug, PartialEq, Eq)]
pub enum StepOp {
    Increment,
    Decrement,
}

/// Whether `++` or `--` stands before its operand and has the new value, or behind it and has the
/// old one.
#[derive(Clone, Copy, Debug, PartialEq, Eq)]
pub enum StepSide {
    Prefix,
    Postfix,
}
