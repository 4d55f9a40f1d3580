//! The expression of `#if`: its tokens and its operators.
use model_types::numbers::BinOp;
use model_types::operators::LogicOp;

/// A number of 64 bits, signed or unsigned, as constants of a condition are (ISO/IEC 9899:2024,
/// 6.10.2).
#[derive(Clone, Copy, Debug, PartialEq, Eq)]
pub struct WideNumber {
    pub value: i128,
    pub unsigned: bool,
}

/// A unary operator of a condition (6.5.4.3).
#[derive(Clone, Copy, Debug, PartialEq, Eq)]
pub enum Prefix {
    Plus,
    Minus,
    Complement,
    Not,
}

/// A binary operator of a condition (6.5.6 to 6.5.15).
#[derive(Clone, Copy, Debug, PartialEq, Eq)]
pub enum Infix {
    Integer(BinOp),
    Logic(LogicOp),
}

/// A token of a condition.
#[derive(Clone, Copy, Debug, PartialEq, Eq)]
pub enum ConditionToken {
    Constant(WideNumber),
    /// A binary operator; `+` and `-` are unary operators too.
    Operator(Infix),
    /// `~`
    Complement,
    /// `!`
    Not,
    /// `(`
    Open,
    /// `)`
    Close,
    /// `?`
    Question,
    /// `:`
    Colon,
}

/// The rules of the family P that a condition can break.
#[derive(Clone, Copy, Debug, PartialEq, Eq)]
pub enum ConditionRule {
    /// P14: it is no expression of conditions.
    Malformed,
    /// P15: an operation that is evaluated is undefined.
    Undefined,
    /// P20: it has an operator that is left out.
    LeftOut,
}
