//! What a token is in the replacement list of a macro.

/// The part that a token plays in a replacement list (ISO/IEC 9899:2024, 6.10.5.2 to 6.10.5.4).
///
/// A parameter is named by its rank; the variable arguments have the rank after the last of them.
#[derive(Clone, Copy, Debug, PartialEq, Eq)]
pub enum Role {
    /// It stands for itself.
    Plain,
    /// The operator `##`.
    Paste,
    /// A parameter beside no operator: its argument stands in its place, fully replaced.
    Replaced(usize),
    /// A parameter beside `##`: its argument stands in its place as written.
    Written(usize),
    /// The operator `#` before a parameter: the string of that argument as written.
    Quoted(usize),
    /// The operand of the `#` directly before it.
    Operand,
    /// `__VA_OPT__` without a `#` before it.
    Optional,
    /// The operator `#` before `__VA_OPT__`.
    QuotedOptional,
    /// `__VA_OPT__` after a `#`.
    OptionalOperand,
    /// The parenthesis after `__VA_OPT__`.
    Open,
    /// The parenthesis that closes it.
    Close,
    /// It stands for the name of the file of its place (`__FILE__`, 6.10.10.2).
    File,
    /// It stands for the line of its place (`__LINE__`, 6.10.10.2).
    Line,
}

/// What may stand next in a list of parameters (6.10.5, syntax).
#[derive(Clone, Copy, Debug, PartialEq, Eq)]
pub enum Expected {
    /// A parameter, an ellipsis, or the end of an empty list.
    First,
    /// A parameter or an ellipsis.
    Item,
    /// A comma or the end.
    Next,
    /// The end, after an ellipsis.
    End,
}
