//! What an expression is before its use asks for a value or a place (ISO/IEC 9899:2024, 6.3.3).

use c_types::CType;
use cake_base::Place;
use core_tree::{CoreExpr, CoreLvalue, DeclId, Mark};

/// An object, a value or a function.
#[derive(Drop)]
pub enum Meaning {
    /// An object, with its value where it is a `constexpr` one.
    Place {
        object: CoreLvalue,
        known: Option<i128>,
    },
    Value(CoreExpr),
    /// A function, and whether it is a bare name.
    Function {
        id: DeclId,
        ty: CType,
        by_name: bool,
        mark: Mark,
    },
    /// The function that a pointer points to.
    Target(CoreExpr),
}

/// The value of an operand.
#[derive(Drop)]
pub enum OperandValue {
    Read(CoreExpr),
    /// An object of a type that has no values, as `void`: its load is no value of a core.
    Unread(CoreLvalue),
}

/// An operand whose value is asked for.
#[derive(Drop)]
pub struct Operand {
    pub value: OperandValue,
    /// Its first token, a parenthesis round it counted.
    pub first: Place,
}
