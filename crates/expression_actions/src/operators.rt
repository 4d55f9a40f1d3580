//! The operators of expressions (ISO/IEC 9899:2024, 6.5.3 to 6.5.18).
ghost use Rattle.std.specs.Prelude.{◌≡◌};
ghost use Rattle.model_grammar.specs.SyntaxExprActions as e;
ghost use Rattle.model_grammar.specs.SyntaxForms as m;
ghost use Rattle.model_types.specs.declared.operators.StepSide.TheVariants.{Prefix};
ghost use Rattle.c_tree.specs.SyntaxViews.{expr_of};

use c_tree::{Expr, ExprForm, TypeName};
use cake_base::Place;
use model_grammar::syntax::PrefixOp;
use model_types::numbers::BinOp;
use model_types::operators::{LogicOp, StepOp, StepSide};
use syntax_meanings::kinds;

fn by(op: BinOp, left: Expr, right: Expr, place: Place) -> ExprForm
    ensures { expr_of result ≡ m.Binary op left right place }
{
    ExprForm::Binary {
        op,
        left,
        right,
        place,
    }
}

fn logic(op: LogicOp, left: Expr, right: Expr, place: Place) -> ExprForm
    ensures { expr_of result ≡ m.Logic op left right place }
{
    ExprForm::Logic {
        op,
        left,
        right,
        place,
    }
}

/// Two operands with the operator between them.
pub(crate) fn binary(sign: u8, left: Expr, right: Expr, place: Place) -> ExprForm
    ensures { expr_of result ≡ e.binary sign left right place }
{
    match sign {
        kinds::COMMA => ExprForm::Comma {
            first: left,
            second: right,
            place,
        },
        kinds::BAR_BAR => logic(LogicOp::Or, left, right, place),
        kinds::AMPERSAND_AMPERSAND => logic(LogicOp::And, left, right, place),
        kinds::BAR => by(BinOp::BitOr, left, right, place),
        kinds::CARET => by(BinOp::BitXor, left, right, place),
        kinds::AMPERSAND => by(BinOp::BitAnd, left, right, place),
        kinds::EQUALS_EQUALS => by(BinOp::Equal, left, right, place),
        kinds::EXCLAMATION_EQUALS => by(BinOp::NotEqual, left, right, place),
        kinds::LESS => by(BinOp::Less, left, right, place),
        kinds::GREATER => by(BinOp::Greater, left, right, place),
        kinds::LESS_EQUALS => by(BinOp::LessEqual, left, right, place),
        kinds::GREATER_EQUALS => by(BinOp::GreaterEqual, left, right, place),
        kinds::SHIFT_LEFT => by(BinOp::ShiftLeft, left, right, place),
        kinds::SHIFT_RIGHT => by(BinOp::ShiftRight, left, right, place),
        kinds::PLUS => by(BinOp::Add, left, right, place),
        kinds::MINUS => by(BinOp::Sub, left, right, place),
        kinds::STAR => by(BinOp::Mul, left, right, place),
        kinds::SLASH => by(BinOp::Div, left, right, place),
        _ => by(BinOp::Rem, left, right, place),
    }
}

fn assign_by(op: BinOp, left: Expr, right: Expr, place: Place) -> ExprForm
    ensures { expr_of result ≡ m.AssignBy op left right place }
{
    ExprForm::AssignBy {
        op,
        left,
        right,
        place,
    }
}

/// An assignment by the operator between its sides.
pub(crate) fn assignment(sign: u8, left: Expr, right: Expr, place: Place) -> ExprForm
    ensures { expr_of result ≡ e.assignment sign left right place }
{
    match sign {
        kinds::EQUALS => ExprForm::Assign { left, right, place },
        kinds::STAR_EQUALS => assign_by(BinOp::Mul, left, right, place),
        kinds::SLASH_EQUALS => assign_by(BinOp::Div, left, right, place),
        kinds::PERCENT_EQUALS => assign_by(BinOp::Rem, left, right, place),
        kinds::PLUS_EQUALS => assign_by(BinOp::Add, left, right, place),
        kinds::MINUS_EQUALS => assign_by(BinOp::Sub, left, right, place),
        kinds::SHIFT_LEFT_EQUALS => assign_by(BinOp::ShiftLeft, left, right, place),
        kinds::SHIFT_RIGHT_EQUALS => assign_by(BinOp::ShiftRight, left, right, place),
        kinds::AMPERSAND_EQUALS => assign_by(BinOp::BitAnd, left, right, place),
        kinds::CARET_EQUALS => assign_by(BinOp::BitXor, left, right, place),
        _ => assign_by(BinOp::BitOr, left, right, place),
    }
}

/// `++`, or `--`.
pub(crate) fn step_of(sign: u8) -> StepOp
    ensures { result ≡ e.step_of sign }
{
    if sign == kinds::PLUS_PLUS {
        StepOp::Increment
    } else {
        StepOp::Decrement
    }
}

fn stepped(op: StepOp, operand: Expr, place: Place) -> ExprForm
    ensures { expr_of result ≡ m.Step op Prefix operand place }
{
    ExprForm::Step {
        op,
        side: StepSide::Prefix,
        operand,
        place,
    }
}

fn behind(op: PrefixOp, operand: Expr, place: Place) -> ExprForm
    ensures { expr_of result ≡ m.Unary op operand place }
{
    ExprForm::Unary { op, operand, place }
}

/// An operator, or `sizeof`, before an operand.
pub(crate) fn prefixed(sign: u8, operand: Expr, place: Place) -> ExprForm
    ensures { expr_of result ≡ e.prefixed sign operand place }
{
    match sign {
        kinds::SIZEOF => ExprForm::SizeofExpr { operand, place },
        kinds::PLUS_PLUS => stepped(StepOp::Increment, operand, place),
        kinds::MINUS_MINUS => stepped(StepOp::Decrement, operand, place),
        kinds::AMPERSAND => behind(PrefixOp::Address, operand, place),
        kinds::STAR => behind(PrefixOp::Indirection, operand, place),
        kinds::PLUS => behind(PrefixOp::Plus, operand, place),
        kinds::MINUS => behind(PrefixOp::Minus, operand, place),
        kinds::TILDE => behind(PrefixOp::Complement, operand, place),
        _ => behind(PrefixOp::Not, operand, place),
    }
}

/// `sizeof`, or `alignof`, before a type name.
pub(crate) fn measured(sign: u8, name: TypeName, place: Place) -> ExprForm
    ensures { expr_of result ≡ e.measured sign name place }
{
    if sign == kinds::SIZEOF {
        ExprForm::SizeofType { name, place }
    } else {
        ExprForm::Alignof { name, place }
    }
}
