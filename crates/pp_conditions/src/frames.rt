//! Parts of a condition that wait for an operand.
ghost use Rattle.std.specs.Prelude.{◌≡◌};
ghost use Rattle.model_conditions.specs.ConditionGrammar as grammar;
ghost use Rattle.model_conditions.specs.apparatus.ConditionReader as reader;
ghost use Rattle.model_conditions.specs.ConditionReading.{computed};
ghost use Rattle.pp_conditions.specs.Shown as shown;

use crate::operators::{binary, choice, unary};
use crate::values::Part;
use cake_base::Stack;
use model_conditions::conditions::{Infix, Prefix};
use model_types::numbers::BinOp;
use model_types::operators::LogicOp;

/// The kinds of expressions, from the loosest to the tightest (ISO/IEC 9899:2024, 6.5.6 to 6.5.16).
pub const CONDITIONAL: u8 = 0;

pub const LOGICAL_OR: u8 = 1;

const LOGICAL_AND: u8 = 2;

const INCLUSIVE_OR: u8 = 3;

const EXCLUSIVE_OR: u8 = 4;

const AND: u8 = 5;

const EQUALITY: u8 = 6;

const RELATIONAL: u8 = 7;

const SHIFT: u8 = 8;

const ADDITIVE: u8 = 9;

const MULTIPLICATIVE: u8 = 10;

/// The kind of expression that a binary operator makes.
pub fn kind_of(op: Infix) -> u8
    ensures { result ≡ grammar.kind_of op }
{
    match op {
        Infix::Logic(LogicOp::Or) => LOGICAL_OR,
        Infix::Logic(LogicOp::And) => LOGICAL_AND,
        Infix::Integer(BinOp::BitOr) => INCLUSIVE_OR,
        Infix::Integer(BinOp::BitXor) => EXCLUSIVE_OR,
        Infix::Integer(BinOp::BitAnd) => AND,
        Infix::Integer(BinOp::Equal) => EQUALITY,
        Infix::Integer(BinOp::NotEqual) => EQUALITY,
        Infix::Integer(BinOp::Less) => RELATIONAL,
        Infix::Integer(BinOp::Greater) => RELATIONAL,
        Infix::Integer(BinOp::LessEqual) => RELATIONAL,
        Infix::Integer(BinOp::GreaterEqual) => RELATIONAL,
        Infix::Integer(BinOp::ShiftLeft) => SHIFT,
        Infix::Integer(BinOp::ShiftRight) => SHIFT,
        Infix::Integer(BinOp::Add) => ADDITIVE,
        Infix::Integer(BinOp::Sub) => ADDITIVE,
        Infix::Integer(BinOp::Mul) => MULTIPLICATIVE,
        Infix::Integer(BinOp::Div) => MULTIPLICATIVE,
        Infix::Integer(BinOp::Rem) => MULTIPLICATIVE,
    }
}

/// A part that waits for the operand that is read now.
#[derive(Drop)]
pub enum Frame {
    /// An opening parenthesis.
    Parenthesis,
    /// A unary operator.
    Prefix(Prefix),
    /// A binary operator behind its left operand.
    Left(Infix, Part),
    /// A `?` behind its condition.
    Question(Part),
    /// A `:` behind the condition and the operand for where it holds.
    Colon(Part, Part),
}

/// Whether the innermost waiting part is as tight as that kind of expression, so that an operand behind
/// which no tighter operator stands is its own.
fn takes_operand(frames: &Stack<Frame>, kind: u8) -> bool
    ensures { result ≡ shown.is_tight kind frames.now }
{
    match frames.top() {
        None => false,
        Some(frame) => is_tight(frame, kind),
    }
}

fn is_tight(frame: &Frame, kind: u8) -> bool
    ensures { result ≡ shown.is_tight_frame kind frame.now }
{
    match frame {
        Frame::Parenthesis => false,
        Frame::Prefix(_) => true,
        Frame::Left(op, _) => kind <= kind_of(*op),
        Frame::Question(_) => false,
        Frame::Colon(_, _) => kind <= CONDITIONAL,
    }
}

/// The operand put into a part that waits for it.
fn put(frame: Frame, operand: Part) -> Part
    ensures { result ≡ shown.put frame operand }
{
    match frame {
        Frame::Parenthesis => operand,
        Frame::Prefix(op) => unary(op, operand),
        Frame::Left(op, left) => binary(op, left, operand),
        Frame::Question(_) => operand,
        Frame::Colon(test, first) => choice(test, first, operand),
    }
}

/// The operand put into the innermost parts that are as tight as that kind of expression.
pub fn fill(frames: &mut Stack<Frame>, operand: Part, kind: u8) -> Part
    ensures { reader.filled computed kind (shown.all frames.old) operand ≡ record { frames = shown.all frames.new; operand = result } }
{
    let mut filled = operand;
    while takes_operand(frames, kind) {
        let Some(frame) = frames.pop() else {
            return filled;
        };
        filled = put(frame, filled);
    }
    filled
}
