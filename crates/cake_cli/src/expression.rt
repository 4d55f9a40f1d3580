//! The value that a unit returns.
ghost use Rattle.std.specs.Prelude.{◌≡◌, IfOk};
ghost use Rattle.model_core.specs.SourceMarks.{expr_mark};
ghost use Rattle.c_model.specs.FirstUnit as first;
ghost use Rattle.cake_cli.specs.Views.{expr_of, waiting_option, open_of};
ghost use Rattle.cake_cli.specs.Reader.{joined, closed};

use crate::constants::IntConstant;
use cake_base::{NoMemory, Place};
use model_types::marks::Mark;
use model_types::numbers::BinOp;
use std::alloc::Global;

/// An expression of type int, with where its parts stand.
#[derive(Drop)]
pub enum Expr {
    Constant(IntConstant, Mark),
    Binary(BinOp, Box<Expr>, Box<Expr>, Mark),
}

/// A left operand with its operator, which waits for its right one.
#[derive(Drop)]
pub struct Waiting {
    pub op: BinOp,
    pub left: Expr,
    pub place: Place,
}

/// The left operands that wait between two parentheses: of a sum, and of a product.
#[derive(Drop)]
pub struct Open {
    pub sum: Option<Waiting>,
    pub product: Option<Waiting>,
}

/// What waits outside of a parenthesis that is open, and where it stands.
#[derive(Drop)]
pub struct Enclosing {
    pub here: Open,
    pub parenthesis: Place,
}

/// Nothing waits.
pub const NOTHING_OPEN: Open = Open {
    sum: None,
    product: None,
};

/// The mark of a token that is an expression.
pub fn mark_at(place: Place) -> Mark
    ensures { result ≡ first.mark_at place }
{
    Mark {
        at: place,
        first: place,
        outer: place,
    }
}

/// The mark of an operation: it begins with its left operand, the parentheses round that counted.
fn operation_mark(left: &Expr, place: Place) -> Mark
    ensures { result ≡ record { at = place; first = (expr_mark (expr_of left.now)).outer; outer = (expr_mark (expr_of left.now)).outer } }
{
    let begin = match left {
        Expr::Constant(_, mark) => mark.outer,
        Expr::Binary(_, _, _, mark) => mark.outer,
    };
    Mark {
        at: place,
        first: begin,
        outer: begin,
    }
}

/// The expression in parentheses, of which the first stands at `place`.
pub fn in_parentheses(inner: Expr, place: Place) -> Expr
    ensures { expr_of result ≡ first.in_parentheses place (expr_of inner) }
{
    match inner {
        Expr::Constant(constant, mark) => Expr::Constant(constant, moved_out(mark, place)),
        Expr::Binary(op, left, right, mark) => {
            Expr::Binary(op, left, right, moved_out(mark, place))
        }
    }
}

fn moved_out(mark: Mark, place: Place) -> Mark
    ensures { result ≡ record mark { outer = place } }
{
    Mark {
        at: mark.at,
        first: mark.first,
        outer: place,
    }
}

/// The operation of a left operand that waits, if one does, on its right operand.
pub fn join(alloc: Global, waiting: Option<Waiting>, right: Expr) -> Result<Expr, NoMemory>
    ensures { IfOk result (λ e. expr_of e ≡ joined (waiting_option waiting) (expr_of right)) }
{
    match waiting {
        None => Ok(right),
        Some(waiting) => {
            let Waiting { op, left, place } = waiting;
            let mark = operation_mark(&left, place);
            let left = Box::new(alloc, left)?;
            let right = Box::new(alloc, right)?;
            Ok(Expr::Binary(op, left, right, mark))
        }
    }
}

/// The whole expression between two parentheses, of which `operand` is the last.
pub fn close(alloc: Global, here: Open, operand: Expr) -> Result<Expr, NoMemory>
    ensures { IfOk result (λ e. expr_of e ≡ closed (open_of here) (expr_of operand)) }
{
    let Open { sum, product } = here;
    let right = join(alloc, product, operand)?;
    join(alloc, sum, right)
}
