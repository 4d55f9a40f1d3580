//! The unit `int main(void) { return E; }`, read token by token from the left.
ghost use Rattle.std.specs.Prelude.{◌≡◌, ◌≤◌, IfOk, None};
ghost use Rattle.cake_cli.specs.SortViews.{sort_view};
ghost use Rattle.cake_cli.specs.Views.{expr_of, open_of, enclosings_of, stage_of, stage_option, reading_of};
ghost use Rattle.cake_cli.specs.Reader.{front_rank, past_sign, past_close, past_end, past_operand, past_begin, past_tail, past_front, read_token, at_end, read_unit};

use crate::expression::{
    Enclosing, Expr, NOTHING_OPEN, Open, Waiting, close, in_parentheses, join, mark_at,
};
use crate::sorts::{Sort, sort_of};
use c_tokens::{CList, CTok};
use cake_base::{NoMemory, Place};
use model_types::numbers::BinOp;
use std::alloc::Global;

/// How far a unit has been read. The innermost of the outer parentheses is the last.
#[derive(Drop)]
pub enum Stage {
    /// So many words of its front.
    Front(usize),
    /// An operand is wanted.
    Operand(Open, Vec<Enclosing>),
    /// Behind an operand.
    Operator(Expr, Open, Vec<Enclosing>),
    /// Behind the semicolon.
    Tail(Expr),
    /// The whole unit.
    Whole(Expr),
}

/// What reading gives: the place of the token with which the unit can't go on, or its value.
#[derive(Drop)]
pub enum Reading {
    Stops(Place),
    Reads(Expr),
}

fn front_rank(sort: Sort) -> usize
    ensures rank { result ≡ front_rank (sort_view sort) }
    ensures bound { result ≤ 7 }
{
    match sort {
        Sort::IntWord => 0,
        Sort::MainName => 1,
        Sort::OpenParenthesis => 2,
        Sort::VoidWord => 3,
        Sort::CloseParenthesis => 4,
        Sort::OpenBrace => 5,
        Sort::ReturnWord => 6,
        Sort::Constant(_) => 7,
        Sort::Sign(_) => 7,
        Sort::Semicolon => 7,
        Sort::CloseBrace => 7,
        Sort::Other => 7,
    }
}

fn past_sign(
    alloc: Global,
    op: BinOp,
    place: Place,
    operand: Expr,
    here: Open,
    outer: Vec<Enclosing>,
) -> Result<Stage, NoMemory>
    ensures { IfOk result (λ s. stage_of s ≡ past_sign op place (expr_of operand) (open_of here) (enclosings_of outer.items)) }
{
    let next = if op == BinOp::Mul {
        let Open { sum, product } = here;
        let left = join(alloc, product, operand)?;
        Open {
            sum,
            product: Some(Waiting { op, left, place }),
        }
    } else {
        let left = close(alloc, here, operand)?;
        Open {
            sum: Some(Waiting { op, left, place }),
            product: None,
        }
    };
    Ok(Stage::Operand(next, outer))
}

/// No unit goes on behind this operand.
fn stop_behind(operand: Expr, here: Open, outer: Vec<Enclosing>) -> Option<Stage>
    ensures { stage_option result ≡ None }
{
    drop(operand);
    stop_before(here, outer)
}

/// No unit goes on where an operand is wanted.
fn stop_before(here: Open, outer: Vec<Enclosing>) -> Option<Stage>
    ensures { stage_option result ≡ None }
{
    drop(here);
    drop(outer);
    None
}

/// No unit goes on behind its value.
fn stop_at_value(value: Expr) -> Option<Stage>
    ensures { stage_option result ≡ None }
{
    drop(value);
    None
}

fn past_close(
    alloc: Global,
    operand: Expr,
    here: Open,
    mut outer: Vec<Enclosing>,
) -> Result<Option<Stage>, NoMemory>
    ensures { IfOk result (λ s. stage_option s ≡ past_close (expr_of operand) (open_of here) (enclosings_of outer.items)) }
{
    match outer.pop() {
        None => Ok(stop_behind(operand, here, outer)),
        Some(around) => {
            let Enclosing {
                here: next,
                parenthesis,
            } = around;
            let operand = in_parentheses(close(alloc, here, operand)?, parenthesis);
            Ok(Some(Stage::Operator(operand, next, outer)))
        }
    }
}

fn past_end(
    alloc: Global,
    operand: Expr,
    here: Open,
    outer: Vec<Enclosing>,
) -> Result<Option<Stage>, NoMemory>
    ensures { IfOk result (λ s. stage_option s ≡ past_end (expr_of operand) (open_of here) (enclosings_of outer.items)) }
{
    if outer.is_empty() {
        drop(outer);
        Ok(Some(Stage::Tail(close(alloc, here, operand)?)))
    } else {
        Ok(stop_behind(operand, here, outer))
    }
}

fn past_operand(
    alloc: Global,
    sort: Sort,
    place: Place,
    operand: Expr,
    here: Open,
    outer: Vec<Enclosing>,
) -> Result<Option<Stage>, NoMemory>
    ensures { IfOk result (λ s. stage_option s ≡ past_operand (sort_view sort) place (expr_of operand) (open_of here) (enclosings_of outer.items)) }
{
    match sort {
        Sort::Sign(op) => Ok(Some(past_sign(alloc, op, place, operand, here, outer)?)),
        Sort::CloseParenthesis => past_close(alloc, operand, here, outer),
        Sort::Semicolon => past_end(alloc, operand, here, outer),
        Sort::IntWord => Ok(stop_behind(operand, here, outer)),
        Sort::MainName => Ok(stop_behind(operand, here, outer)),
        Sort::OpenParenthesis => Ok(stop_behind(operand, here, outer)),
        Sort::VoidWord => Ok(stop_behind(operand, here, outer)),
        Sort::OpenBrace => Ok(stop_behind(operand, here, outer)),
        Sort::ReturnWord => Ok(stop_behind(operand, here, outer)),
        Sort::Constant(_) => Ok(stop_behind(operand, here, outer)),
        Sort::CloseBrace => Ok(stop_behind(operand, here, outer)),
        Sort::Other => Ok(stop_behind(operand, here, outer)),
    }
}

fn past_begin(
    sort: Sort,
    place: Place,
    here: Open,
    mut outer: Vec<Enclosing>,
) -> Result<Option<Stage>, NoMemory>
    ensures { IfOk result (λ s. stage_option s ≡ past_begin (sort_view sort) place (open_of here) (enclosings_of outer.items)) }
{
    match sort {
        Sort::OpenParenthesis => {
            outer.push(Enclosing {
                here,
                parenthesis: place,
            })?;
            Ok(Some(Stage::Operand(NOTHING_OPEN, outer)))
        }
        Sort::Constant(constant) => {
            let operand = Expr::Constant(constant, mark_at(place));
            Ok(Some(Stage::Operator(operand, here, outer)))
        }
        Sort::IntWord => Ok(stop_before(here, outer)),
        Sort::MainName => Ok(stop_before(here, outer)),
        Sort::VoidWord => Ok(stop_before(here, outer)),
        Sort::CloseParenthesis => Ok(stop_before(here, outer)),
        Sort::OpenBrace => Ok(stop_before(here, outer)),
        Sort::ReturnWord => Ok(stop_before(here, outer)),
        Sort::Sign(_) => Ok(stop_before(here, outer)),
        Sort::Semicolon => Ok(stop_before(here, outer)),
        Sort::CloseBrace => Ok(stop_before(here, outer)),
        Sort::Other => Ok(stop_before(here, outer)),
    }
}

fn past_tail(sort: Sort, value: Expr) -> Option<Stage>
    ensures { stage_option result ≡ past_tail (sort_view sort) (expr_of value) }
{
    match sort {
        Sort::CloseBrace => Some(Stage::Whole(value)),
        Sort::IntWord => stop_at_value(value),
        Sort::MainName => stop_at_value(value),
        Sort::OpenParenthesis => stop_at_value(value),
        Sort::VoidWord => stop_at_value(value),
        Sort::CloseParenthesis => stop_at_value(value),
        Sort::OpenBrace => stop_at_value(value),
        Sort::ReturnWord => stop_at_value(value),
        Sort::Constant(_) => stop_at_value(value),
        Sort::Sign(_) => stop_at_value(value),
        Sort::Semicolon => stop_at_value(value),
        Sort::Other => stop_at_value(value),
    }
}

fn past_word(alloc: Global, count: usize, sort: Sort) -> Option<Stage>
    ensures { stage_option result ≡ past_front count (sort_view sort) }
{
    if front_rank(sort) != count {
        None
    } else if count == 6 {
        Some(Stage::Operand(NOTHING_OPEN, Vec::new(alloc)))
    } else {
        Some(Stage::Front(count + 1))
    }
}

/// Goes on behind one more token, where the unit can.
fn read_token(alloc: Global, stage: Stage, token: &CTok) -> Result<Option<Stage>, NoMemory>
    ensures { IfOk result (λ s. stage_option s ≡ read_token (stage_of stage) token.now) }
{
    let sort = sort_of(token);
    match stage {
        Stage::Front(count) => Ok(past_word(alloc, count, sort)),
        Stage::Operand(here, outer) => past_begin(sort, token.place, here, outer),
        Stage::Operator(operand, here, outer) => {
            past_operand(alloc, sort, token.place, operand, here, outer)
        }
        Stage::Tail(value) => Ok(past_tail(sort, value)),
        Stage::Whole(value) => Ok(stop_at_value(value)),
    }
}

/// What is read of a unit whose tokens end at this stage.
fn at_end(stage: Stage, end: Place) -> Reading
    ensures { reading_of result ≡ at_end (stage_of stage) end }
{
    match stage {
        Stage::Whole(value) => Reading::Reads(value),
        Stage::Front(_) => Reading::Stops(end),
        Stage::Operand(here, outer) => {
            drop(here);
            drop(outer);
            Reading::Stops(end)
        }
        Stage::Operator(operand, here, outer) => {
            drop(operand);
            drop(here);
            drop(outer);
            Reading::Stops(end)
        }
        Stage::Tail(value) => {
            drop(value);
            Reading::Stops(end)
        }
    }
}

/// Reads a whole unit, whose tokens end at `end`.
pub fn read_unit(alloc: Global, tokens: &CList, end: Place) -> Result<Reading, NoMemory>
    ensures { IfOk result (λ r. reading_of r ≡ read_unit tokens.now end) }
{
    let mut stage = Stage::Front(0);
    for at in 0..tokens.count() {
        let Some(token) = tokens.get(at) else {
            unreachable!();
        };
        match read_token(alloc, stage, token)? {
            None => return Ok(Reading::Stops(token.place)),
            Some(next) => stage = next,
        }
    }
    Ok(at_end(stage, end))
}
