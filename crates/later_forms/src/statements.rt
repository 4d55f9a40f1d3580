//! The forms that are built last, in statements and in blocks.
ghost use Rattle.std.specs.Prelude.{◌≡◌};
ghost use Rattle.model_scopes.specs.Declaring.{or_place};
ghost use Rattle.model_checking.specs.LaterForms as later;
ghost use Rattle.c_tree.specs.SyntaxTrees.{expr_tree, statement_tree};
ghost use Rattle.c_tree.specs.SyntaxViews as v;

use crate::declarations::in_declaration;
use crate::expressions::{in_expr, in_maybe_expr};
use c_tree::{Block, BlockItem, Expr, Statement, StatementForm};
use cake_base::Place;

#[cycle(statement)]
fn in_statement(statement: &Statement) -> Option<Place>
    ensures { result ≡ later.in_statement (statement_tree statement.now) }
{
    match statement.form() {
        StatementForm::Expression { value, .. } => in_maybe_expr(value),
        StatementForm::Compound { body, .. } => in_block(body),
        StatementForm::If {
            declaration: Some(_),
            span,
            ..
        } => Some(span.first),
        StatementForm::If {
            declaration: None,
            condition,
            first,
            second,
            ..
        } => in_if(condition, first, second),
        StatementForm::Switch { value, body, .. } => in_loop(value, body),
        StatementForm::While {
            condition,
            body,
            ..
        } => in_loop(condition, body),
        StatementForm::DoWhile {
            body,
            condition,
            ..
        } => match in_statement(body) {
            Some(place) => Some(place),
            None => in_expr(condition),
        },
        StatementForm::For {
            first,
            condition,
            step,
            body,
            ..
        } => match in_maybe_expr(first) {
            Some(place) => Some(place),
            None => in_for(condition, step, body),
        },
        StatementForm::ForDeclaration {
            declaration,
            condition,
            step,
            body,
            ..
        } => match in_declaration(declaration) {
            Some(place) => Some(place),
            None => in_for(condition, step, body),
        },
        StatementForm::Break { .. } => None,
        StatementForm::Continue { .. } => None,
        StatementForm::Return { value, .. } => in_maybe_expr(value),
        StatementForm::Defer { place, .. } => Some(*place),
    }
}

#[cycle(statement)]
fn in_if(condition: &Expr, first: &Statement, second: &Option<Statement>) -> Option<Place>
    ensures { result ≡ or_place (later.in_expr (expr_tree condition.now)) (or_place (later.in_statement (statement_tree first.now)) (later.in_maybe_statement (v.maybe_statement_of second.now))) }
{
    match in_loop(condition, first) {
        Some(place) => Some(place),
        None => in_maybe_statement(second),
    }
}

#[cycle(statement)]
fn in_loop(condition: &Expr, body: &Statement) -> Option<Place>
    ensures { result ≡ or_place (later.in_expr (expr_tree condition.now)) (later.in_statement (statement_tree body.now)) }
{
    match in_expr(condition) {
        Some(place) => Some(place),
        None => in_statement(body),
    }
}

#[cycle(statement)]
fn in_for(condition: &Option<Expr>, step: &Option<Expr>, body: &Statement) -> Option<Place>
    ensures { result ≡ or_place (later.in_maybe_expr (v.maybe_expr_of condition.now)) (or_place (later.in_maybe_expr (v.maybe_expr_of step.now)) (later.in_statement (statement_tree body.now))) }
{
    match in_maybe_expr(condition) {
        Some(place) => Some(place),
        None => match in_maybe_expr(step) {
            Some(place) => Some(place),
            None => in_statement(body),
        },
    }
}

#[cycle(statement)]
fn in_maybe_statement(statement: &Option<Statement>) -> Option<Place>
    ensures { result ≡ later.in_maybe_statement (v.maybe_statement_of statement.now) }
{
    match statement {
        Some(statement) => in_statement(statement),
        None => None,
    }
}

#[cycle(statement)]
fn in_block_item(item: &BlockItem) -> Option<Place>
    ensures { result ≡ later.in_block_item (v.block_item_of item.now) }
{
    match item {
        BlockItem::Declaration(declaration) => in_declaration(declaration),
        BlockItem::Case { value, .. } => in_expr(value),
        BlockItem::Default(_) => None,
        BlockItem::Statement(statement) => in_statement(statement),
    }
}

#[cycle(statement)]
fn in_block_items(items: &[BlockItem]) -> Option<Place>
    ensures { result ≡ later.in_block_items (v.block_items_of items.now) }
{
    for item in items {
        if let Some(place) = in_block_item(item) {
            return Some(place);
        }
    }
    None
}

#[cycle(statement)]
pub(crate) fn in_block(body: &Block) -> Option<Place>
    ensures { result ≡ later.in_block (v.block_of body.now) }
{
    in_block_items(body.items.as_slice())
}
