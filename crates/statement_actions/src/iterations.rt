//! `for` (ISO/IEC 9899:2024, 6.8.6.4).
ghost use Rattle.std.specs.Prelude.{◌≡◌, IfOk};
ghost use Rattle.model_grammar.specs.SyntaxStatementActions as s;
ghost use Rattle.c_tree.specs.SyntaxViews.{maybe_expr_of, statement_of};
ghost use Rattle.statement_actions.specs.Beginnings as spec;
ghost use Rattle.statement_actions.specs.Beginnings.{for_form};
ghost use Rattle.syntax_meanings.specs.Meanings.{meaning_of, symbols_seen};

use crate::beginnings::Beginning;
use crate::statements::of_form;
use c_tree::{Expr, Statement, StatementForm};
use cake_base::NoMemory;
use model_types::marks::Span;
use std::alloc::Global;
use syntax_meanings::{Meaning, Symbols};

/// `for`, with its first token behind its attributes, and its last.
#[tactic(auto, using(crate::proofs::Refusals::of_for_statement))]
pub fn for_statement<'t>(
    alloc: Global,
    span: Span,
    symbols: Symbols<'t>,
) -> Result<Meaning<'t>, NoMemory>
    ensures { IfOk result (λ made. meaning_of made ≡ s.for_statement span (symbols_seen symbols.entry)) }
{
    let mut symbols = symbols;
    let Some(_) = symbols.token() else {
        return Ok(Meaning::Nothing);
    };
    let Some(_) = symbols.token() else {
        return Ok(Meaning::Nothing);
    };
    if let Some(declaration) = symbols.declaration() {
        return condition_behind(alloc, span, Beginning::Declaration(declaration), symbols);
    }
    if let Some(first) = symbols.expr() {
        let Some(_) = symbols.token() else {
            return Ok(Meaning::Nothing);
        };
        return condition_behind(alloc, span, Beginning::Expr(Some(first)), symbols);
    }
    let Some(_) = symbols.token() else {
        return Ok(Meaning::Nothing);
    };
    condition_behind(alloc, span, Beginning::Expr(None), symbols)
}

/// `for`, behind what its parentheses begin with.
#[tactic(auto, using(crate::proofs::Refusals::of_condition_behind))]
fn condition_behind<'t>(
    alloc: Global,
    span: Span,
    beginning: Beginning,
    symbols: Symbols<'t>,
) -> Result<Meaning<'t>, NoMemory>
    ensures { IfOk result (λ made. meaning_of made ≡ s.condition_behind (for_form span beginning) (symbols_seen symbols.entry)) }
{
    let mut symbols = symbols;
    if let Some(condition) = symbols.expr() {
        let Some(_) = symbols.token() else {
            drop(beginning);
            return Ok(Meaning::Nothing);
        };
        return step_behind(alloc, span, beginning, Some(condition), symbols);
    }
    let Some(_) = symbols.token() else {
        drop(beginning);
        return Ok(Meaning::Nothing);
    };
    step_behind(alloc, span, beginning, None, symbols)
}

/// `for`, behind the second `;`.
#[tactic(auto, using(crate::proofs::IterationLaws::behind_step, crate::proofs::IterationLaws::behind_no_step, crate::proofs::Refusals::of_step_behind))]
fn step_behind<'t>(
    alloc: Global,
    span: Span,
    beginning: Beginning,
    condition: Option<Expr>,
    symbols: Symbols<'t>,
) -> Result<Meaning<'t>, NoMemory>
    ensures { IfOk result (λ made. meaning_of made ≡ s.step_behind (for_form span beginning (maybe_expr_of condition)) (symbols_seen symbols.entry)) }
{
    let mut symbols = symbols;
    if let Some(step) = symbols.expr() {
        let Some(_) = symbols.token() else {
            drop(beginning);
            return Ok(Meaning::Nothing);
        };
        return body_behind(alloc, span, beginning, condition, Some(step), symbols);
    }
    let Some(_) = symbols.token() else {
        drop(beginning);
        return Ok(Meaning::Nothing);
    };
    body_behind(alloc, span, beginning, condition, None, symbols)
}

/// `for`, behind its `)`.
#[tactic(auto, using(crate::proofs::Refusals::of_body_behind))]
fn body_behind<'t>(
    alloc: Global,
    span: Span,
    beginning: Beginning,
    condition: Option<Expr>,
    step: Option<Expr>,
    symbols: Symbols<'t>,
) -> Result<Meaning<'t>, NoMemory>
    ensures { IfOk result (λ made. meaning_of made ≡ spec.body_behind (for_form span beginning (maybe_expr_of condition) (maybe_expr_of step)) (symbols_seen symbols.entry)) }
{
    let mut symbols = symbols;
    let Some(body) = symbols.statement() else {
        drop(beginning);
        return Ok(Meaning::Nothing);
    };
    if !symbols.is_empty() {
        drop(beginning);
        return Ok(Meaning::Nothing);
    }
    of_form(alloc, whole(beginning, condition, step, body, span))
}

/// A `for` of these parts.
fn whole(
    beginning: Beginning,
    condition: Option<Expr>,
    step: Option<Expr>,
    body: Statement,
    span: Span,
) -> StatementForm
    ensures { statement_of result ≡ for_form span beginning (maybe_expr_of condition) (maybe_expr_of step) body }
{
    match beginning {
        Beginning::Declaration(declaration) => StatementForm::ForDeclaration {
            declaration,
            condition,
            step,
            body,
            span,
        },
        Beginning::Expr(first) => StatementForm::For {
            first,
            condition,
            step,
            body,
            span,
        },
    }
}
