//! Statements (ISO/IEC 9899:2024, 6.8).
ghost use Rattle.std.specs.Prelude.{◌≡◌, ◌∷◌, IfOk};
ghost use Rattle.model_grammar.specs.SyntaxStatementActions as s;
ghost use Rattle.model_grammar.specs.SyntaxValues.{a_statement, a_token, an_expr};
ghost use Rattle.c_tree.specs.SyntaxTrees.{expr_tree, statement_tree};
ghost use Rattle.c_tree.specs.SyntaxViews.{statement_of};
ghost use Rattle.syntax_meanings.specs.Meanings.{meaning_of, symbols_seen};

use c_tree::{Expr, Statement, StatementForm};
use cake_base::{NoMemory, Place};
use model_types::marks::Span;
use std::alloc::Global;
use syntax_meanings::{Meaning, Symbols, Token, kinds};

/// The statement of this form.
pub(crate) fn of_form<'t>(alloc: Global, form: StatementForm) -> Result<Meaning<'t>, NoMemory>
    ensures { IfOk result (λ made. meaning_of made ≡ a_statement (statement_of form)) }
{
    Ok(Meaning::Statement(Statement::new(alloc, form)?))
}

/// A statement, but for `if` and `for`, with its first token behind its attributes, and its last.
#[tactic(auto, using(crate::proofs::Refusals::of_statement))]
pub fn statement<'t>(
    alloc: Global,
    span: Span,
    symbols: Symbols<'t>,
) -> Result<Meaning<'t>, NoMemory>
    ensures { IfOk result (λ made. meaning_of made ≡ s.statement span (symbols_seen symbols.entry)) }
{
    let mut symbols = symbols;
    if let Some(word) = symbols.token() {
        return behind_word(alloc, span, word, symbols);
    }
    if let Some(statement) = symbols.statement() {
        if symbols.is_empty() {
            return Ok(Meaning::Statement(statement));
        }
        return Ok(Meaning::Nothing);
    }
    if let Some(body) = symbols.block() {
        if symbols.is_empty() {
            return of_form(alloc, StatementForm::Compound { body, span });
        }
        return Ok(Meaning::Nothing);
    }
    let Some(value) = symbols.expr() else {
        return Ok(Meaning::Nothing);
    };
    let Some(_) = symbols.token() else {
        return Ok(Meaning::Nothing);
    };
    if !symbols.is_empty() {
        return Ok(Meaning::Nothing);
    }
    of_form(
        alloc,
        StatementForm::Expression {
            value: Some(value),
            span,
        },
    )
}

/// A statement whose first token is read.
#[tactic(auto, using(crate::proofs::Refusals::of_statement))]
fn behind_word<'t>(
    alloc: Global,
    span: Span,
    word: Token<'t>,
    symbols: Symbols<'t>,
) -> Result<Meaning<'t>, NoMemory>
    ensures { IfOk result (λ made. meaning_of made ≡ s.statement span (a_token word.entry.kind word.entry.token.now.kind word.entry.token.now.place ∷ symbols_seen symbols.entry)) }
{
    let mut symbols = symbols;
    if symbols.is_empty() {
        return of_form(alloc, StatementForm::Expression { value: None, span });
    }
    if let Some(value) = symbols.expr() {
        return returned(alloc, span, word, value, symbols);
    }
    if let Some(body) = symbols.statement() {
        return with_body(alloc, span, word, body, symbols);
    }
    let Some(_) = symbols.token() else {
        return Ok(Meaning::Nothing);
    };
    if symbols.is_empty() {
        return of_form(alloc, jump(word.kind, word.token.place, span));
    }
    let Some(value) = symbols.expr() else {
        return Ok(Meaning::Nothing);
    };
    let Some(_) = symbols.token() else {
        return Ok(Meaning::Nothing);
    };
    let Some(body) = symbols.statement() else {
        return Ok(Meaning::Nothing);
    };
    if !symbols.is_empty() {
        return Ok(Meaning::Nothing);
    }
    of_form(alloc, controlled(word.kind, value, body, span))
}

/// The statement that is a word and a `;`.
fn jump(kind: u8, place: Place, span: Span) -> StatementForm
    ensures { statement_of result ≡ s.jump kind place span }
{
    match kind {
        kinds::BREAK => StatementForm::Break { place, span },
        kinds::CONTINUE => StatementForm::Continue { place, span },
        _ => StatementForm::Return {
            value: None,
            place,
            span,
        },
    }
}

/// `switch` or `while`, by the kind of its word.
fn controlled(kind: u8, value: Expr, body: Statement, span: Span) -> StatementForm
    ensures { statement_of result ≡ s.controlled kind value body span }
{
    if kind == kinds::SWITCH {
        StatementForm::Switch { value, body, span }
    } else {
        StatementForm::While {
            condition: value,
            body,
            span,
        }
    }
}

/// `return`, behind its value.
#[tactic(auto, using(crate::proofs::Refusals::of_statement))]
fn returned<'t>(
    alloc: Global,
    span: Span,
    word: Token<'t>,
    value: Expr,
    symbols: Symbols<'t>,
) -> Result<Meaning<'t>, NoMemory>
    ensures { IfOk result (λ made. meaning_of made ≡ s.statement span (a_token word.entry.kind word.entry.token.now.kind word.entry.token.now.place ∷ an_expr (expr_tree value) ∷ symbols_seen symbols.entry)) }
{
    let mut symbols = symbols;
    let Some(_) = symbols.token() else {
        return Ok(Meaning::Nothing);
    };
    if !symbols.is_empty() {
        return Ok(Meaning::Nothing);
    }
    of_form(
        alloc,
        StatementForm::Return {
            value: Some(value),
            place: word.token.place,
            span,
        },
    )
}

/// `defer`, or `do`, behind its statement.
#[tactic(auto, using(crate::proofs::Refusals::of_statement))]
fn with_body<'t>(
    alloc: Global,
    span: Span,
    word: Token<'t>,
    body: Statement,
    symbols: Symbols<'t>,
) -> Result<Meaning<'t>, NoMemory>
    ensures { IfOk result (λ made. meaning_of made ≡ s.statement span (a_token word.entry.kind word.entry.token.now.kind word.entry.token.now.place ∷ a_statement (statement_tree body) ∷ symbols_seen symbols.entry)) }
{
    let mut symbols = symbols;
    if symbols.is_empty() {
        return of_form(
            alloc,
            StatementForm::Defer {
                body,
                place: word.token.place,
                span,
            },
        );
    }
    let Some(_) = symbols.token() else {
        return Ok(Meaning::Nothing);
    };
    let Some(_) = symbols.token() else {
        return Ok(Meaning::Nothing);
    };
    let Some(condition) = symbols.expr() else {
        return Ok(Meaning::Nothing);
    };
    let Some(_) = symbols.token() else {
        return Ok(Meaning::Nothing);
    };
    let Some(_) = symbols.token() else {
        return Ok(Meaning::Nothing);
    };
    if !symbols.is_empty() {
        return Ok(Meaning::Nothing);
    }
    of_form(
        alloc,
        StatementForm::DoWhile {
            body,
            condition,
            span,
        },
    )
}
