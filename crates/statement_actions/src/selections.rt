//! `if` (ISO/IEC 9899:2024, 6.8.5.2).
ghost use Rattle.std.specs.Prelude.{◌≡◌, IfOk};
ghost use Rattle.model_grammar.specs.SyntaxStatementActions as s;
ghost use Rattle.c_tree.specs.SyntaxViews.{maybe_declaration_of};
ghost use Rattle.syntax_meanings.specs.Meanings.{meaning_of, symbols_seen};

use crate::statements::of_form;
use c_tree::{Declaration, StatementForm};
use cake_base::NoMemory;
use model_types::marks::Span;
use std::alloc::Global;
use syntax_meanings::{Meaning, Symbols};

/// `if`, with its first token behind its attributes, and its last.
#[tactic(auto, using(crate::proofs::Refusals::of_if_statement))]
pub fn if_statement<'t>(
    alloc: Global,
    span: Span,
    symbols: Symbols<'t>,
) -> Result<Meaning<'t>, NoMemory>
    ensures { IfOk result (λ made. meaning_of made ≡ s.if_statement span (symbols_seen symbols.entry)) }
{
    let mut symbols = symbols;
    let Some(_) = symbols.token() else {
        return Ok(Meaning::Nothing);
    };
    let Some(_) = symbols.token() else {
        return Ok(Meaning::Nothing);
    };
    if let Some(declaration) = symbols.declaration() {
        return selection(alloc, span, Some(declaration), symbols);
    }
    selection(alloc, span, None, symbols)
}

/// The condition of `if` and its statements, the second behind `else`.
#[tactic(auto, using(crate::proofs::Refusals::of_selection))]
fn selection<'t>(
    alloc: Global,
    span: Span,
    declaration: Option<Declaration>,
    symbols: Symbols<'t>,
) -> Result<Meaning<'t>, NoMemory>
    ensures { IfOk result (λ made. meaning_of made ≡ s.selection span (maybe_declaration_of declaration) (symbols_seen symbols.entry)) }
{
    let mut symbols = symbols;
    let Some(condition) = symbols.expr() else {
        return Ok(Meaning::Nothing);
    };
    let Some(_) = symbols.token() else {
        return Ok(Meaning::Nothing);
    };
    let Some(first) = symbols.statement() else {
        return Ok(Meaning::Nothing);
    };
    if symbols.is_empty() {
        return of_form(
            alloc,
            StatementForm::If {
                declaration,
                condition,
                first,
                second: None,
                span,
            },
        );
    }
    let Some(_) = symbols.token() else {
        return Ok(Meaning::Nothing);
    };
    let Some(second) = symbols.statement() else {
        return Ok(Meaning::Nothing);
    };
    if !symbols.is_empty() {
        return Ok(Meaning::Nothing);
    }
    of_form(
        alloc,
        StatementForm::If {
            declaration,
            condition,
            first,
            second: Some(second),
            span,
        },
    )
}
