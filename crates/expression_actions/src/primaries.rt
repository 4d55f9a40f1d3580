//! Primary expressions and literals (ISO/IEC 9899:2024, 6.5.2, 6.5.3.6).
ghost use Rattle.std.specs.Prelude.{◌≡◌, IfOk};
ghost use Rattle.model_grammar.specs.SyntaxExprActions as e;
ghost use Rattle.model_grammar.specs.SyntaxValues.{an_expr};
ghost use Rattle.c_tree.specs.SyntaxViews.{expr_of};
ghost use Rattle.syntax_meanings.specs.Meanings.{meaning_of, symbols_seen};

use crate::expressions::expression;
use c_tokens::{CKind, CTok};
use c_tree::ExprForm;
use cake_base::{Bytes, NoMemory, Place};
use std::alloc::Global;
use syntax_meanings::{Meaning, Symbols, kinds, name_of};

/// A word that is a constant.
fn word_constant(kind: u8, place: Place) -> ExprForm
    ensures { expr_of result ≡ e.word_constant kind place }
{
    if kind == kinds::TRUE {
        ExprForm::Truth { value: true, place }
    } else if kind == kinds::FALSE {
        ExprForm::Truth {
            value: false,
            place,
        }
    } else {
        ExprForm::Nullptr(place)
    }
}

/// A name, a constant or a string literal.
fn token_form(alloc: Global, kind: u8, token: &CTok) -> Result<ExprForm, NoMemory>
    ensures { IfOk result (λ made. expr_of made ≡ e.token_expr kind token.now.kind token.now.place) }
{
    let place = token.place;
    match &token.kind {
        CKind::Name(_) => {
            let name = name_of(alloc, token)?;
            Ok(ExprForm::Identifier(name))
        }
        CKind::Integer(constant) => Ok(ExprForm::Constant {
            constant: *constant,
            place,
        }),
        CKind::Text(text) => {
            let bytes = Bytes::of(alloc, text.as_slice())?;
            Ok(ExprForm::Text { bytes, place })
        }
        CKind::Word(_) => Ok(word_constant(kind, place)),
        CKind::Punct(_) => Ok(word_constant(kind, place)),
    }
}

/// A name, a constant or a string literal.
fn token_expr<'t>(alloc: Global, kind: u8, token: &CTok) -> Result<Meaning<'t>, NoMemory>
    ensures { IfOk result (λ made. meaning_of made ≡ an_expr (e.token_expr kind token.now.kind token.now.place)) }
{
    let form = token_form(alloc, kind, token)?;
    expression(alloc, form)
}

/// A primary expression (6.5.2).
#[tactic(auto, using(crate::proofs::Refusals::of_primary))]
pub fn primary<'t>(alloc: Global, symbols: Symbols<'t>) -> Result<Meaning<'t>, NoMemory>
    ensures { IfOk result (λ made. meaning_of made ≡ e.primary (symbols_seen symbols.entry)) }
{
    let mut symbols = symbols;
    if let Some(expr) = symbols.expr() {
        if symbols.is_empty() {
            return Ok(Meaning::Expr(expr));
        }
        return Ok(Meaning::Nothing);
    }
    let Some(opening) = symbols.token() else {
        return Ok(Meaning::Nothing);
    };
    if symbols.is_empty() {
        return token_expr(alloc, opening.kind, opening.token);
    }
    let Some(inner) = symbols.expr() else {
        return Ok(Meaning::Nothing);
    };
    let Some(_) = symbols.token() else {
        return Ok(Meaning::Nothing);
    };
    if !symbols.is_empty() {
        return Ok(Meaning::Nothing);
    }
    expression(
        alloc,
        ExprForm::Parenthesized {
            inner,
            place: opening.token.place,
        },
    )
}

/// A compound literal (6.5.3.6), or a function literal.
#[tactic(auto, using(crate::proofs::Refusals::of_literal))]
pub fn literal<'t>(alloc: Global, symbols: Symbols<'t>) -> Result<Meaning<'t>, NoMemory>
    ensures { IfOk result (λ made. meaning_of made ≡ e.literal (symbols_seen symbols.entry)) }
{
    let mut symbols = symbols;
    let Some(opening) = symbols.token() else {
        return Ok(Meaning::Nothing);
    };
    let place = opening.token.place;
    let Some(name) = symbols.type_name() else {
        return Ok(Meaning::Nothing);
    };
    let Some(_) = symbols.token() else {
        return Ok(Meaning::Nothing);
    };
    if let Some(values) = symbols.braces() {
        if symbols.is_empty() {
            return expression(
                alloc,
                ExprForm::CompoundLiteral {
                    name,
                    values,
                    place,
                },
            );
        }
        return Ok(Meaning::Nothing);
    }
    let Some(body) = symbols.block() else {
        return Ok(Meaning::Nothing);
    };
    if !symbols.is_empty() {
        return Ok(Meaning::Nothing);
    }
    expression(alloc, ExprForm::FunctionLiteral { name, body, place })
}
