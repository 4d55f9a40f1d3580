//! Conditional, cast and unary expressions (ISO/IEC 9899:2024, 6.5.4, 6.5.5, 6.5.16).
ghost use Rattle.std.specs.Prelude.{◌≡◌, IfOk};
ghost use Rattle.model_grammar.specs.SyntaxExprActions as e;
ghost use Rattle.syntax_meanings.specs.Meanings.{meaning_of, symbols_seen};

use crate::expressions::expression;
use crate::operators::{measured, prefixed};
use c_tree::ExprForm;
use cake_base::NoMemory;
use std::alloc::Global;
use syntax_meanings::{Meaning, Symbols};

/// A conditional expression, or what stands in its place (6.5.16).
#[tactic(auto, using(crate::proofs::Refusals::of_conditional))]
pub fn conditional<'t>(alloc: Global, symbols: Symbols<'t>) -> Result<Meaning<'t>, NoMemory>
    ensures { IfOk result (λ made. meaning_of made ≡ e.conditional (symbols_seen symbols.entry)) }
{
    let mut symbols = symbols;
    let Some(condition) = symbols.expr() else {
        return Ok(Meaning::Nothing);
    };
    if symbols.is_empty() {
        return Ok(Meaning::Expr(condition));
    }
    let Some(question) = symbols.token() else {
        return Ok(Meaning::Nothing);
    };
    let Some(first) = symbols.expr() else {
        return Ok(Meaning::Nothing);
    };
    let Some(_) = symbols.token() else {
        return Ok(Meaning::Nothing);
    };
    let Some(second) = symbols.expr() else {
        return Ok(Meaning::Nothing);
    };
    if !symbols.is_empty() {
        return Ok(Meaning::Nothing);
    }
    expression(
        alloc,
        ExprForm::Conditional {
            condition,
            first,
            second,
            place: question.token.place,
        },
    )
}

/// A cast, or what stands in its place (6.5.5).
#[tactic(auto, using(crate::proofs::Refusals::of_cast))]
pub fn cast<'t>(alloc: Global, symbols: Symbols<'t>) -> Result<Meaning<'t>, NoMemory>
    ensures { IfOk result (λ made. meaning_of made ≡ e.cast (symbols_seen symbols.entry)) }
{
    let mut symbols = symbols;
    if let Some(expr) = symbols.expr() {
        if symbols.is_empty() {
            return Ok(Meaning::Expr(expr));
        }
        return Ok(Meaning::Nothing);
    }
    let Some(opening) = symbols.token() else {
        return Ok(Meaning::Nothing);
    };
    let Some(name) = symbols.type_name() else {
        return Ok(Meaning::Nothing);
    };
    let Some(_) = symbols.token() else {
        return Ok(Meaning::Nothing);
    };
    let Some(operand) = symbols.expr() else {
        return Ok(Meaning::Nothing);
    };
    if !symbols.is_empty() {
        return Ok(Meaning::Nothing);
    }
    expression(
        alloc,
        ExprForm::Cast {
            name,
            operand,
            place: opening.token.place,
        },
    )
}

/// A unary expression, or what stands in its place (6.5.4).
#[tactic(auto, using(crate::proofs::Refusals::of_unary))]
pub fn unary<'t>(alloc: Global, symbols: Symbols<'t>) -> Result<Meaning<'t>, NoMemory>
    ensures { IfOk result (λ made. meaning_of made ≡ e.unary (symbols_seen symbols.entry)) }
{
    let mut symbols = symbols;
    if let Some(expr) = symbols.expr() {
        if symbols.is_empty() {
            return Ok(Meaning::Expr(expr));
        }
        return Ok(Meaning::Nothing);
    }
    let Some(sign) = symbols.token() else {
        return Ok(Meaning::Nothing);
    };
    let place = sign.token.place;
    if let Some(operand) = symbols.expr() {
        if symbols.is_empty() {
            return expression(alloc, prefixed(sign.kind, operand, place));
        }
        return Ok(Meaning::Nothing);
    }
    let Some(_) = symbols.token() else {
        return Ok(Meaning::Nothing);
    };
    let Some(name) = symbols.type_name() else {
        return Ok(Meaning::Nothing);
    };
    let Some(_) = symbols.token() else {
        return Ok(Meaning::Nothing);
    };
    if !symbols.is_empty() {
        return Ok(Meaning::Nothing);
    }
    expression(alloc, measured(sign.kind, name, place))
}
