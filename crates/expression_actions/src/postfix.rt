//! Postfix expressions (ISO/IEC 9899:2024, 6.5.3).
ghost use Rattle.std.specs.Prelude.{◌≡◌, ◌∷◌, [], ◌≤◌, length, IfOk};
ghost use Rattle.model_grammar.specs.SyntaxExprActions as e;
ghost use Rattle.model_grammar.specs.SyntaxForms as m;
ghost use Rattle.model_grammar.specs.SyntaxValues.{a_token, an_expr};
ghost use Rattle.syntax_meanings.specs.Meanings.{meaning_of, symbols_seen};

use crate::operators::step_of;
use c_tree::{Expr, ExprForm};
use cake_base::{NoMemory, Place};
use model_types::operators::StepSide;
use sqlite_items::Items;
use std::alloc::Global;
use syntax_meanings::{Meaning, Symbols, Token, kinds, name_of};

/// A call of a function (6.5.3.3); the function alone, with nothing behind it, where its arguments don't end.
fn call<'t>(
    alloc: Global,
    function: Expr,
    place: Place,
    symbols: &mut Symbols<'t>,
) -> Result<Expr, NoMemory>
    ensures made { IfOk result (λ made. e.call function place [] (symbols_seen symbols.old) ≡ e.postfix made (symbols_seen symbols.new)) }
    ensures fewer { length (symbols_seen symbols.new) ≤ length (symbols_seen symbols.old) }
{
    let mut arguments = Items::new(alloc);
    while let Some(symbol) = symbols.next() {
        match symbol {
            Meaning::Expr(argument) => arguments.push(argument)?,
            Meaning::Token {
                kind: kinds::COMMA,
                ..
            } => {}
            Meaning::Token { .. } => {
                let call = Expr::new(
                    alloc,
                    ExprForm::Call {
                        function,
                        arguments,
                        place,
                    },
                )?;
                return Ok(call);
            }
            other => {
                drop(other);
                symbols.clear();
                return Ok(function);
            }
        }
    }
    Ok(function)
}

/// The expression behind which a `]` is read; nothing more is read where there is none.
#[tactic(auto, using(crate::proofs::Refusals::of_close))]
fn closed<'t>(expr: Expr, symbols: &mut Symbols<'t>) -> Expr
    ensures made { e.close expr (symbols_seen symbols.old) ≡ e.postfix result (symbols_seen symbols.new) }
    ensures fewer { length (symbols_seen symbols.new) ≤ length (symbols_seen symbols.old) }
{
    let Some(_) = symbols.token() else {
        symbols.clear();
        return expr;
    };
    expr
}

/// An element of an array (6.5.3.2).
#[tactic(auto, using(crate::proofs::Refusals::of_index))]
fn index<'t>(
    alloc: Global,
    array: Expr,
    place: Place,
    symbols: &mut Symbols<'t>,
) -> Result<Expr, NoMemory>
    ensures made { IfOk result (λ made. e.index array place (symbols_seen symbols.old) ≡ e.postfix made (symbols_seen symbols.new)) }
    ensures fewer { length (symbols_seen symbols.new) ≤ length (symbols_seen symbols.old) }
{
    let Some(index) = symbols.expr() else {
        symbols.clear();
        return Ok(array);
    };
    let element = Expr::new(
        alloc,
        ExprForm::Index {
            array,
            index,
            place,
        },
    )?;
    Ok(closed(element, symbols))
}

/// A member of a structure (6.5.3.4).
#[tactic(auto, using(crate::proofs::Refusals::of_member))]
fn member<'t>(
    alloc: Global,
    structure: Expr,
    place: Place,
    symbols: &mut Symbols<'t>,
) -> Result<Expr, NoMemory>
    ensures made { IfOk result (λ made. e.member m.Member structure place (symbols_seen symbols.old) ≡ e.postfix made (symbols_seen symbols.new)) }
    ensures fewer { length (symbols_seen symbols.new) ≤ length (symbols_seen symbols.old) }
{
    let Some(name) = symbols.token() else {
        symbols.clear();
        return Ok(structure);
    };
    let member = name_of(alloc, name.token)?;
    Expr::new(
        alloc,
        ExprForm::Member {
            structure,
            member,
            place,
        },
    )
}

/// A member of a structure by a pointer (6.5.3.4).
#[tactic(auto, using(crate::proofs::Refusals::of_member))]
fn arrow<'t>(
    alloc: Global,
    pointer: Expr,
    place: Place,
    symbols: &mut Symbols<'t>,
) -> Result<Expr, NoMemory>
    ensures made { IfOk result (λ made. e.member m.Arrow pointer place (symbols_seen symbols.old) ≡ e.postfix made (symbols_seen symbols.new)) }
    ensures fewer { length (symbols_seen symbols.new) ≤ length (symbols_seen symbols.old) }
{
    let Some(name) = symbols.token() else {
        symbols.clear();
        return Ok(pointer);
    };
    let member = name_of(alloc, name.token)?;
    Expr::new(
        alloc,
        ExprForm::Arrow {
            pointer,
            member,
            place,
        },
    )
}

/// The expression with what the token behind it begins.
fn with_suffix<'t>(
    alloc: Global,
    expr: Expr,
    sign: Token<'t>,
    symbols: &mut Symbols<'t>,
) -> Result<Expr, NoMemory>
    ensures made { IfOk result (λ made. e.postfix expr (a_token sign.entry.kind sign.entry.token.now.kind sign.entry.token.now.place ∷ symbols_seen symbols.old) ≡ e.postfix made (symbols_seen symbols.new)) }
    ensures fewer { length (symbols_seen symbols.new) ≤ length (symbols_seen symbols.old) }
{
    let place = sign.token.place;
    match sign.kind {
        kinds::OPEN_PARENTHESIS => call(alloc, expr, place, symbols),
        kinds::OPEN_BRACKET => index(alloc, expr, place, symbols),
        kinds::DOT => member(alloc, expr, place, symbols),
        kinds::ARROW => arrow(alloc, expr, place, symbols),
        _ => Expr::new(
            alloc,
            ExprForm::Step {
                op: step_of(sign.kind),
                side: StepSide::Postfix,
                operand: expr,
                place,
            },
        ),
    }
}

/// The expression with all that stands behind it.
#[tactic(auto, using(crate::proofs::Refusals::of_postfix))]
fn postfix<'t>(alloc: Global, first: Expr, symbols: Symbols<'t>) -> Result<Meaning<'t>, NoMemory>
    ensures { IfOk result (λ made. meaning_of made ≡ an_expr (e.postfix first (symbols_seen symbols.entry))) }
{
    let mut symbols = symbols;
    let mut expr = first;
    while let Some(sign) = symbols.token() {
        expr = with_suffix(alloc, expr, sign, &mut symbols)?;
    }
    Ok(Meaning::Expr(expr))
}

/// A primary expression with what stands behind it.
#[tactic(auto, using(crate::proofs::Refusals::of_postfixed))]
pub fn postfixed<'t>(alloc: Global, symbols: Symbols<'t>) -> Result<Meaning<'t>, NoMemory>
    ensures { IfOk result (λ made. meaning_of made ≡ e.postfixed (symbols_seen symbols.entry)) }
{
    let mut symbols = symbols;
    let Some(first) = symbols.expr() else {
        return Ok(Meaning::Nothing);
    };
    postfix(alloc, first, symbols)
}
