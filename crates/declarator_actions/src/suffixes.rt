//! What makes an array or a function of a declarator (ISO/IEC 9899:2024, 6.7.7.3, 6.7.7.4).
ghost use Rattle.std.specs.Prelude.{◌≡◌, ◌==◌, ◌∷◌, false, if◌then◌else◌, IfOk};
ghost use Rattle.model_grammar.specs.SyntaxDeclarationActions as d;
ghost use Rattle.model_grammar.specs.SyntaxForms as m;
ghost use Rattle.model_grammar.specs.Terminals as k;
ghost use Rattle.model_grammar.specs.SyntaxValues.{a_token, an_expr, some_parameters};
ghost use Rattle.c_tree.specs.SyntaxViews.{parameters_of, suffix_of};
ghost use Rattle.syntax_meanings.specs.Meanings.{meaning_of, symbols_seen};

use c_tree::{Expr, Suffix};
use cake_base::{NoMemory, Place};
use sqlite_items::Items;
use std::alloc::Global;
use syntax_meanings::{Meaning, ParameterList, Symbols, Token, kinds};

/// `[` and `]`, or `(` and `)`, with nothing between them.
fn empty(alloc: Global, opening: u8, place: Place) -> Suffix
    ensures { suffix_of result ≡ (if opening == k.OpenBracket then m.ArraySuffix m.no_expr place else m.FunctionSuffix m.no_parameters false place) }
{
    if opening == kinds::OPEN_BRACKET {
        Suffix::Array {
            length: None,
            place,
        }
    } else {
        Suffix::Function {
            parameters: Items::new(alloc),
            is_variadic: false,
            place,
        }
    }
}

/// What makes an array or a function.
#[tactic(auto, using(crate::proofs::Refusals::of_suffix))]
pub fn suffix<'t>(alloc: Global, symbols: Symbols<'t>) -> Result<Meaning<'t>, NoMemory>
    ensures { IfOk result (λ made. meaning_of made ≡ d.suffix (symbols_seen symbols.entry)) }
{
    let mut symbols = symbols;
    let Some(opening) = symbols.token() else {
        return Ok(Meaning::Nothing);
    };
    if let Some(length) = symbols.expr() {
        return Ok(array(opening, length, symbols));
    }
    if let Some(list) = symbols.parameters() {
        return Ok(function(opening, list, symbols));
    }
    let Some(_) = symbols.token() else {
        return Ok(Meaning::Nothing);
    };
    if !symbols.is_empty() {
        return Ok(Meaning::Nothing);
    }
    Ok(Meaning::Suffix(empty(alloc, opening.kind, opening.token.place)))
}

/// What makes an array of a length, behind the length.
#[tactic(auto, using(crate::proofs::Refusals::of_suffix))]
fn array<'t>(opening: Token<'t>, length: Expr, symbols: Symbols<'t>) -> Meaning<'t>
    ensures { meaning_of result ≡ d.suffix (a_token opening.entry.kind opening.entry.token.now.kind opening.entry.token.now.place ∷ an_expr length ∷ symbols_seen symbols.entry) }
{
    let mut symbols = symbols;
    let Some(_) = symbols.token() else {
        return Meaning::Nothing;
    };
    if !symbols.is_empty() {
        return Meaning::Nothing;
    }
    Meaning::Suffix(Suffix::Array {
        length: Some(length),
        place: opening.token.place,
    })
}

/// What makes a function with parameters, behind them.
#[tactic(auto, using(crate::proofs::Refusals::of_suffix))]
fn function<'t>(opening: Token<'t>, list: ParameterList, symbols: Symbols<'t>) -> Meaning<'t>
    ensures { meaning_of result ≡ d.suffix (a_token opening.entry.kind opening.entry.token.now.kind opening.entry.token.now.place ∷ some_parameters (m.FunctionSuffix (parameters_of list.parameters) list.is_variadic) ∷ symbols_seen symbols.entry) }
{
    let mut symbols = symbols;
    let Some(_) = symbols.token() else {
        return Meaning::Nothing;
    };
    if !symbols.is_empty() {
        return Meaning::Nothing;
    }
    Meaning::Suffix(Suffix::Function {
        parameters: list.parameters,
        is_variadic: list.is_variadic,
        place: opening.token.place,
    })
}
