//! Parameters (ISO/IEC 9899:2024, 6.7.7.4).
ghost use Rattle.std.specs.Prelude.{◌≡◌, IfOk};
ghost use Rattle.model_grammar.specs.SyntaxDeclarationActions as d;
ghost use Rattle.syntax_meanings.specs.Meanings.{meaning_of, symbols_seen};

use crate::declarators::first_declarator;
use c_tree::Parameter;
use cake_base::{NoMemory, Place};
use sqlite_items::Items;
use std::alloc::Global;
use syntax_meanings::{Meaning, ParameterList, Symbols, kinds};

/// The parameters of a list, and whether `...` stands among them.
#[tactic(auto, using(crate::proofs::ParameterLists::before_last, crate::proofs::ParameterLists::before_none))]
pub fn parameters<'t>(alloc: Global, symbols: Symbols<'t>) -> Result<Meaning<'t>, NoMemory>
    ensures { IfOk result (λ made. meaning_of made ≡ d.parameters (symbols_seen symbols.entry)) }
{
    let mut symbols = symbols;
    let mut parameters = Items::new(alloc);
    let mut is_variadic = false;
    while let Some(symbol) = symbols.next() {
        match symbol {
            Meaning::Parameter(parameter) => parameters.push(parameter)?,
            Meaning::Token {
                kind: kinds::ELLIPSIS,
                ..
            } => is_variadic = true,
            other => drop(other),
        }
    }
    Ok(Meaning::Parameters(ParameterList {
        parameters,
        is_variadic,
    }))
}

/// A parameter whose first token stands at a place.
#[tactic(auto, using(crate::proofs::Refusals::of_parameter))]
pub fn parameter<'t>(
    alloc: Global,
    first: Place,
    symbols: Symbols<'t>,
) -> Result<Meaning<'t>, NoMemory>
    ensures { IfOk result (λ made. meaning_of made ≡ d.parameter first (symbols_seen symbols.entry)) }
{
    let mut symbols = symbols;
    let Some(specs) = symbols.specs() else {
        return Ok(Meaning::Nothing);
    };
    let declarator = first_declarator(alloc, symbols)?;
    Ok(Meaning::Parameter(Parameter {
        specs,
        declarator,
        first,
    }))
}
