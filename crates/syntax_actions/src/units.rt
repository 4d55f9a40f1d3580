//! The unit, and what it consists of (ISO/IEC 9899:2024, 6.9).
ghost use Rattle.std.specs.Prelude.{◌≡◌, IfOk};
ghost use Rattle.model_grammar.specs.SyntaxActions as actions;
ghost use Rattle.model_grammar.specs.SyntaxDeclarationActions as d;
ghost use Rattle.model_grammar.specs.SyntaxValues.{a_unit};
ghost use Rattle.c_tree.specs.SyntaxViews.{externals_of};
ghost use Rattle.syntax_meanings.specs.Meanings.{meaning_of, symbols_seen};

use c_tree::{Declarator, External};
use cake_base::NoMemory;
use sqlite_items::Items;
use std::alloc::Global;
use syntax_meanings::{Meaning, Symbols};

/// The unit of declarations and definitions.
pub(crate) fn unit_of_externals<'t>(
    alloc: Global,
    symbols: Symbols<'t>,
) -> Result<Meaning<'t>, NoMemory>
    ensures { IfOk result (λ made. meaning_of made ≡ a_unit (d.externals_in (symbols_seen symbols.entry))) }
{
    Ok(Meaning::Unit(externals_in(alloc, symbols)?))
}

/// The declarations and definitions that the symbols begin with.
#[tactic(auto, using(crate::proofs::ExternalLists::one_more_external, crate::proofs::ExternalLists::no_more_externals))]
fn externals_in(alloc: Global, symbols: Symbols<'_>) -> Result<Items<External>, NoMemory>
    ensures { IfOk result (λ externals. externals_of externals ≡ d.externals_in (symbols_seen symbols.entry)) }
{
    let mut symbols = symbols;
    let mut externals = Items::new(alloc);
    'externals: loop {
        match symbols.next() {
            Some(Meaning::External(external)) => externals.push(external)?,
            Some(other) => {
                drop(other);
                return Ok(externals);
            }
            None => return Ok(externals),
        }
    }
}

/// A definition of a function, or a declaration.
#[tactic(auto, using(crate::proofs::Refusals::of_external))]
pub(crate) fn external<'t>(symbols: Symbols<'t>) -> Meaning<'t>
    ensures { meaning_of result ≡ d.external (symbols_seen symbols.entry) }
{
    let mut symbols = symbols;
    if let Some(external) = symbols.external() {
        if symbols.is_empty() {
            return Meaning::External(external);
        }
        return Meaning::Nothing;
    }
    let Some(declaration) = symbols.declaration() else {
        return Meaning::Nothing;
    };
    if !symbols.is_empty() {
        return Meaning::Nothing;
    }
    Meaning::External(External::Declaration(declaration))
}

/// A definition of a function.
#[tactic(auto, using(crate::proofs::Refusals::of_function_definition))]
pub(crate) fn function_definition<'t>(
    alloc: Global,
    symbols: Symbols<'t>,
) -> Result<Meaning<'t>, NoMemory>
    ensures { IfOk result (λ made. meaning_of made ≡ d.function_definition (symbols_seen symbols.entry)) }
{
    let mut symbols = symbols;
    let Some(specs) = symbols.specs() else {
        return Ok(Meaning::Nothing);
    };
    let Some(form) = symbols.declarator() else {
        return Ok(Meaning::Nothing);
    };
    let Some(body) = symbols.block() else {
        drop(form);
        return Ok(Meaning::Nothing);
    };
    if !symbols.is_empty() {
        drop(form);
        return Ok(Meaning::Nothing);
    }
    let declarator = Declarator::new(alloc, form)?;
    Ok(Meaning::External(External::Function {
        specs,
        declarator,
        body,
    }))
}

/// What stands alone on a right side.
pub(crate) fn alone<'t>(symbols: Symbols<'t>) -> Meaning<'t>
    ensures { meaning_of result ≡ actions.alone (symbols_seen symbols.entry) }
{
    let mut symbols = symbols;
    let Some(symbol) = symbols.next() else {
        return Meaning::Nothing;
    };
    match symbols.next() {
        Some(other) => {
            drop(symbol);
            drop(other);
            Meaning::Nothing
        }
        None => symbol,
    }
}
