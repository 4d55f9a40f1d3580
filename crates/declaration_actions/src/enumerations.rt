//! Enumerations (ISO/IEC 9899:2024, 6.7.3.3).
ghost use Rattle.std.specs.Prelude.{◌≡◌, IfOk};
ghost use Rattle.model_grammar.specs.SyntaxDeclarationActions as d;
ghost use Rattle.model_grammar.specs.SyntaxForms as m;
ghost use Rattle.model_grammar.specs.SyntaxValues.{a_spec};
ghost use Rattle.c_tree.specs.SyntaxViews.{enumerators_of, maybe_specs_of};
ghost use Rattle.syntax_meanings.specs.Meanings.{meaning_of, symbols_seen};

use c_tokens::CKind;
use c_tree::{Enumerator, Spec, Specs};
use cake_base::{NoMemory, Place};
use model_grammar::syntax::Name;
use sqlite_items::Items;
use std::alloc::Global;
use syntax_meanings::{Meaning, Symbols, name_of};

/// The enumerators among the symbols.
#[tactic(auto, using(crate::proofs::EnumeratorLists::before_last, crate::proofs::EnumeratorLists::before_none))]
fn enumerators<'t>(alloc: Global, symbols: Symbols<'t>) -> Result<Items<Enumerator>, NoMemory>
    ensures { IfOk result (λ made. enumerators_of made ≡ d.enumerators_in (symbols_seen symbols.entry)) }
{
    let mut symbols = symbols;
    let mut enumerators = Items::new(alloc);
    while let Some(symbol) = symbols.next() {
        match symbol {
            Meaning::Enumerator(enumerator) => enumerators.push(enumerator)?,
            other => drop(other),
        }
    }
    Ok(enumerators)
}

/// An enumeration with its enumerators.
fn with_enumerators<'t>(
    alloc: Global,
    tag: Option<Name>,
    fixed: Option<Specs>,
    place: Place,
    symbols: Symbols<'t>,
) -> Result<Meaning<'t>, NoMemory>
    ensures { IfOk result (λ made. meaning_of made ≡ a_spec (m.Enum tag (maybe_specs_of fixed) (d.enumerators_in (symbols_seen symbols.entry)) place)) }
{
    let enumerators = enumerators(alloc, symbols)?;
    Ok(Meaning::Spec(Spec::Enum {
        tag,
        fixed,
        enumerators,
        place,
    }))
}

/// What follows the tag of an enumeration and the specifiers of its type.
#[tactic(auto, using(crate::proofs::Refusals::of_enumeration_from))]
fn enumeration_from<'t>(
    alloc: Global,
    tag: Option<Name>,
    fixed: Option<Specs>,
    place: Place,
    symbols: Symbols<'t>,
) -> Result<Meaning<'t>, NoMemory>
    ensures { IfOk result (λ made. meaning_of made ≡ d.enumeration_from tag (maybe_specs_of fixed) place (symbols_seen symbols.entry)) }
{
    let Some(tag) = tag else {
        return with_enumerators(alloc, None, fixed, place, symbols);
    };
    if symbols.is_empty() {
        return Ok(Meaning::Spec(Spec::EnumTag { tag, fixed, place }));
    }
    with_enumerators(alloc, Some(tag), fixed, place, symbols)
}

/// What follows the tag of an enumeration.
#[tactic(auto, using(crate::proofs::Refusals::of_enumeration_behind))]
fn enumeration_behind<'t>(
    alloc: Global,
    tag: Option<Name>,
    place: Place,
    symbols: Symbols<'t>,
) -> Result<Meaning<'t>, NoMemory>
    ensures { IfOk result (λ made. meaning_of made ≡ d.enumeration_behind tag place (symbols_seen symbols.entry)) }
{
    let mut symbols = symbols;
    let Some(colon) = symbols.token() else {
        return enumeration_from(alloc, tag, None, place, symbols);
    };
    if let Some(fixed) = symbols.specs() {
        return enumeration_from(alloc, tag, Some(fixed), place, symbols);
    }
    symbols.put(colon.meaning())?;
    enumeration_from(alloc, tag, None, place, symbols)
}

/// An enumeration.
#[tactic(auto, using(crate::proofs::Refusals::of_enumeration))]
pub fn enumeration<'t>(alloc: Global, symbols: Symbols<'t>) -> Result<Meaning<'t>, NoMemory>
    ensures { IfOk result (λ made. meaning_of made ≡ d.enumeration (symbols_seen symbols.entry)) }
{
    let mut symbols = symbols;
    let Some(word) = symbols.token() else {
        return Ok(Meaning::Nothing);
    };
    let place = word.token.place;
    let Some(name) = symbols.token() else {
        return enumeration_behind(alloc, None, place, symbols);
    };
    match &name.token.kind {
        CKind::Name(_) => {
            let tag = name_of(alloc, name.token)?;
            enumeration_behind(alloc, Some(tag), place, symbols)
        }
        _ => {
            symbols.put(name.meaning())?;
            enumeration_behind(alloc, None, place, symbols)
        }
    }
}

/// An enumerator, with its value where it has one.
#[tactic(auto, using(crate::proofs::Refusals::of_enumerator))]
pub fn enumerator<'t>(alloc: Global, symbols: Symbols<'t>) -> Result<Meaning<'t>, NoMemory>
    ensures { IfOk result (λ made. meaning_of made ≡ d.enumerator (symbols_seen symbols.entry)) }
{
    let mut symbols = symbols;
    let Some(token) = symbols.token() else {
        return Ok(Meaning::Nothing);
    };
    let name = name_of(alloc, token.token)?;
    if symbols.is_empty() {
        return Ok(Meaning::Enumerator(Enumerator { name, value: None }));
    }
    let Some(_) = symbols.token() else {
        return Ok(Meaning::Nothing);
    };
    let Some(value) = symbols.expr() else {
        return Ok(Meaning::Nothing);
    };
    if !symbols.is_empty() {
        return Ok(Meaning::Nothing);
    }
    Ok(Meaning::Enumerator(Enumerator {
        name,
        value: Some(value),
    }))
}
