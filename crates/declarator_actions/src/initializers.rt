//! Initializers (ISO/IEC 9899:2024, 6.7.11).
ghost use Rattle.std.specs.Prelude.{◌≡◌, IfOk};
ghost use Rattle.model_grammar.specs.SyntaxStatementActions as s;
ghost use Rattle.model_grammar.specs.SyntaxValues.{an_initializer};
ghost use Rattle.c_tree.specs.SyntaxViews.{designators_of, initializer_items_of, initializer_of};
ghost use Rattle.syntax_meanings.specs.Meanings.{meaning_of, symbols_seen};

use c_tree::{Braces, Designator, Initializer, InitializerForm, InitializerItem};
use cake_base::NoMemory;
use sqlite_items::Items;
use std::alloc::Global;
use syntax_meanings::{Meaning, Symbols, name_of};

/// An initializer.
#[tactic(auto, using(crate::proofs::Refusals::of_initializer))]
pub fn initializer<'t>(alloc: Global, symbols: Symbols<'t>) -> Result<Meaning<'t>, NoMemory>
    ensures { IfOk result (λ made. meaning_of made ≡ s.initializer (symbols_seen symbols.entry)) }
{
    let mut symbols = symbols;
    if let Some(value) = symbols.expr() {
        if symbols.is_empty() {
            return of_form(alloc, InitializerForm::Expr(value));
        }
        return Ok(Meaning::Nothing);
    }
    let Some(values) = symbols.braces() else {
        return Ok(Meaning::Nothing);
    };
    if !symbols.is_empty() {
        return Ok(Meaning::Nothing);
    }
    of_form(alloc, InitializerForm::Braces(values))
}

/// The initializer of this form.
fn of_form<'t>(alloc: Global, form: InitializerForm) -> Result<Meaning<'t>, NoMemory>
    ensures { IfOk result (λ made. meaning_of made ≡ an_initializer (initializer_of form)) }
{
    let initializer = Initializer::new(alloc, form)?;
    Ok(Meaning::Initializer(initializer))
}

/// Initializers in braces.
#[tactic(auto, using(crate::proofs::Refusals::of_braces))]
pub fn braces<'t>(alloc: Global, symbols: Symbols<'t>) -> Result<Meaning<'t>, NoMemory>
    ensures { IfOk result (λ made. meaning_of made ≡ s.braces (symbols_seen symbols.entry)) }
{
    let mut symbols = symbols;
    let Some(opening) = symbols.token() else {
        return Ok(Meaning::Nothing);
    };
    let items = items_in(alloc, symbols)?;
    Ok(Meaning::Braces(Braces {
        items,
        place: opening.token.place,
    }))
}

/// The initializers with their designators among the symbols.
#[tactic(auto, using(crate::proofs::InitializerLists::one_more_item, crate::proofs::InitializerLists::no_more_items))]
fn items_in(alloc: Global, symbols: Symbols<'_>) -> Result<Items<InitializerItem>, NoMemory>
    ensures { IfOk result (λ items. initializer_items_of items ≡ s.items_in (symbols_seen symbols.entry)) }
{
    let mut symbols = symbols;
    let mut items = Items::new(alloc);
    while let Some(symbol) = symbols.next() {
        match symbol {
            Meaning::Item(item) => items.push(item)?,
            other => drop(other),
        }
    }
    Ok(items)
}

/// An initializer with its designators.
#[tactic(auto, using(crate::proofs::InitializerLists::one_more_designator, crate::proofs::InitializerLists::no_more_designators))]
pub fn item<'t>(alloc: Global, symbols: Symbols<'t>) -> Result<Meaning<'t>, NoMemory>
    ensures { IfOk result (λ made. meaning_of made ≡ s.item (symbols_seen symbols.entry)) }
{
    let mut symbols = symbols;
    let mut designators = Items::new(alloc);
    'designators: loop {
        match symbols.next() {
            Some(Meaning::Designator(designator)) => designators.push(designator)?,
            Some(Meaning::Initializer(value)) => {
                return Ok(Meaning::Item(InitializerItem { designators, value }));
            }
            Some(other) => {
                drop(other);
                return Ok(item_behind(designators, symbols));
            }
            None => return Ok(Meaning::Nothing),
        }
    }
}

/// The first initializer among the symbols, with these designators.
fn item_behind<'t>(designators: Items<Designator>, symbols: Symbols<'t>) -> Meaning<'t>
    ensures { meaning_of result ≡ s.item_behind (designators_of designators) (symbols_seen symbols.entry) }
{
    let mut symbols = symbols;
    while let Some(symbol) = symbols.next() {
        match symbol {
            Meaning::Initializer(value) => {
                return Meaning::Item(InitializerItem { designators, value });
            }
            other => drop(other),
        }
    }
    Meaning::Nothing
}

/// A designator.
#[tactic(auto, using(crate::proofs::Refusals::of_designator))]
pub fn designator<'t>(alloc: Global, symbols: Symbols<'t>) -> Result<Meaning<'t>, NoMemory>
    ensures { IfOk result (λ made. meaning_of made ≡ s.designator (symbols_seen symbols.entry)) }
{
    let mut symbols = symbols;
    let Some(opening) = symbols.token() else {
        return Ok(Meaning::Nothing);
    };
    let place = opening.token.place;
    if let Some(index) = symbols.expr() {
        return Ok(Meaning::Designator(Designator::Element { index, place }));
    }
    let Some(name) = symbols.token() else {
        return Ok(Meaning::Nothing);
    };
    if !symbols.is_empty() {
        return Ok(Meaning::Nothing);
    }
    let member = name_of(alloc, name.token)?;
    Ok(Meaning::Designator(Designator::Member { member, place }))
}
