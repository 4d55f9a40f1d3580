//! The `*` of declarators (ISO/IEC 9899:2024, 6.7.7.2).
ghost use Rattle.std.specs.Prelude.{◌≡◌, ◌≤◌, [], length, IfOk};
ghost use Rattle.model_grammar.specs.SyntaxDeclarationActions as d;
ghost use Rattle.model_grammar.specs.SyntaxForms as m;
ghost use Rattle.c_tree.specs.SyntaxViews.{declarator_of};
ghost use Rattle.declarator_actions.specs.Found.{found_or};
ghost use Rattle.syntax_meanings.specs.Meanings.{symbols_seen};

use c_tree::DeclaratorForm;
use cake_base::NoMemory;
use model_grammar::syntax::{Pointer, Qualifier};
use sqlite_items::Items;
use std::alloc::Global;
use syntax_meanings::{Meaning, Symbols};

/// The first declarator among the symbols with the `*` among them; an abstract one where there is none.
#[tactic(auto, using(crate::proofs::PointerLists::last_pointer, crate::proofs::PointerLists::no_pointer))]
pub(crate) fn starred(alloc: Global, symbols: Symbols<'_>) -> Result<DeclaratorForm, NoMemory>
    ensures { IfOk result (λ made. declarator_of made ≡ d.pointed (d.pointers_in (symbols_seen symbols.entry)) (d.declarator_in (symbols_seen symbols.entry))) }
{
    let mut symbols = symbols;
    let mut pointers = Items::new(alloc);
    let mut inner = None;
    while let Some(symbol) = symbols.next() {
        match symbol {
            Meaning::Token { token, .. } => {
                let qualifiers = qualifiers(alloc, &mut symbols)?;
                let star = token.place;
                pointers.push(Pointer { star, qualifiers })?;
            }
            Meaning::Declarator(form) => inner = Some(first_of(inner, form)),
            other => drop(other),
        }
    }
    pointed(pointers, found_or_empty(alloc, inner))
}

/// The declarator that is found, or else this one.
fn first_of(found: Option<DeclaratorForm>, form: DeclaratorForm) -> DeclaratorForm
    ensures { declarator_of result ≡ found_or found (declarator_of form) }
{
    match found {
        Some(found) => found,
        None => form,
    }
}

/// The declarator that is found, or else an abstract one of nothing.
fn found_or_empty(alloc: Global, found: Option<DeclaratorForm>) -> DeclaratorForm
    ensures { declarator_of result ≡ found_or found (m.Unnamed [] m.no_suffixes) }
{
    match found {
        Some(found) => found,
        None => DeclaratorForm::Unnamed {
            pointers: Items::new(alloc),
            suffixes: Items::new(alloc),
        },
    }
}

/// Takes the qualifiers that the symbols begin with.
#[tactic(auto, using(crate::proofs::PointerLists::last_qualifier, crate::proofs::PointerLists::no_qualifier, crate::proofs::Refusals::of_qualifiers_in))]
fn qualifiers(alloc: Global, symbols: &mut Symbols<'_>) -> Result<Items<Qualifier>, NoMemory>
    ensures value { IfOk result (λ made. made ≡ d.qualifiers_in (symbols_seen symbols.old)) }
    ensures pointers { IfOk result (λ made. d.pointers_in (symbols_seen symbols.new) ≡ d.pointers_in (symbols_seen symbols.old)) }
    ensures declarator { IfOk result (λ made. d.declarator_in (symbols_seen symbols.new) ≡ d.declarator_in (symbols_seen symbols.old)) }
    ensures shorter { IfOk result (λ made. length (symbols_seen symbols.new) ≤ length (symbols_seen symbols.old)) }
{
    let mut qualifiers = Items::new(alloc);
    while let Some(qualifier) = symbols.qualifier() {
        qualifiers.push(qualifier)?;
    }
    Ok(qualifiers)
}

/// The declarator with `*` before its own.
fn pointed(pointers: Items<Pointer>, form: DeclaratorForm) -> Result<DeclaratorForm, NoMemory>
    ensures { IfOk result (λ made. declarator_of made ≡ d.pointed pointers (declarator_of form)) }
{
    let mut pointers = pointers;
    match form {
        DeclaratorForm::Named {
            pointers: inner,
            name,
            suffixes,
        } => {
            pointers.append(inner)?;
            Ok(DeclaratorForm::Named {
                pointers,
                name,
                suffixes,
            })
        }
        DeclaratorForm::Unnamed {
            pointers: inner,
            suffixes,
        } => {
            pointers.append(inner)?;
            Ok(DeclaratorForm::Unnamed { pointers, suffixes })
        }
        DeclaratorForm::Grouped {
            pointers: own,
            inner,
            suffixes,
            place,
        } => {
            pointers.append(own)?;
            Ok(DeclaratorForm::Grouped {
                pointers,
                inner,
                suffixes,
                place,
            })
        }
    }
}
