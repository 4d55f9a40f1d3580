//! Declarators and type names (ISO/IEC 9899:2024, 6.7.7, 6.7.8).
ghost use Rattle.std.specs.Prelude.{◌≡◌, ◌∷◌, [], IfOk};
ghost use Rattle.model_grammar.specs.SyntaxDeclarationActions as d;
ghost use Rattle.model_grammar.specs.SyntaxForms as m;
ghost use Rattle.model_grammar.specs.SyntaxValues.{a_declarator, spelled};
ghost use Rattle.c_tree.specs.SyntaxTrees.{declarator_tree};
ghost use Rattle.c_tree.specs.SyntaxViews.{suffixes_of};
ghost use Rattle.syntax_meanings.specs.Meanings.{meaning_of, symbols_seen};

use crate::pointers::starred;
use c_tokens::CTok;
use c_tree::{Declarator, DeclaratorForm, Suffix, TypeName, TypeNameForm};
use cake_base::NoMemory;
use sqlite_items::Items;
use std::alloc::Global;
use syntax_meanings::{Meaning, Symbols, name_of};

/// A declarator with the `*` before it.
pub fn declarator<'t>(alloc: Global, symbols: Symbols<'t>) -> Result<Meaning<'t>, NoMemory>
    ensures { IfOk result (λ made. meaning_of made ≡ d.declarator (symbols_seen symbols.entry)) }
{
    let form = starred(alloc, symbols)?;
    Ok(Meaning::Declarator(form))
}

/// The suffixes that the symbols begin with.
#[tactic(auto, using(crate::proofs::SuffixLists::before_last, crate::proofs::SuffixLists::before_none))]
fn suffixes<'t>(alloc: Global, symbols: Symbols<'t>) -> Result<Items<Suffix>, NoMemory>
    ensures { IfOk result (λ made. suffixes_of made ≡ d.suffixes_in (symbols_seen symbols.entry)) }
{
    let mut symbols = symbols;
    let mut suffixes = Items::new(alloc);
    while let Some(symbol) = symbols.next() {
        match symbol {
            Meaning::Suffix(suffix) => suffixes.push(suffix)?,
            other => {
                drop(other);
                return Ok(suffixes);
            }
        }
    }
    Ok(suffixes)
}

/// A declarator of the name that the token is.
fn named<'t>(alloc: Global, token: &CTok, symbols: Symbols<'t>) -> Result<Meaning<'t>, NoMemory>
    ensures { IfOk result (λ made. meaning_of made ≡ a_declarator (m.Named [] (spelled token.now.kind token.now.place) (d.suffixes_in (symbols_seen symbols.entry)))) }
{
    let name = name_of(alloc, token)?;
    let suffixes = suffixes(alloc, symbols)?;
    Ok(Meaning::Declarator(DeclaratorForm::Named {
        pointers: Items::new(alloc),
        name,
        suffixes,
    }))
}

/// A declarator whose name is missing.
fn unnamed<'t>(alloc: Global, symbols: Symbols<'t>) -> Result<Meaning<'t>, NoMemory>
    ensures { IfOk result (λ made. meaning_of made ≡ a_declarator (m.Unnamed [] (d.suffixes_in (symbols_seen symbols.entry)))) }
{
    let suffixes = suffixes(alloc, symbols)?;
    Ok(Meaning::Declarator(DeclaratorForm::Unnamed {
        pointers: Items::new(alloc),
        suffixes,
    }))
}

/// A declarator without `*`: of a name, or in parentheses, or of neither.
#[tactic(auto, using(crate::proofs::Refusals::of_direct))]
pub fn direct<'t>(alloc: Global, symbols: Symbols<'t>) -> Result<Meaning<'t>, NoMemory>
    ensures { IfOk result (λ made. meaning_of made ≡ d.direct (symbols_seen symbols.entry)) }
{
    let mut symbols = symbols;
    let Some(opening) = symbols.token() else {
        return unnamed(alloc, symbols);
    };
    let Some(form) = symbols.declarator() else {
        return named(alloc, opening.token, symbols);
    };
    let Some(_) = symbols.token() else {
        drop(form);
        symbols.clear();
        return named(alloc, opening.token, symbols);
    };
    let inner = Declarator::new(alloc, form)?;
    let suffixes = suffixes(alloc, symbols)?;
    Ok(Meaning::Declarator(DeclaratorForm::Grouped {
        pointers: Items::new(alloc),
        inner,
        suffixes,
        place: opening.token.place,
    }))
}

/// The first declarator among the symbols; an abstract one of nothing where there is none.
pub(crate) fn first_declarator<'t>(
    alloc: Global,
    symbols: Symbols<'t>,
) -> Result<Declarator, NoMemory>
    ensures { IfOk result (λ made. declarator_tree made ≡ d.declarator_in (symbols_seen symbols.entry)) }
{
    let mut symbols = symbols;
    while let Some(symbol) = symbols.next() {
        match symbol {
            Meaning::Declarator(form) => {
                let declarator = Declarator::new(alloc, form)?;
                return Ok(declarator);
            }
            other => drop(other),
        }
    }
    let form = DeclaratorForm::Unnamed {
        pointers: Items::new(alloc),
        suffixes: Items::new(alloc),
    };
    Declarator::new(alloc, form)
}

/// A type name (6.7.8).
#[tactic(auto, using(crate::proofs::Refusals::of_type_name))]
pub fn type_name<'t>(alloc: Global, symbols: Symbols<'t>) -> Result<Meaning<'t>, NoMemory>
    ensures { IfOk result (λ made. meaning_of made ≡ d.type_name (symbols_seen symbols.entry)) }
{
    let mut symbols = symbols;
    let Some(specs) = symbols.specs() else {
        return Ok(Meaning::Nothing);
    };
    let declarator = first_declarator(alloc, symbols)?;
    let name = TypeName::new(alloc, TypeNameForm { specs, declarator })?;
    Ok(Meaning::TypeName(name))
}
