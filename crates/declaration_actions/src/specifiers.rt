//! Specifiers (ISO/IEC 9899:2024, 6.7.1 to 6.7.5).
ghost use Rattle.std.specs.Prelude.{◌≡◌, IfOk};
ghost use Rattle.model_grammar.specs.SyntaxDeclarationActions as d;
ghost use Rattle.model_grammar.specs.SyntaxForms as m;
ghost use Rattle.model_grammar.specs.SyntaxValues.{some_specs};
ghost use Rattle.c_tree.specs.SyntaxViews.{spec_of, specs_items};
ghost use Rattle.syntax_meanings.specs.Meanings.{meaning_of, symbols_seen};

use crate::words::{function_word, qualifier_word, storage_word, type_word, typeof_word};
use c_tokens::{CKind, CTok};
use c_tree::{Spec, Specs, SpecsForm};
use cake_base::NoMemory;
use model_grammar::syntax::Qualifier;
use sqlite_items::Items;
use std::alloc::Global;
use syntax_meanings::{Meaning, Symbols, name_of};

/// Specifiers and qualifiers.
pub fn specs<'t>(alloc: Global, symbols: Symbols<'t>) -> Result<Meaning<'t>, NoMemory>
    ensures { IfOk result (λ made. meaning_of made ≡ some_specs (d.specs_in (symbols_seen symbols.entry))) }
{
    let specs = specs_in(alloc, symbols)?;
    Ok(Meaning::Specs(Specs::new(alloc, SpecsForm { specs })?))
}

/// The specifiers and qualifiers that the symbols begin with.
#[tactic(auto, using(crate::proofs::SpecLists::before_last, crate::proofs::SpecLists::before_none))]
fn specs_in(alloc: Global, symbols: Symbols<'_>) -> Result<Items<Spec>, NoMemory>
    ensures { IfOk result (λ specs. specs_items specs ≡ d.specs_in (symbols_seen symbols.entry)) }
{
    let mut symbols = symbols;
    let mut specs = Items::new(alloc);
    'specs: loop {
        match symbols.next() {
            Some(Meaning::Spec(spec)) => specs.push(spec)?,
            Some(Meaning::Qualifier(qualifier)) => specs.push(Spec::Qualifier(qualifier))?,
            Some(other) => {
                drop(other);
                return Ok(specs);
            }
            None => return Ok(specs),
        }
    }
}

/// A specifier.
#[tactic(auto, using(crate::proofs::Refusals::of_one_spec))]
pub fn one_spec<'t>(symbols: Symbols<'t>) -> Meaning<'t>
    ensures { meaning_of result ≡ d.one_spec (symbols_seen symbols.entry) }
{
    let mut symbols = symbols;
    if let Some(spec) = symbols.spec() {
        if symbols.is_empty() {
            return Meaning::Spec(spec);
        }
        drop(spec);
        return Meaning::Nothing;
    }
    if let Some(qualifier) = symbols.qualifier() {
        if symbols.is_empty() {
            return Meaning::Spec(Spec::Qualifier(qualifier));
        }
        return Meaning::Nothing;
    }
    let Some(word) = symbols.token() else {
        return Meaning::Nothing;
    };
    if !symbols.is_empty() {
        return Meaning::Nothing;
    }
    Meaning::Spec(Spec::Function {
        word: function_word(word.kind),
        place: word.token.place,
    })
}

/// A storage-class specifier.
#[tactic(auto, using(crate::proofs::Refusals::of_storage_spec))]
pub fn storage_spec<'t>(symbols: Symbols<'t>) -> Meaning<'t>
    ensures { meaning_of result ≡ d.storage_spec (symbols_seen symbols.entry) }
{
    let mut symbols = symbols;
    let Some(word) = symbols.token() else {
        return Meaning::Nothing;
    };
    if !symbols.is_empty() {
        return Meaning::Nothing;
    }
    Meaning::Spec(Spec::Storage {
        word: storage_word(word.kind),
        place: word.token.place,
    })
}

/// A type specifier.
#[tactic(auto, using(crate::proofs::Refusals::of_type_spec))]
pub fn type_spec<'t>(alloc: Global, symbols: Symbols<'t>) -> Result<Meaning<'t>, NoMemory>
    ensures { IfOk result (λ made. meaning_of made ≡ d.type_spec (symbols_seen symbols.entry)) }
{
    let mut symbols = symbols;
    if let Some(spec) = symbols.spec() {
        if symbols.is_empty() {
            return Ok(Meaning::Spec(spec));
        }
        drop(spec);
        return Ok(Meaning::Nothing);
    }
    let Some(word) = symbols.token() else {
        return Ok(Meaning::Nothing);
    };
    if !symbols.is_empty() {
        return Ok(Meaning::Nothing);
    }
    let spec = type_token(alloc, word.kind, word.token)?;
    Ok(Meaning::Spec(spec))
}

/// The type specifier that is one token: a keyword, or a typedef name.
fn type_token(alloc: Global, kind: u8, token: &CTok) -> Result<Spec, NoMemory>
    ensures { IfOk result (λ made. spec_of made ≡ d.type_token kind token.now.kind token.now.place) }
{
    match &token.kind {
        CKind::Name(_) => Ok(Spec::TypedefName(name_of(alloc, token)?)),
        CKind::Word(_) => Ok(keyword(kind, token)),
        CKind::Integer(_) => Ok(keyword(kind, token)),
        CKind::Text(_) => Ok(keyword(kind, token)),
        CKind::Punct(_) => Ok(keyword(kind, token)),
    }
}

/// The type specifier that is a keyword.
fn keyword(kind: u8, token: &CTok) -> Spec
    ensures { spec_of result ≡ m.TypeSpec (d.type_word kind) token.now.place }
{
    Spec::Keyword {
        word: type_word(kind),
        place: token.place,
    }
}

/// A qualifier.
#[tactic(auto, using(crate::proofs::Refusals::of_qualified))]
pub fn qualified<'t>(symbols: Symbols<'t>) -> Meaning<'t>
    ensures { meaning_of result ≡ d.qualified (symbols_seen symbols.entry) }
{
    let mut symbols = symbols;
    let Some(word) = symbols.token() else {
        return Meaning::Nothing;
    };
    if !symbols.is_empty() {
        return Meaning::Nothing;
    }
    Meaning::Qualifier(Qualifier {
        word: qualifier_word(word.kind),
        place: word.token.place,
    })
}

/// `typeof` or `typeof_unqual` (6.7.3.6).
#[tactic(auto, using(crate::proofs::Refusals::of_type_of_operand))]
pub fn type_of_operand<'t>(symbols: Symbols<'t>) -> Meaning<'t>
    ensures { meaning_of result ≡ d.type_of_operand (symbols_seen symbols.entry) }
{
    let mut symbols = symbols;
    let Some(word) = symbols.token() else {
        return Meaning::Nothing;
    };
    let Some(_) = symbols.token() else {
        return Meaning::Nothing;
    };
    if let Some(operand) = symbols.expr() {
        let Some(_) = symbols.token() else {
            return Meaning::Nothing;
        };
        if !symbols.is_empty() {
            return Meaning::Nothing;
        }
        return Meaning::Spec(Spec::TypeofExpr {
            word: typeof_word(word.kind),
            operand,
            place: word.token.place,
        });
    }
    let Some(name) = symbols.type_name() else {
        return Meaning::Nothing;
    };
    let Some(_) = symbols.token() else {
        return Meaning::Nothing;
    };
    if !symbols.is_empty() {
        return Meaning::Nothing;
    }
    Meaning::Spec(Spec::TypeofType {
        word: typeof_word(word.kind),
        name,
        place: word.token.place,
    })
}
