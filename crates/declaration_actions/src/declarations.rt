//! Declarations (ISO/IEC 9899:2024, 6.7).
ghost use Rattle.std.specs.Prelude.{◌≡◌, IfOk};
ghost use Rattle.model_grammar.specs.SyntaxDeclarationActions as d;
ghost use Rattle.model_grammar.specs.SyntaxValues.{a_declaration};
ghost use Rattle.c_tree.specs.SyntaxViews.{declaration_of, init_declarators_of};
ghost use Rattle.syntax_meanings.specs.Meanings.{meaning_of, symbols_seen};

use c_tokens::CKind;
use c_tree::{Assertion, Declaration, DeclarationForm, Declarator, InitDeclarator};
use cake_base::{Bytes, NoMemory};
use sqlite_items::Items;
use std::alloc::Global;
use syntax_meanings::{Meaning, Symbols};

/// The declarators among the symbols, with their initializers.
#[tactic(auto, using(crate::proofs::InitDeclaratorLists::before_last, crate::proofs::InitDeclaratorLists::before_none))]
fn init_declarators<'t>(
    alloc: Global,
    symbols: Symbols<'t>,
) -> Result<Items<InitDeclarator>, NoMemory>
    ensures { IfOk result (λ made. init_declarators_of made ≡ d.init_declarators_in (symbols_seen symbols.entry)) }
{
    let mut symbols = symbols;
    let mut declarators = Items::new(alloc);
    while let Some(symbol) = symbols.next() {
        match symbol {
            Meaning::InitDeclarator(declarator) => declarators.push(declarator)?,
            other => drop(other),
        }
    }
    Ok(declarators)
}

/// The declaration of the form.
fn declared<'t>(alloc: Global, form: DeclarationForm) -> Result<Meaning<'t>, NoMemory>
    ensures { IfOk result (λ made. meaning_of made ≡ a_declaration (declaration_of form)) }
{
    let declaration = Declaration::new(alloc, form)?;
    Ok(Meaning::Declaration(declaration))
}

/// A declaration (6.7); of an assertion, or of attributes alone, too.
#[tactic(auto, using(crate::proofs::Refusals::of_declaration))]
pub fn declaration<'t>(alloc: Global, symbols: Symbols<'t>) -> Result<Meaning<'t>, NoMemory>
    ensures { IfOk result (λ made. meaning_of made ≡ d.declaration (symbols_seen symbols.entry)) }
{
    let mut symbols = symbols;
    if let Some(specs) = symbols.specs() {
        let declarators = init_declarators(alloc, symbols)?;
        return declared(alloc, DeclarationForm::Simple { specs, declarators });
    }
    if let Some(assertion) = symbols.assertion() {
        if symbols.is_empty() {
            return declared(alloc, DeclarationForm::Assertion(assertion));
        }
        return Ok(Meaning::Nothing);
    }
    let Some(_) = symbols.token() else {
        return Ok(Meaning::Nothing);
    };
    if !symbols.is_empty() {
        return Ok(Meaning::Nothing);
    }
    declared(alloc, DeclarationForm::Attributes)
}

/// The message of an assertion, where it has one.
#[tactic(auto, using(crate::proofs::Refusals::of_message_in))]
fn message<'t>(alloc: Global, symbols: Symbols<'t>) -> Result<Option<Bytes>, NoMemory>
    ensures { IfOk result (λ made. made ≡ d.message_in (symbols_seen symbols.entry)) }
{
    let mut symbols = symbols;
    let Some(_) = symbols.token() else {
        return Ok(None);
    };
    let Some(text) = symbols.token() else {
        return Ok(None);
    };
    match &text.token.kind {
        CKind::Text(bytes) => {
            let bytes = Bytes::of(alloc, bytes.as_slice())?;
            Ok(Some(bytes))
        }
        _ => Ok(None),
    }
}

/// `static_assert` (6.7.12).
#[tactic(auto, using(crate::proofs::Refusals::of_static_assertion))]
pub fn static_assertion<'t>(alloc: Global, symbols: Symbols<'t>) -> Result<Meaning<'t>, NoMemory>
    ensures { IfOk result (λ made. meaning_of made ≡ d.static_assertion (symbols_seen symbols.entry)) }
{
    let mut symbols = symbols;
    let Some(word) = symbols.token() else {
        return Ok(Meaning::Nothing);
    };
    let Some(_) = symbols.token() else {
        return Ok(Meaning::Nothing);
    };
    let Some(condition) = symbols.expr() else {
        return Ok(Meaning::Nothing);
    };
    let message = message(alloc, symbols)?;
    Ok(Meaning::Assertion(Assertion {
        condition,
        message,
        place: word.token.place,
    }))
}

/// A declarator, with its initializer where it has one (6.7).
#[tactic(auto, using(crate::proofs::Refusals::of_init_declarator))]
pub fn init_declarator<'t>(alloc: Global, symbols: Symbols<'t>) -> Result<Meaning<'t>, NoMemory>
    ensures { IfOk result (λ made. meaning_of made ≡ d.init_declarator (symbols_seen symbols.entry)) }
{
    let mut symbols = symbols;
    let Some(form) = symbols.declarator() else {
        return Ok(Meaning::Nothing);
    };
    let declarator = Declarator::new(alloc, form)?;
    if symbols.is_empty() {
        return Ok(Meaning::InitDeclarator(InitDeclarator {
            declarator,
            initializer: None,
        }));
    }
    let Some(_) = symbols.token() else {
        return Ok(Meaning::Nothing);
    };
    let Some(initializer) = symbols.initializer() else {
        return Ok(Meaning::Nothing);
    };
    if !symbols.is_empty() {
        return Ok(Meaning::Nothing);
    }
    Ok(Meaning::InitDeclarator(InitDeclarator {
        declarator,
        initializer: Some(initializer),
    }))
}
