//! Structures (ISO/IEC 9899:2024, 6.7.3.2).
ghost use Rattle.std.specs.Prelude.{◌≡◌, IfOk};
ghost use Rattle.model_grammar.specs.SyntaxDeclarationActions as d;
ghost use Rattle.model_grammar.specs.SyntaxForms as m;
ghost use Rattle.model_grammar.specs.SyntaxValues.{some_members};
ghost use Rattle.syntax_meanings.specs.Meanings.{meaning_of, symbols_seen};

use c_tree::{Declarator, MemberDeclaration, Spec};
use cake_base::NoMemory;
use sqlite_items::Items;
use std::alloc::Global;
use syntax_meanings::{Meaning, Symbols, name_of};

/// A structure, with its tag and its members where it has them.
#[tactic(auto, using(crate::proofs::Refusals::of_structure))]
pub fn structure<'t>(alloc: Global, symbols: Symbols<'t>) -> Result<Meaning<'t>, NoMemory>
    ensures { IfOk result (λ made. meaning_of made ≡ d.structure (symbols_seen symbols.entry)) }
{
    let mut symbols = symbols;
    let Some(word) = symbols.token() else {
        return Ok(Meaning::Nothing);
    };
    let place = word.token.place;
    if let Some(members) = symbols.members() {
        if symbols.is_empty() {
            return Ok(Meaning::Spec(Spec::Struct {
                tag: None,
                members,
                place,
            }));
        }
        return Ok(Meaning::Nothing);
    }
    let Some(name) = symbols.token() else {
        return Ok(Meaning::Nothing);
    };
    let tag = name_of(alloc, name.token)?;
    if symbols.is_empty() {
        return Ok(Meaning::Spec(Spec::StructTag { tag, place }));
    }
    let Some(members) = symbols.members() else {
        return Ok(Meaning::Nothing);
    };
    if !symbols.is_empty() {
        return Ok(Meaning::Nothing);
    }
    Ok(Meaning::Spec(Spec::Struct {
        tag: Some(tag),
        members,
        place,
    }))
}

/// The members of a structure.
#[tactic(auto, using(crate::proofs::MemberLists::before_last, crate::proofs::MemberLists::before_none))]
pub fn members<'t>(alloc: Global, symbols: Symbols<'t>) -> Result<Meaning<'t>, NoMemory>
    ensures { IfOk result (λ made. meaning_of made ≡ some_members (d.members_in (symbols_seen symbols.entry))) }
{
    let mut symbols = symbols;
    let mut members = Items::new(alloc);
    while let Some(symbol) = symbols.next() {
        match symbol {
            Meaning::Member(member) => members.push(member)?,
            other => drop(other),
        }
    }
    Ok(Meaning::Members(members))
}

/// The declarators among the symbols.
#[tactic(auto, using(crate::proofs::DeclaratorLists::before_last, crate::proofs::DeclaratorLists::before_none))]
fn declarators<'t>(alloc: Global, symbols: Symbols<'t>) -> Result<Items<Declarator>, NoMemory>
    ensures { IfOk result (λ made. m.declarators made ≡ d.declarators_in (symbols_seen symbols.entry)) }
{
    let mut symbols = symbols;
    let mut declarators = Items::new(alloc);
    while let Some(symbol) = symbols.next() {
        match symbol {
            Meaning::Declarator(form) => {
                let declarator = Declarator::new(alloc, form)?;
                declarators.push(declarator)?;
            }
            other => drop(other),
        }
    }
    Ok(declarators)
}

/// A declaration of members, or an assertion.
#[tactic(auto, using(crate::proofs::Refusals::of_member_declaration))]
pub fn member_declaration<'t>(alloc: Global, symbols: Symbols<'t>) -> Result<Meaning<'t>, NoMemory>
    ensures { IfOk result (λ made. meaning_of made ≡ d.member_declaration (symbols_seen symbols.entry)) }
{
    let mut symbols = symbols;
    if let Some(specs) = symbols.specs() {
        let declarators = declarators(alloc, symbols)?;
        return Ok(Meaning::Member(MemberDeclaration::Declarators { specs, declarators }));
    }
    let Some(assertion) = symbols.assertion() else {
        return Ok(Meaning::Nothing);
    };
    if !symbols.is_empty() {
        return Ok(Meaning::Nothing);
    }
    Ok(Meaning::Member(MemberDeclaration::Assertion(assertion)))
}
