//! What a declarator gives (ISO/IEC 9899:2024, 6.7.7).
ghost use Rattle.std.specs.Prelude.{◌≡◌, IfOk};
ghost use Rattle.std.specs.Option.{option_copied, option_map};
ghost use Rattle.c_tree.specs.SyntaxTrees.{declarator_tree};
ghost use Rattle.model_checking.specs.State.{State, both};
ghost use Rattle.model_checking.specs.DeclaratorNames as n;
ghost use Rattle.model_checking.specs.DeclaratorTypes as m;
ghost use Rattle.check_specifiers.specs.SpecifiedTypes.{specified_of};
ghost use Rattle.check_specifiers.specs.Typings.{typing_of};
ghost use Rattle.check_declarators.specs.Steps.{derivations_of, steps_of};
ghost use Rattle.check_declarators.specs.DeclaredViews.{declared_of};

use crate::derivations::{Derivation, Steps, own_entries};
use crate::types::steps_typing;
use c_tree::{Declarator, DeclaratorForm};
use c_types::{CType, Structs};
use cake_base::{Bytes, Fault, NoMemory, Place};
use check_specifiers::{Specified, Storage, Typing};
use decl_scope::Entry;
use model_grammar::syntax::Name;
use sqlite_items::Items;
use std::alloc::Global;

/// What a declarator gives: its name, if it has one, with the place; its type, but where it is to be inferred; its first
/// token, or that of the specifiers where it has none; of a function, what is declared in the scope of its parameters; and
/// its first fault. Of a faulty one there is a type of the same form, as far as that is known.
#[derive(Drop)]
pub struct Declared {
    pub name: Option<Bytes>,
    pub place: Place,
    pub ty: Option<CType>,
    pub storage: Storage,
    pub first: Place,
    pub parameters: Items<Entry>,
    pub fault: Option<Fault>,
}

/// The name that a declarator declares; none of an abstract one (6.7.7.1).
pub fn declarator_name(declarator: &Declarator) -> Option<&Name>
    ensures { option_copied result ≡ n.declarator_name (declarator_tree declarator.now) }
{
    match declarator.form() {
        DeclaratorForm::Named { name, .. } => Some(name),
        DeclaratorForm::Unnamed { .. } => None,
        DeclaratorForm::Grouped { inner, .. } => declarator_name(inner),
    }
}

fn place_of(name: Option<&Name>, first: Place) -> Place
    ensures { result ≡ m.place_of (option_copied name.entry) first }
{
    match name {
        Some(name) => name.place,
        None => first,
    }
}

fn text_of(alloc: Global, name: Option<&Name>) -> Result<Option<Bytes>, NoMemory>
    ensures { IfOk result (λ text. text ≡ option_map (λ name. name.text) (option_copied name.entry)) }
{
    match name {
        Some(name) => Ok(Some(Bytes::of(alloc, name.text.as_slice())?)),
        None => Ok(None),
    }
}

/// What specifiers and the steps of a declarator of a name give, with the type that these have.
pub fn declared_by(
    alloc: Global,
    given: &Specified,
    first: Place,
    name: Option<&Name>,
    steps: Items<Derivation>,
    typing: Typing,
) -> Result<Declared, NoMemory>
    ensures { IfOk result (λ made. declared_of made ≡ m.declared_by (specified_of given.now) first (option_copied name.entry) (derivations_of steps) (typing_of typing)) }
{
    let text = text_of(alloc, name)?;
    Ok(Declared {
        name: text,
        place: place_of(name, first),
        ty: typing.ty,
        storage: given.storage,
        first,
        parameters: own_entries(alloc, steps),
        fault: typing.fault,
    })
}

/// What a declarator gives, given its steps; `first` is its first token, or that of the specifiers where it has none. The
/// structures are those from before the steps: what is complete there counts. The faults are those of `derived`, the one of
/// the steps, and C28 at a parameter of type void in them but for the declarator's own.
pub fn declarator(
    alloc: Global,
    structs: &Structs,
    given: &Specified,
    first: Place,
    declarator: &Declarator,
    steps: Steps,
) -> Result<Declared, NoMemory>
    ensures { IfOk result (λ made. (before s : State) → before.scopes.structs ≡ structs.now → m.declarator (specified_of given.now) first (declarator_tree declarator.now) before (both (steps_of steps) s) ≡ both (declared_of made) s) }
{
    let typing = steps_typing(alloc, structs, first, given.ty.as_ref(), &steps)?;
    declared_by(
        alloc,
        given,
        first,
        declarator_name(declarator),
        steps.steps,
        typing,
    )
}
