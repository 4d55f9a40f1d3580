//! The type of a declarator (ISO/IEC 9899:2024, 6.7.7.2 to 6.7.7.4): its steps, the last one first, from the type of the
//! specifiers.
ghost use Rattle.std.specs.Prelude.{◌≡◌, IfOk};
ghost use Rattle.std.specs.Option.{option_copied};
ghost use Rattle.model_types.specs.Types as t;
ghost use Rattle.model_core.specs.CoreTypes as c;
ghost use Rattle.model_checking.specs.DeclaratorTypes as m;
ghost use Rattle.check_specifiers.specs.Typings.{typing_of};
ghost use Rattle.check_declarators.specs.Steps.{derivation_of, derivations_of, steps_of};

use crate::derivations::{Derivation, Parameters, Steps};
use crate::parameters::inner_void_faults;
use c_types::{CType, Structs, TypeList};
use cake_base::{Fault, NoMemory, Place};
use check_base::first_of_faults;
use check_specifiers::{Typing, array_of, faulty_array_of, function_of, meeting_fault, pointed};
use std::alloc::Global;

/// An equal list of types.
#[tactic(auto, using(crate::proofs::StepLaws::types_from))]
fn types_copied(alloc: Global, types: &[CType]) -> Result<TypeList, NoMemory>
    ensures { IfOk result (λ made. made ≡ types.now) }
{
    let mut made = TypeList::new(alloc);
    for ty in types {
        made.push(ty.copy(alloc)?)?;
    }
    Ok(made)
}

fn type_copied(alloc: Global, ty: Option<&CType>) -> Result<Option<CType>, NoMemory>
    ensures { IfOk result (λ made. made ≡ option_copied ty.entry) }
{
    match ty {
        Some(ty) => Ok(Some(ty.copy(alloc)?)),
        None => Ok(None),
    }
}

/// The function with these parameters that gives a type.
fn function_with(
    alloc: Global,
    first: Place,
    parameters: &Parameters,
    ty: &CType,
) -> Result<Typing, NoMemory>
    ensures { IfOk result (λ made. typing_of made ≡ m.typed_unless (m.result_fault first ty.now) (c.plain (t.Function ty.now (t.types parameters.now.types) parameters.now.is_variadic))) }
{
    let types = types_copied(alloc, parameters.types.as_slice())?;
    function_of(alloc, first, ty, types, parameters.is_variadic)
}

/// What a step makes of a type.
fn step(
    alloc: Global,
    structs: &Structs,
    first: Place,
    derivation: &Derivation,
    ty: &CType,
) -> Result<Typing, NoMemory>
    ensures { IfOk result (λ made. typing_of made ≡ m.step structs.now first (derivation_of derivation.now) ty.now) }
{
    match derivation {
        Derivation::Pointer { qualifiers } => pointed(alloc, qualifiers.as_slice(), ty),
        Derivation::Array { length } => array_of(alloc, structs, first, ty, *length),
        Derivation::Function { parameters } => function_with(alloc, first, parameters, ty),
        Derivation::FaultyArray => faulty_array_of(alloc, structs, first, ty),
        Derivation::FaultyFunction { parameters, .. } => {
            function_with(alloc, first, parameters, ty)
        }
    }
}

/// What a step breaks where the type before it isn't known.
fn unknown_fault(derivation: &Derivation) -> Option<Fault>
    ensures { m.typing None result ≡ m.step_from_unknown (derivation_of derivation.now) }
{
    match derivation {
        Derivation::Pointer { qualifiers } => meeting_fault(qualifiers.as_slice()),
        Derivation::Array { .. } => None,
        Derivation::Function { .. } => None,
        Derivation::FaultyArray => None,
        Derivation::FaultyFunction { .. } => None,
    }
}

/// What a step makes of a type, where it is known.
fn step_from(
    alloc: Global,
    structs: &Structs,
    first: Place,
    derivation: &Derivation,
    ty: Option<&CType>,
) -> Result<Typing, NoMemory>
    ensures { IfOk result (λ made. typing_of made ≡ m.step_from structs.now first (derivation_of derivation.now) (option_copied ty.entry)) }
{
    match ty {
        Some(ty) => step(alloc, structs, first, derivation, ty),
        None => Ok(Typing {
            ty: None,
            fault: unknown_fault(derivation),
        }),
    }
}

/// A typing beside an earlier fault: of the faults the first.
fn beside(earlier: Option<Fault>, typing: Typing) -> Typing
    ensures { typing_of result ≡ m.beside earlier (typing_of typing) }
{
    Typing {
        ty: typing.ty,
        fault: first_of_faults(earlier, typing.fault),
    }
}

/// What one more step makes of what the steps behind it gave.
fn further(
    alloc: Global,
    structs: &Structs,
    first: Place,
    derivation: &Derivation,
    typing: Typing,
) -> Result<Typing, NoMemory>
    ensures { IfOk result (λ made. typing_of made ≡ m.beside typing.fault (m.step_from structs.now first (derivation_of derivation.now) typing.ty)) }
{
    let made = step_from(alloc, structs, first, derivation, typing.ty.as_ref())?;
    Ok(beside(typing.fault, made))
}

/// The type that steps give from another, where it is known, and their first fault; `first` is the first token of the
/// declarator. C22, C25 and C28 there, and C29 at a qualifier behind a `*`.
#[tactic(auto, using(crate::proofs::StepLaws::derived_from))]
pub fn derived(
    alloc: Global,
    structs: &Structs,
    first: Place,
    base: Option<&CType>,
    steps: &[Derivation],
) -> Result<Typing, NoMemory>
    ensures { IfOk result (λ made. typing_of made ≡ m.derived structs.now first (option_copied base.entry) (derivations_of steps.now)) }
{
    let mut typing = Typing {
        ty: type_copied(alloc, base)?,
        fault: None,
    };
    for at in (0..steps.len()).rev() {
        typing = further(alloc, structs, first, &steps[at], typing)?;
    }
    Ok(typing)
}

/// The same beside the fault of the steps themselves, and C28 at a parameter of type void in them but for the declarator's
/// own.
pub fn steps_typing(
    alloc: Global,
    structs: &Structs,
    first: Place,
    base: Option<&CType>,
    steps: &Steps,
) -> Result<Typing, NoMemory>
    ensures { IfOk result (λ made. typing_of made ≡ m.steps_typing structs.now first (option_copied base.entry) (steps_of steps.now)) }
{
    let fault = first_of_faults(steps.fault, inner_void_faults(steps.steps.as_slice()));
    let typing = derived(alloc, structs, first, base, steps.steps.as_slice())?;
    Ok(beside(fault, typing))
}
