//! The steps of a declarator: pointers, arrays and functions (ISO/IEC 9899:2024, 6.7.7.2 to 6.7.7.4).
ghost use Rattle.std.specs.Prelude.{◌≡◌, Some, None, IfOk};
ghost use Rattle.model_types.specs.Types as t;
ghost use Rattle.model_core.specs.CoreTypes as c;
ghost use Rattle.model_core.specs.PossibleTypes as p;
ghost use Rattle.model_checking.specs.DeclaratorTypes as m;
ghost use Rattle.model_checking.specs.Derivations.{an_array, a_faulty_array};
ghost use Rattle.check_specifiers.specs.Typings.{typing_of};

use crate::forms::{is_function, is_value_type};
use crate::qualifiers::{qualified, qualifier_fault};
use c_types::{CType, Structs, TypeForm, TypeList, is_complete, size_of};
use cake_base::{Fault, NoMemory, Place};
use check_base::{constraint, fault_if};
use check_types::{plain, pointer_to};
use model_grammar::syntax::Qualifier;
use std::alloc::Global;

/// The type isn't complete.
const INCOMPLETE: u32 = 22;
/// An array is too large, or has no elements.
const ARRAY_LENGTH: u32 = 25;
/// An element is a function, or a function gives an array or a function.
const FUNCTION_OR_ARRAY: u32 = 28;

/// The type that steps give, where it is known, and the first fault among them.
#[derive(Drop)]
pub struct Typing {
    pub ty: Option<CType>,
    pub fault: Option<Fault>,
}

impl Typing {
    fn known(ty: CType) -> Typing
        ensures { typing_of result ≡ m.typing (Some ty) None }
    {
        Typing {
            ty: Some(ty),
            fault: None,
        }
    }

    fn faulty(fault: Fault) -> Typing
        ensures { typing_of result ≡ m.typing None (Some fault) }
    {
        Typing {
            ty: None,
            fault: Some(fault),
        }
    }
}

/// The pointer to a type with the qualifiers behind its `*`. C29 at the first of ownership among these, where they can't
/// qualify the pointer.
pub fn pointed(alloc: Global, qualifiers: &[Qualifier], ty: &CType) -> Result<Typing, NoMemory>
    ensures { IfOk result (λ made. typing_of made ≡ m.pointed qualifiers.now ty.now) }
{
    let pointer = pointer_to(alloc, ty)?;
    let fault = qualifier_fault(qualifiers, &pointer);
    Ok(Typing {
        ty: Some(qualified(alloc, qualifiers, &pointer)?),
        fault,
    })
}

/// C28 and C22: an element is no function, and complete.
fn element_fault(structs: &Structs, first: Place, element: &CType) -> Option<Fault>
    ensures { result ≡ m.element_fault structs.now first element.now }
{
    if is_function(element) {
        Some(constraint(first, FUNCTION_OR_ARRAY))
    } else {
        fault_if(!is_complete(structs, element), first, INCOMPLETE)
    }
}

/// Whether there may be an array of this length.
fn length_fits(
    alloc: Global,
    structs: &Structs,
    element: &CType,
    length: Option<u64>,
) -> Result<bool, NoMemory>
    ensures { IfOk result (λ fits. fits ≡ p.length_fits structs.now element.now length) }
{
    match length {
        None => Ok(true),
        Some(count) => {
            let element = element.copy(alloc)?;
            let array = plain(alloc, TypeForm::Array(element, Some(count)))?;
            Ok(0 < count && size_of(structs, &array).is_some())
        }
    }
}

/// C28, C22 and, of what may be an element, C25: an array has at least one element, and isn't too large.
fn array_fault(
    alloc: Global,
    structs: &Structs,
    first: Place,
    element: &CType,
    length: Option<u64>,
) -> Result<Option<Fault>, NoMemory>
    ensures { IfOk result (λ fault. fault ≡ m.array_fault structs.now first element.now length) }
{
    match element_fault(structs, first, element) {
        Some(fault) => Ok(Some(fault)),
        None => {
            let fits = length_fits(alloc, structs, element, length)?;
            Ok(fault_if(!fits, first, ARRAY_LENGTH))
        }
    }
}

/// The array of an element, with its length where it has one. At the first token of the declarator: C28 where the element
/// is a function, C22 where it isn't complete, and C25 where the array has no element or is too large.
pub fn array_of(
    alloc: Global,
    structs: &Structs,
    first: Place,
    element: &CType,
    length: Option<u64>,
) -> Result<Typing, NoMemory>
    ensures { IfOk result (λ made. typing_of made ≡ m.step structs.now first (an_array length) element.now) }
{
    match array_fault(alloc, structs, first, element, length)? {
        Some(fault) => Ok(Typing::faulty(fault)),
        None => {
            let element = element.copy(alloc)?;
            Ok(Typing::known(plain(alloc, TypeForm::Array(element, length))?))
        }
    }
}

/// The array of an element whose length is faulty: one of no elements, by which nothing is too large. C28 and C22 as of
/// another array.
pub fn faulty_array_of(
    alloc: Global,
    structs: &Structs,
    first: Place,
    element: &CType,
) -> Result<Typing, NoMemory>
    ensures { IfOk result (λ made. typing_of made ≡ m.step structs.now first a_faulty_array element.now) }
{
    match element_fault(structs, first, element) {
        Some(fault) => Ok(Typing::faulty(fault)),
        None => {
            let element = element.copy(alloc)?;
            Ok(Typing::known(plain(alloc, TypeForm::Array(element, Some(0)))?))
        }
    }
}

/// The function with these parameters that gives a result. C28 at the first token of the declarator, where the result is
/// an array or a function.
pub fn function_of(
    alloc: Global,
    first: Place,
    ty: &CType,
    parameters: TypeList,
    is_variadic: bool,
) -> Result<Typing, NoMemory>
    ensures { IfOk result (λ made. typing_of made ≡ m.typed_unless (m.result_fault first ty.now) (c.plain (t.Function ty.now (t.types parameters) is_variadic))) }
{
    if is_value_type(ty) {
        let form = TypeForm::Function(ty.copy(alloc)?, parameters, is_variadic);
        Ok(Typing::known(plain(alloc, form)?))
    } else {
        drop(parameters);
        Ok(Typing::faulty(constraint(first, FUNCTION_OR_ARRAY)))
    }
}
