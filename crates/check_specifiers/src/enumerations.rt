//! Enumerations and their constants (ISO/IEC 9899:2024, 6.7.3.3), and the types of `typeof` (6.7.3.6).
ghost use Rattle.std.specs.Prelude.{◌≡◌, IfOk};
ghost use Rattle.model_types.specs.Types.{form_of_type};
ghost use Rattle.model_core.specs.CoreTypes as c;
ghost use Rattle.model_checking.specs.Enumerations as m;
ghost use Rattle.model_checking.specs.SpecifierTypes as s;
ghost use Rattle.check_specifiers.specs.EnumerationTypes.{enumeration_of};

use c_types::{Basic, CType, TypeForm, fits};
use cake_base::{Fault, NoMemory, Place};
use check_base::fault_if;
use check_types::{basic_of, plain, unqualified};
use model_grammar::syntax::{Name, TypeofWord};
use std::alloc::Global;

/// The value of an enumerator isn't one of its type.
const ENUMERATOR_RANGE: u32 = 30;

/// The type of an enumeration, and whether it was fixed.
#[derive(Drop)]
pub struct Enumeration {
    pub ty: CType,
    pub is_fixed: bool,
}

/// The type that `typeof` gives of a type, and `typeof_unqual`, which drops the outermost qualifiers.
pub fn typeof_type(alloc: Global, word: TypeofWord, ty: &CType) -> Result<CType, NoMemory>
    ensures { IfOk result (λ made. made ≡ s.typeof_type word ty.now) }
{
    match word {
        TypeofWord::Typeof => ty.copy(alloc),
        TypeofWord::TypeofUnqual => unqualified(alloc, ty),
    }
}

/// The type of an enumeration, which is told apart by the place of its word `enum`: that of int, or the fixed one.
pub fn enum_type(alloc: Global, fixed: Option<Basic>, place: Place) -> Result<CType, NoMemory>
    ensures { IfOk result (λ made. made ≡ m.enum_type fixed place) }
{
    plain(
        alloc,
        TypeForm::Enum(fixed.unwrap_or(Basic::Int), place.order),
    )
}

/// The type of an enumerator: int, or that of its enumeration where that has a fixed type.
pub fn enumerator_type(alloc: Global, enumeration: &Enumeration) -> Result<CType, NoMemory>
    ensures { IfOk result (λ made. made ≡ m.enumerator_type (enumeration_of enumeration.now)) }
{
    if enumeration.is_fixed {
        enumeration.ty.copy(alloc)
    } else {
        plain(alloc, TypeForm::Integer(Basic::Int))
    }
}

/// The integer type of an enumerator.
pub fn enumerator_basic(enumeration: &Enumeration) -> Basic
    ensures { result ≡ c.basic_of (form_of_type (m.enumerator_type (enumeration_of enumeration.now))) }
{
    if enumeration.is_fixed {
        basic_of(&enumeration.ty)
    } else {
        Basic::Int
    }
}

/// C30 at the name of an enumerator, where its value isn't one of its type.
pub fn range_fault(enumeration: &Enumeration, name: &Name, value: i128) -> Option<Fault>
    ensures { result ≡ m.range_fault (enumeration_of enumeration.now) name.now value }
{
    let basic = enumerator_basic(enumeration);
    fault_if(!fits(basic, value), name.place, ENUMERATOR_RANGE)
}
