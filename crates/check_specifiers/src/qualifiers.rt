//! Qualifiers put on a type (ISO/IEC 9899:2024, 6.7.4.1), those of ownership among them.
ghost use Rattle.std.specs.Prelude.{◌≡◌, ◌&&◌, ◌||◌, not, IfOk};
ghost use Rattle.model_core.specs.CoreTypes.{no_quals};
ghost use Rattle.model_checking.specs.FaultsBeside.{fault_at};
ghost use Rattle.model_checking.specs.Qualified as m;

use crate::forms::is_object_pointer;
use c_types::{CType, Quals, TypeForm};
use cake_base::{Fault, NoMemory, Place};
use check_base::fault_at;
use model_grammar::syntax::{Qualifier, QualifierWord};
use std::alloc::Global;

/// `_Owner` or `_Opt` qualifies no pointer to an object, or `_Owner` and `_View` meet.
const MISPLACED_OWNERSHIP: u32 = 29;

const NO_QUALS: Quals = Quals {
    has_const: false,
    has_restrict: false,
    has_owner: false,
    has_view: false,
    has_opt: false,
};

fn with_qualifier(word: QualifierWord, quals: Quals) -> Quals
    ensures { result ≡ m.with_qualifier word quals }
{
    match word {
        QualifierWord::Const => Quals {
            has_const: true,
            ..quals
        },
        QualifierWord::Restrict => Quals {
            has_restrict: true,
            ..quals
        },
        QualifierWord::Owner => Quals {
            has_owner: true,
            ..quals
        },
        QualifierWord::View => Quals {
            has_view: true,
            ..quals
        },
        QualifierWord::Opt => Quals {
            has_opt: true,
            ..quals
        },
    }
}

/// These qualifiers and those of a list.
pub fn with_all(list: &[Qualifier], quals: Quals) -> Quals
    ensures { result ≡ m.with_all list.now quals }
{
    let mut all = quals;
    for qualifier in list {
        all = with_qualifier(qualifier.word, all);
    }
    all
}

/// The type with the qualifiers of a list besides. An array hands them to its elements; a function type has none.
pub fn qualified(alloc: Global, list: &[Qualifier], ty: &CType) -> Result<CType, NoMemory>
    ensures { IfOk result (λ made. made ≡ m.qualified list.now ty.now) }
{
    match ty.form() {
        TypeForm::Array(element, length) => {
            let element = qualified(alloc, list, element)?;
            CType::new(alloc, TypeForm::Array(element, *length), ty.quals())
        }
        TypeForm::Function(..) => ty.copy(alloc),
        TypeForm::Void
        | TypeForm::Integer(_)
        | TypeForm::Enum(..)
        | TypeForm::Pointer(_)
        | TypeForm::Struct(_) => ty.with_quals(alloc, with_all(list, ty.quals())),
    }
}

/// The type with `const` besides; of an array, its elements.
pub fn made_const(alloc: Global, ty: &CType) -> Result<CType, NoMemory>
    ensures { IfOk result (λ made. made ≡ m.made_const ty.now) }
{
    match ty.form() {
        TypeForm::Array(element, length) => {
            let element = made_const(alloc, element)?;
            CType::new(alloc, TypeForm::Array(element, *length), ty.quals())
        }
        TypeForm::Void
        | TypeForm::Integer(_)
        | TypeForm::Enum(..)
        | TypeForm::Pointer(_)
        | TypeForm::Struct(_)
        | TypeForm::Function(..) => {
            ty.with_quals(alloc, with_qualifier(QualifierWord::Const, ty.quals()))
        }
    }
}

fn is_of_ownership(word: QualifierWord) -> bool
    ensures { result ≡ m.is_of_ownership word }
{
    match word {
        QualifierWord::Const => false,
        QualifierWord::Restrict => false,
        QualifierWord::Owner => true,
        QualifierWord::View => true,
        QualifierWord::Opt => true,
    }
}

/// The place of the first qualifier of ownership in a list.
fn ownership_place(list: &[Qualifier]) -> Option<Place>
    ensures { result ≡ m.ownership_place list.now }
{
    for qualifier in list {
        if is_of_ownership(qualifier.word) {
            return Some(qualifier.place);
        }
    }
    None
}

fn do_meet(quals: Quals) -> bool
    ensures { result ≡ m.do_meet quals }
{
    quals.has_owner && quals.has_view
}

fn wants_pointer(quals: Quals) -> bool
    ensures { result ≡ m.wants_pointer quals }
{
    quals.has_owner || quals.has_opt
}

/// Whether a list has `_Owner` or `_Opt`, which qualify pointers to objects alone.
pub(crate) fn wants_pointer_alone(list: &[Qualifier]) -> bool
    ensures { result ≡ m.wants_pointer (m.with_all list.now no_quals) }
{
    wants_pointer(with_all(list, NO_QUALS))
}

/// C29 at the first qualifier of ownership in a list.
pub(crate) fn misplaced_alone(list: &[Qualifier]) -> Option<Fault>
    ensures { result ≡ fault_at (m.ownership_place list.now) 29 }
{
    fault_at(ownership_place(list), MISPLACED_OWNERSHIP)
}

/// Whether the qualifiers can't qualify a type that is no array and has others already.
fn cannot_qualify(list: &[Qualifier], quals: Quals, is_pointer: bool) -> bool
    ensures { result ≡ (m.wants_pointer (m.with_all list.now no_quals) && not is_pointer || m.do_meet (m.with_all list.now quals)) }
{
    let alone = with_all(list, NO_QUALS);
    wants_pointer(alone) && !is_pointer || do_meet(with_all(list, quals))
}

/// Whether the qualifiers can't qualify the type.
#[tactic(auto, using(crate::proofs::OwnershipLaws::no_array_misplaced))]
fn is_misplaced(list: &[Qualifier], ty: &CType) -> bool
    ensures { result ≡ m.is_misplaced list.now ty.now }
{
    match ty.form() {
        TypeForm::Array(element, _) => is_misplaced(list, element),
        TypeForm::Void
        | TypeForm::Integer(_)
        | TypeForm::Enum(..)
        | TypeForm::Pointer(_)
        | TypeForm::Struct(_)
        | TypeForm::Function(..) => cannot_qualify(list, ty.quals(), is_object_pointer(ty)),
    }
}

/// C29 at the first qualifier of ownership in the list, where the type can't have its qualifiers: `_Owner` and `_Opt`
/// qualify pointers to objects alone, and `_Owner` doesn't meet `_View`.
pub fn qualifier_fault(list: &[Qualifier], ty: &CType) -> Option<Fault>
    ensures { result ≡ m.qualifier_fault list.now ty.now }
{
    if is_misplaced(list, ty) {
        misplaced_alone(list)
    } else {
        None
    }
}

/// C29 by the words of the list alone, whatever it qualifies.
pub fn meeting_fault(list: &[Qualifier]) -> Option<Fault>
    ensures { result ≡ m.meeting_fault list.now }
{
    if do_meet(with_all(list, NO_QUALS)) {
        misplaced_alone(list)
    } else {
        None
    }
}
