//! The members of structures.
ghost use Rattle.std.specs.Prelude.{◌≡◌, IfOk};
ghost use Rattle.std.specs.Option.{option_copied};
ghost use Rattle.model_types.specs.Types as t;
ghost use Rattle.model_types.specs.Types.{form_of_type};
ghost use Rattle.model_types.specs.Structures.{members_of};
ghost use Rattle.model_core.specs.MemberTypes as m;
ghost use Rattle.model_checking.specs.Ways as w;

use c_types::{CType, Member, Members, Quals, StructId, Structs, TypeForm};
use cake_base::NoMemory;
use check_types::plain;
use std::alloc::Global;

fn member_quals(structure: Quals, member: Quals) -> Quals
    ensures { result ≡ m.member_quals structure member }
{
    Quals {
        has_const: structure.has_const || member.has_const,
        has_restrict: structure.has_restrict || member.has_restrict,
        has_owner: member.has_owner && !structure.has_view,
        has_view: structure.has_view || member.has_view,
        has_opt: member.has_opt,
    }
}

/// The type of a member of an object with these qualifiers (ISO/IEC 9899:2024, 6.5.3.4): those of an array are its
/// elements'.
pub fn member_type(alloc: Global, structure: Quals, member: &CType) -> Result<CType, NoMemory>
    ensures { IfOk result (λ made. made ≡ m.member_type structure member.now) }
{
    match member.form() {
        TypeForm::Array(element, count) => {
            let element = member_type(alloc, structure, element)?;
            CType::new(alloc, TypeForm::Array(element, *count), member.quals())
        }
        TypeForm::Void
        | TypeForm::Integer(_)
        | TypeForm::Enum(..)
        | TypeForm::Pointer(_)
        | TypeForm::Struct(_)
        | TypeForm::Function(..) => member.with_quals(
            alloc,
            member_quals(structure, member.quals()),
        ),
    }
}

/// The member of a rank, counted from 0; none where there is none, or the structure is incomplete.
pub(crate) fn member_in(structs: &Structs, id: StructId, rank: u64) -> Option<&Member>
    ensures { option_copied result ≡ m.member_in rank (members_of structs.now id) }
{
    match structs.find_members(id) {
        Some(members) => members.as_slice().get(rank as usize),
        None => None,
    }
}

/// The rank, counted from 0, of the first member of a name.
#[tactic(auto, using(crate::proofs::RankLaws::rank_is_position))]
fn rank_among(name: &[u8], members: &Members) -> Option<u64>
    ensures { result ≡ w.rank_from name.now 0 members.now }
{
    match members.rank(name) {
        Some(rank) => Some(rank as u64),
        None => None,
    }
}

/// The rank, counted from 0, of the member of a name; none where there is none, or the type is no structure.
pub fn member_rank(structs: &Structs, whole: &CType, name: &[u8]) -> Option<u64>
    ensures { result ≡ w.member_rank structs.now (form_of_type whole.now) name.now }
{
    match whole.form() {
        TypeForm::Struct(id) => match structs.find_members(*id) {
            Some(members) => rank_among(name, members),
            None => None,
        },
        TypeForm::Integer(_) => None,
        TypeForm::Enum(..) => None,
        TypeForm::Pointer(_) => None,
        TypeForm::Void => None,
        TypeForm::Array(..) => None,
        TypeForm::Function(..) => None,
    }
}
