//! Complete types, sizes, alignments and offsets.
ghost use Rattle.std.specs.Prelude.{◌≡◌, ◌<◌, ◌≤◌, Some, is_some, IfSome, ℕ, List};
ghost use Rattle.std.specs.Option.{option_map, option_copied};
ghost use Rattle.model_types.specs.Types.{form_of_type};
ghost use Rattle.model_types.specs.Layout as m;
ghost use Rattle.c_types.specs.Forms.{form_of};
ghost use Rattle.c_types.specs.Extents as s;
ghost use Rattle.c_types.specs.Tables.{ArePlaced, IsOffset};

use crate::extents::{Extent, SIZE_LIMIT, padded_size};
use crate::member_offsets::Offsets;
use crate::members::{Member, Members};
use crate::structs::Structs;
use crate::types::{CType, TypeForm};
use model_types::numbers::Basic;

/// Whether a type is complete: false exactly for void, functions, structures without members yet,
/// arrays without length and arrays of these (ISO/IEC 9899:2024, 6.2.5).
pub fn is_complete(structs: &Structs, t: &CType) -> bool
    ensures complete { result ≡ m.is_complete structs.now t.now }
    ensures laid { result ≡ is_some (m.layout_of structs.now t.now) }
{
    match t.form() {
        TypeForm::Void => false,
        TypeForm::Integer(_) => true,
        TypeForm::Enum(..) => true,
        TypeForm::Pointer(_) => true,
        TypeForm::Array(_, None) => false,
        TypeForm::Array(of, Some(_)) => is_complete(structs, of),
        TypeForm::Struct(id) => structs.find_members(*id).is_some(),
        TypeForm::Function(..) => false,
    }
}

/// The size of an integer type in bytes.
fn basic_size(basic: Basic) -> u64
    ensures value { result ≡ m.basic_size basic }
{
    match basic {
        Basic::Bool => 1,
        Basic::Char => 1,
        Basic::SignedChar => 1,
        Basic::UnsignedChar => 1,
        Basic::Short => 2,
        Basic::UnsignedShort => 2,
        Basic::Int => 4,
        Basic::Unsigned => 4,
        Basic::Long => 8,
        Basic::UnsignedLong => 8,
        Basic::LongLong => 8,
        Basic::UnsignedLongLong => 8,
    }
}

/// The size, up to the limit, and the alignment of a type; none where it is incomplete.
fn type_extent(structs: &Structs, t: &CType) -> Option<Extent>
    ensures extent { result ≡ option_map s.kept (m.layout_of structs.now t.now) }
    ensures bounded { IfSome result s.IsBounded }
{
    match t.form() {
        TypeForm::Void => None,
        TypeForm::Integer(basic) => Some(Extent::scalar(basic_size(*basic))),
        TypeForm::Enum(basic, _) => Some(Extent::scalar(basic_size(*basic))),
        TypeForm::Pointer(_) => Some(Extent::scalar(8)),
        TypeForm::Array(_, None) => None,
        TypeForm::Array(of, Some(count)) => match type_extent(structs, of) {
            Some(extent) => Some(extent.repeated(*count)),
            None => None,
        },
        TypeForm::Struct(id) => structs.extent(*id),
        TypeForm::Function(..) => None,
    }
}

/// Members in a row, with their offsets, where there is room for them; none where one is incomplete.
fn row_extent(structs: &Structs, members: &[Member], offsets: &mut Offsets) -> Option<Extent>
    ensures row { result ≡ option_map (s.more_behind s.no_member) (m.member_layouts (m.layout_of structs.now) members.now) }
    ensures bounded { IfSome result s.IsBounded }
    ensures placed { IfSome result (λ _. ArePlaced (m.layout_of structs.now) members.now offsets.new) }
{
    let mut row = Extent::no_member();
    let mut at = 0;
    for member in members {
        match type_extent(structs, member.ty()) {
            Some(extent) => {
                offsets.keep(at, padded_size(row.size, extent.align));
                row = row.followed_by(extent);
            }
            None => return None,
        }
        at += 1;
    }
    Some(row)
}

/// A structure of these members, with their offsets, where there is room for them; none where one is
/// incomplete.
pub fn structure_extent(
    structs: &Structs,
    members: &[Member],
    offsets: &mut Offsets,
) -> Option<Extent>
    ensures whole { result ≡ option_map s.kept (m.layout_of_members (m.layout_of structs.now) (Some members.now)) }
    ensures placed { IfSome result (λ _. ArePlaced (m.layout_of structs.now) members.now offsets.new) }
{
    match row_extent(structs, members, offsets) {
        Some(row) => Some(row.padded()),
        None => None,
    }
}

/// The size of a type in bytes; none exactly where the type is incomplete or its size passes
/// 1,073,741,824 bytes (6.5.4.5).
pub fn size_of(structs: &Structs, t: &CType) -> Option<u64>
    ensures { result ≡ m.size_of structs.now t.now }
{
    match type_extent(structs, t) {
        Some(extent) => within_limit(extent.size),
        None => None,
    }
}

/// A size that was kept, where it doesn't pass the limit.
fn within_limit(size: u64) -> Option<u64>
    ensures { (n : ℕ) → size ≡ s.limited n → result ≡ m.within_limit n }
{
    if size <= SIZE_LIMIT { Some(size) } else { None }
}

/// The alignment of a type in bytes; none exactly where the type is incomplete (6.2.8).
pub fn align_of(structs: &Structs, t: &CType) -> Option<u64>
    ensures { result ≡ m.align_of structs.now t.now }
{
    match type_extent(structs, t) {
        Some(extent) => Some(extent.align),
        None => None,
    }
}

/// The offset of a member in bytes; none exactly where the type has no size by `size_of` or there
/// is no such member (6.7.3.2).
pub fn member_offset(structs: &Structs, t: &CType, member: u32) -> Option<u64>
    ensures { result ≡ m.member_offset structs.now t.now member }
{
    match size_of(structs, t) {
        Some(_) => match members_of_type(structs, t) {
            Some(members) => offset_among(structs, t, members, member as usize),
            None => None,
        },
        None => None,
    }
}

/// The offset that is kept for the member of a rank of a type, where it is a complete structure.
fn kept_offset(structs: &Structs, t: &CType, at: usize) -> Option<u64>
    ensures { IsOffset structs.now (m.members_of_form structs.now (form_of_type t.now)) at result }
{
    match t.form() {
        TypeForm::Struct(id) => structs.kept_offset(*id, at),
        TypeForm::Void => None,
        TypeForm::Integer(_) => None,
        TypeForm::Enum(..) => None,
        TypeForm::Pointer(_) => None,
        TypeForm::Array(..) => None,
        TypeForm::Function(..) => None,
    }
}

/// The offset of the member of a rank of a type whose size is within the limit.
fn offset_among(structs: &Structs, t: &CType, members: &Members, at: usize) -> Option<u64>
    requires { Some members.now ≡ m.members_of_form structs.now (form_of_type t.now) }
    ensures { (ls : List m.Layout) → m.member_layouts (m.layout_of structs.now) members.now ≡ Some ls → (m.in_a_row ls).size ≤ m.size_limit → result ≡ m.offset_in ls at }
{
    match kept_offset(structs, t, at) {
        Some(offset) => Some(offset),
        None => offset_in_row(structs, members.as_slice(), at),
    }
}

/// The members of a type, where it is a complete structure.
fn members_of_type<'a>(structs: &'a Structs, t: &CType) -> Option<&'a Members>
    ensures { option_copied result ≡ m.members_of_form structs.now (form_of_type t.now) }
{
    match t.form() {
        TypeForm::Struct(id) => structs.find_members(*id),
        TypeForm::Void => None,
        TypeForm::Integer(_) => None,
        TypeForm::Enum(..) => None,
        TypeForm::Pointer(_) => None,
        TypeForm::Array(..) => None,
        TypeForm::Function(..) => None,
    }
}

/// Members in a row, whose offsets aren't kept.
fn row_before(structs: &Structs, members: &[Member]) -> Option<Extent>
    ensures row { result ≡ option_map (s.more_behind s.no_member) (m.member_layouts (m.layout_of structs.now) members.now) }
    ensures bounded { IfSome result s.IsBounded }
{
    let mut none = Offsets::new(structs.allocator());
    row_extent(structs, members, &mut none)
}

/// The offset of the member of a rank in a row whose size is within the limit, by the members before it.
fn offset_in_row(structs: &Structs, members: &[Member], at: usize) -> Option<u64>
    ensures { (ls : List m.Layout) → m.member_layouts (m.layout_of structs.now) members.now ≡ Some ls → (m.in_a_row ls).size ≤ m.size_limit → result ≡ m.offset_in ls at }
{
    if at >= members.len() {
        return None;
    }
    let (before, _) = members.split_at(at);
    match row_before(structs, before) {
        Some(row) => match type_extent(structs, members[at].ty()) {
            Some(extent) => Some(padded_size(row.size, extent.align)),
            None => None,
        },
        None => None,
    }
}
