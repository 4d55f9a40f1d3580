//! Types of which an object isn't assigned to (ISO/IEC 9899:2024, 6.3.3.1).
ghost use Rattle.std.specs.Prelude.{◌≡◌, ◌+◌, ◌<◌, is_some, Bool, if◌then◌else◌};
ghost use Rattle.std.specs.List.{list_any};
ghost use Rattle.model_types.specs.Structures.{members_of};
ghost use Rattle.model_types.specs.Layout as l;
ghost use Rattle.model_core.specs.MemberTypes as t;
ghost use Rattle.model_types.specs.declared.types.StructId.{StructId};
ghost use Rattle.check_operators.specs.Constness as s;

use c_types::{CType, Member, StructId, Structs, TypeForm};

/// What of a type shows whether it is `const` somewhere.
pub enum Constness {
    /// It is `const`, or has elements that are.
    Const,
    /// It is a structure, or has structures as elements.
    OfStructure(StructId),
    Variable,
}

fn own_constness(ty: &CType) -> Constness
    ensures { (of_struct : StructId → Bool) → s.is_const of_struct result ≡ t.holds_const of_struct ty.now }
{
    if ty.quals().has_const {
        return Constness::Const;
    }
    match ty.form() {
        TypeForm::Array(element, _) => own_constness(element),
        TypeForm::Struct(id) => Constness::OfStructure(*id),
        TypeForm::Void => Constness::Variable,
        TypeForm::Integer(_) => Constness::Variable,
        TypeForm::Enum(..) => Constness::Variable,
        TypeForm::Pointer(_) => Constness::Variable,
        TypeForm::Function(..) => Constness::Variable,
    }
}

/// Whether a structure has a `const` member, where structures lie in one another at most this deep.
#[cycle(structures)]
fn structure_is_const(structs: &Structs, depth: u32, id: StructId) -> bool
    ensures { result ≡ t.struct_holds_const depth structs.now id }
{
    if depth == 0 {
        return false;
    }
    match structs.find_members(id) {
        Some(members) => members_are_const(structs, depth - 1, members.as_slice()),
        None => false,
    }
}

#[cycle(structures)]
fn members_are_const(structs: &Structs, depth: u32, members: &[Member]) -> bool
    ensures { result ≡ list_any (λ e. t.holds_const (t.struct_holds_const depth structs.now) e.ty) members.now }
{
    for member in members {
        if type_is_const(structs, depth, member.ty()) {
            return true;
        }
    }
    false
}

#[cycle(structures)]
fn type_is_const(structs: &Structs, depth: u32, ty: &CType) -> bool
    ensures { result ≡ t.holds_const (t.struct_holds_const depth structs.now) ty.now }
{
    match own_constness(ty) {
        Constness::Const => true,
        Constness::OfStructure(id) => structure_is_const(structs, depth, id),
        Constness::Variable => false,
    }
}

/// A count, with one more where a structure is complete.
fn counted(structs: &Structs, id: StructId, count: u32) -> u32
    requires { count < 4294967295 }
    ensures { result ≡ (if is_some (members_of structs.now id) then count + 1 else count) }
{
    match structs.find_members(id) {
        Some(_) => count + 1,
        None => count,
    }
}

/// How many structures are complete.
fn complete_count(structs: &Structs) -> u32
    ensures { result ≡ l.complete_count structs.now }
{
    let mut count = 0;
    for at in 0..structs.count() {
        count = counted(structs, StructId(at), count);
    }
    count
}

/// Whether a type is `const`, or has elements or members at any depth that are.
pub fn is_const_somewhere(structs: &Structs, ty: &CType) -> bool
    ensures { result ≡ t.is_const_somewhere structs.now ty.now }
{
    match own_constness(ty) {
        Constness::Const => true,
        Constness::OfStructure(id) => structure_is_const(structs, complete_count(structs), id),
        Constness::Variable => false,
    }
}
