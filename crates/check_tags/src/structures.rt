//! Structures by their tags, and before their members (ISO/IEC 9899:2024, 6.7.3.2, 6.7.3.4).
ghost use Rattle.std.specs.Prelude.{◌≡◌, ◌<◌, length, Some, None, IsTrue, IfOk, OnOk};
ghost use Rattle.std.specs.Option.{option_copied};
ghost use Rattle.c_tree.specs.SyntaxViews.{member_declaration_of, member_declarations_of};
ghost use Rattle.model_types.specs.Structures as t;
ghost use Rattle.model_types.specs.Types.{form_of_type};
ghost use Rattle.model_scopes.specs.Scopes.{with_struct};
ghost use Rattle.model_scopes.specs.DeclarationRules.{is_struct_form};
ghost use Rattle.model_checking.specs.State.{State};
ghost use Rattle.model_checking.specs.Structures as m;
ghost use Rattle.check_base.specs.Answers.{Answers};
ghost use Rattle.check_base.specs.Turns.{Turns};
ghost use Rattle.check_tags.specs.Found.{is_of_members};

use crate::tags::{declare_tag, tag_type};
use c_tree::MemberDeclaration;
use c_types::{CType, StructId, TypeForm};
use cake_base::{Bytes, NoMemory, Place};
use check_base::{CheckError, constraint};
use check_types::plain;
use decl_scope::Scopes;
use model_grammar::syntax::Name;
use std::alloc::Global;

/// The tag is of another kind.
const OTHER_TAG: u32 = 6;
/// A structure declares no member.
const NO_MEMBER: u32 = 28;

/// A structure that isn't there yet, with a tag or none; `place` is that of its word `struct`.
fn add_struct(scopes: &mut Scopes, tag: Option<Bytes>, place: Place) -> Result<StructId, NoMemory>
    ensures added { OnOk result (scopes.new ≡ with_struct tag place scopes.old) }
    ensures id { IfOk result (λ id. id.0 ≡ length scopes.old.structs) }
{
    if scopes.structs().count() == u32::MAX {
        return Err(NoMemory);
    }
    scopes.add_struct(tag, place)
}

/// A structure that isn't there yet, with a tag that is declared for it. C01 and C06 at the tag.
fn new_struct(
    alloc: Global,
    scopes: &mut Scopes,
    name: &Name,
    has_braces: bool,
    place: Place,
) -> Result<StructId, CheckError>
    ensures answer { Turns (m.new_struct name.now has_braces place) scopes.old result scopes.new }
    ensures there { IfOk result (λ id. id.0 < length scopes.new.structs) }
{
    let tag = Bytes::of(alloc, name.text.as_slice())?;
    let id = add_struct(scopes, Some(tag), place)?;
    let ty = plain(alloc, TypeForm::Struct(id))?;
    match declare_tag(alloc, scopes, name, &ty, has_braces) {
        Ok(_) => Ok(id),
        Err(e) => Err(e),
    }
}

/// The type of a structure whose tag is declared with this type. C06 at the tag, where it is that of an enumeration.
fn as_struct(name: &Name, ty: CType) -> Result<CType, CheckError>
    ensures answer { (s : State) → Answers result (m.as_struct name.now ty s) s }
    ensures same { IfOk result (λ made. made ≡ ty) }
{
    if is_struct(&ty) {
        Ok(ty)
    } else {
        drop(ty);
        Err(CheckError::Fault(constraint(name.place, OTHER_TAG)))
    }
}

/// Whether a type is a structure.
pub(crate) fn is_struct(ty: &CType) -> bool
    ensures { result ≡ is_struct_form (form_of_type ty.now) }
{
    match ty.form() {
        TypeForm::Struct(_) => true,
        TypeForm::Void => false,
        TypeForm::Integer(_) => false,
        TypeForm::Enum(..) => false,
        TypeForm::Pointer(_) => false,
        TypeForm::Array(..) => false,
        TypeForm::Function(..) => false,
    }
}

/// The type of a new structure with this tag.
fn new_struct_type(
    alloc: Global,
    scopes: &mut Scopes,
    name: &Name,
    place: Place,
) -> Result<CType, CheckError>
    ensures answer { Turns (m.struct_by None name.now place) scopes.old result scopes.new }
    ensures known { IfOk result (λ ty. IsTrue (t.knows scopes.new.structs ty)) }
{
    match new_struct(alloc, scopes, name, false, place) {
        Ok(id) => Ok(plain(alloc, TypeForm::Struct(id))?),
        Err(e) => Err(e),
    }
}

/// The structure of a tag without braces: the visible one, or that of the innermost scope where the tag stands alone; else
/// a new one. C01 and C06 at the tag.
pub fn struct_tag(
    alloc: Global,
    scopes: &mut Scopes,
    is_lone: bool,
    name: &Name,
    place: Place,
) -> Result<CType, CheckError>
    ensures answer { Turns (m.struct_tag is_lone name.now place) scopes.old result scopes.new }
    ensures known { IfOk result (λ ty. IsTrue (t.knows scopes.new.structs ty)) }
{
    match tag_type(alloc, scopes, is_lone, name)? {
        Some(ty) => as_struct(name, ty),
        None => new_struct_type(alloc, scopes, name, place),
    }
}

/// A structure of the innermost scope has its braces now, which it mustn't have had.
fn begin_again(
    alloc: Global,
    scopes: &mut Scopes,
    name: &Name,
    ty: &CType,
) -> Result<StructId, CheckError>
    requires { IsTrue (t.knows scopes.old.structs ty.now) }
    ensures answer { Turns (m.begun_again (m.id_of_struct (form_of_type ty.now)) name.now) scopes.old result scopes.new }
    ensures there { IfOk result (λ id. id.0 < length scopes.new.structs) }
{
    match ty.form() {
        TypeForm::Struct(id) => begin_known(alloc, scopes, name, *id),
        TypeForm::Void => Err(CheckError::Fault(constraint(name.place, OTHER_TAG))),
        TypeForm::Integer(_) => Err(CheckError::Fault(constraint(name.place, OTHER_TAG))),
        TypeForm::Enum(..) => Err(CheckError::Fault(constraint(name.place, OTHER_TAG))),
        TypeForm::Pointer(_) => Err(CheckError::Fault(constraint(name.place, OTHER_TAG))),
        TypeForm::Array(..) => Err(CheckError::Fault(constraint(name.place, OTHER_TAG))),
        TypeForm::Function(..) => Err(CheckError::Fault(constraint(name.place, OTHER_TAG))),
    }
}

fn begin_known(
    alloc: Global,
    scopes: &mut Scopes,
    name: &Name,
    id: StructId,
) -> Result<StructId, CheckError>
    requires { id.0 < length scopes.old.structs }
    ensures answer { Turns (m.begun_again (Some id) name.now) scopes.old result scopes.new }
    ensures there { IfOk result (λ id. id.0 < length scopes.new.structs) }
{
    let ty = plain(alloc, TypeForm::Struct(id))?;
    match declare_tag(alloc, scopes, name, &ty, true) {
        Ok(_) => Ok(id),
        Err(e) => Err(e),
    }
}

/// A structure with a tag has its braces.
fn begin_tagged(
    alloc: Global,
    scopes: &mut Scopes,
    name: &Name,
    place: Place,
) -> Result<StructId, CheckError>
    ensures answer { Turns (m.begun (Some name.now) place) scopes.old result scopes.new }
    ensures there { IfOk result (λ id. id.0 < length scopes.new.structs) }
{
    match tag_type(alloc, scopes, true, name)? {
        Some(ty) => begin_again(alloc, scopes, name, &ty),
        None => new_struct(alloc, scopes, name, true, place),
    }
}

/// Whether one of these declares a member.
#[tactic(auto, using(crate::proofs::TagLaws::declares_step))]
fn declares_member(members: &[MemberDeclaration]) -> bool
    ensures { result ≡ m.declares_member (member_declarations_of members.now) }
{
    for member in members {
        if is_of_members(member) {
            return true;
        }
    }
    false
}

fn is_of_members(member: &MemberDeclaration) -> bool
    ensures { result ≡ is_of_members (member_declaration_of member.now) }
{
    match member {
        MemberDeclaration::Declarators { .. } => true,
        MemberDeclaration::Assertion(_) => false,
    }
}

/// A structure has its braces: the structure of its tag in the innermost scope, or a new one. C28 at `struct`, where
/// nothing in the braces declares a member; C01 and C06 at the tag.
pub fn begin_struct(
    alloc: Global,
    scopes: &mut Scopes,
    tag: Option<&Name>,
    members: &[MemberDeclaration],
    place: Place,
) -> Result<StructId, CheckError>
    ensures answer { Turns (m.struct_begun (option_copied tag.entry) (member_declarations_of members.now) place) scopes.old result scopes.new }
    ensures there { IfOk result (λ id. id.0 < length scopes.new.structs) }
{
    if !declares_member(members) {
        return Err(CheckError::Fault(constraint(place, NO_MEMBER)));
    }
    match tag {
        Some(name) => begin_tagged(alloc, scopes, name, place),
        None => Ok(add_struct(scopes, None, place)?),
    }
}
