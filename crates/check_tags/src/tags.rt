//! Tags: looked up where they are used, and declared (ISO/IEC 9899:2024, 6.2.1, 6.7.3.4).
ghost use Rattle.std.specs.Prelude.{◌≡◌, IsTrue, IfOk, IfSome, OnOk, Some};
ghost use Rattle.std.specs.Option.{option_map};
ghost use Rattle.model_types.specs.Structures as t;
ghost use Rattle.model_scopes.specs.Scopes as m;
ghost use Rattle.model_checking.specs.Tags as g;
ghost use Rattle.check_base.specs.Turns.{Turns};
ghost use Rattle.check_tags.specs.Found.{id_found, type_found, refused_as};

use c_types::CType;
use cake_base::{Bytes, NoMemory};
use check_base::CheckError;
use decl_scope::{DeclId, Entry, Kind, Linkage, ScopeError, Scopes};
use model_grammar::syntax::Name;
use std::alloc::Global;

/// The id of a tag, one that stands alone in the innermost scope.
fn tag_id(scopes: &Scopes, is_lone: bool, name: &Name) -> Option<DeclId>
    ensures id { option_map (λ id. id.0) result ≡ id_found is_lone name.now.text scopes.now }
    ensures declared { IfSome result (λ id. IsTrue (m.is_declared id.0 scopes.now.declared)) }
{
    if is_lone {
        scopes.here(true, name.text.as_slice())
    } else {
        scopes.look(true, name.text.as_slice())
    }
}

/// The type of what has an id.
fn type_of_id(alloc: Global, scopes: &Scopes, id: DeclId) -> Result<CType, NoMemory>
    requires { IsTrue (m.is_declared id.0 scopes.now.declared) }
    ensures ty { IfOk result (λ ty. option_map (λ found. found.latest.ty) (m.with_id id.0 scopes.now.declared) ≡ Some ty) }
    ensures known { IfOk result (λ ty. IsTrue (t.knows scopes.now.structs ty)) }
{
    scopes.entry(id).ty.copy(alloc)
}

/// The type that a tag is declared with, where it is declared: visibly, or in the innermost scope where it stands alone.
pub fn tag_type(
    alloc: Global,
    scopes: &Scopes,
    is_lone: bool,
    name: &Name,
) -> Result<Option<CType>, NoMemory>
    ensures ty { IfOk result (λ ty. ty ≡ type_found is_lone name.now scopes.now) }
    ensures known { IfOk result (λ ty. IfSome ty (λ ty. IsTrue (t.knows scopes.now.structs ty))) }
{
    match tag_id(scopes, is_lone, name) {
        Some(id) => Ok(Some(type_of_id(alloc, scopes, id)?)),
        None => Ok(None),
    }
}

/// Why a declaration is refused.
pub(crate) fn refusal(e: ScopeError) -> CheckError
    ensures { result ≡ refused_as e }
{
    match e {
        ScopeError::Fault(fault) => CheckError::Fault(fault),
        ScopeError::NoMemory => CheckError::NoMemory,
    }
}

/// The declaration of a tag.
pub(crate) fn tag_entry(
    alloc: Global,
    name: &Name,
    ty: &CType,
    has_braces: bool,
) -> Result<Entry, NoMemory>
    ensures { IfOk result (λ made. made ≡ g.tag_declaration name.now ty.now has_braces) }
{
    Ok(Entry {
        name: Bytes::of(alloc, name.text.as_slice())?,
        kind: Kind::Tag,
        linkage: Linkage::Absent,
        ty: ty.copy(alloc)?,
        value: None,
        defines: has_braces,
        automatic: false,
        place: name.place,
    })
}

/// Declares a tag of a type in the innermost scope, with braces or without, and gives its type. C01 and C06 at the tag.
pub fn declare_tag(
    alloc: Global,
    scopes: &mut Scopes,
    name: &Name,
    ty: &CType,
    has_braces: bool,
) -> Result<CType, CheckError>
    requires { IsTrue (t.knows scopes.old.structs ty.now) }
    ensures answer { Turns (g.declared_tag (g.tag_declaration name.now ty.now has_braces)) scopes.old result scopes.new }
    ensures structs { OnOk result (scopes.new.structs ≡ scopes.old.structs) }
    ensures ty { IfOk result (λ made. made ≡ ty.now) }
{
    if scopes.ids() == u32::MAX {
        return Err(CheckError::NoMemory);
    }
    let entry = tag_entry(alloc, name, ty, has_braces)?;
    let made = ty.copy(alloc)?;
    match scopes.declare(entry) {
        Ok(_) => Ok(made),
        Err(e) => {
            drop(made);
            Err(refusal(e))
        }
    }
}
