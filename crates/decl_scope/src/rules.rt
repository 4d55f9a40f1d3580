//! The constraints on a declaration where others stand.
ghost use Rattle.std.specs.Prelude.{◌≡◌, IfOk};
ghost use Rattle.std.specs.Option.{option_copied};
ghost use Rattle.model_types.specs.Types.{form_of_type};
ghost use Rattle.model_scopes.specs.DeclarationRules as m;

use crate::built_ins::built_in_type;
use crate::declared::Declared;
use crate::entry::Entry;
use crate::typedefs::same_typedef;
use c_types::{CType, Structs, TypeForm, compatible};
use cake_base::{Family, Fault, NoMemory, Place, Rule};
use model_scopes::declarations::{Kind, Linkage};
use std::alloc::Global;

/// The name begins with `cake_`.
const RESERVED_NAME: u32 = 1;
/// The name is declared in its scope and name space already.
const DECLARED_TWICE: u32 = 2;
/// The type doesn't agree with that of an earlier declaration.
const OTHER_TYPE: u32 = 3;
/// An earlier declaration has another linkage.
const OTHER_LINKAGE: u32 = 4;
/// A tag is of another kind, or has its braces twice.
const OTHER_TAG: u32 = 6;
/// A built-in function is defined, or declared otherwise.
const BUILT_IN_FUNCTION: u32 = 7;
/// An internal function is used and not defined.
pub const UNDEFINED_FUNCTION: u32 = 8;

/// A rule of the family C at a place.
pub fn constraint_at(place: Place, number: u32) -> Fault
    ensures { result ≡ m.constraint_at place number }
{
    Fault {
        place,
        rule: Rule {
            family: Family::C,
            number,
        },
    }
}

/// Whether a name begins with `cake_`.
fn has_prefix(name: &[u8]) -> bool
    ensures { result ≡ m.has_prefix name.now }
{
    if name.len() < 5 {
        return false;
    }
    let (front, _) = name.split_at(5);
    front == b"cake_".as_slice()
}

/// Whether two declarations of a name may stand in one scope.
fn may_repeat(old: &Entry, entry: &Entry) -> bool
    ensures { result ≡ m.may_repeat old.now entry.now }
{
    (old.has_linkage() && entry.has_linkage())
        || (old.is_typedef() && entry.is_typedef())
        || (old.is_tag() && entry.is_tag())
}

/// Whether a name is declared twice in one scope (6.7.1).
fn clashes(entry: &Entry, standing: Option<&Declared>) -> bool
    ensures { result ≡ m.clashes_with entry.now (option_copied standing.entry) }
{
    match standing {
        Some(old) => !may_repeat(old.latest(), entry),
        None => false,
    }
}

/// Whether a type is compatible with another, if there is one.
fn compatible_if_any(structs: &Structs, before: Option<&CType>, ty: &CType) -> bool
    ensures { result ≡ m.compatible_if_any (option_copied before.entry) ty.now }
{
    match before {
        Some(before) => compatible(structs, before, ty),
        None => true,
    }
}

/// Whether a type is compatible with those of all declarations so far (6.2.7).
fn agrees(structs: &Structs, old: &Declared, ty: &CType) -> bool
    ensures { result ≡ m.agrees_as Kind.Object old.now ty.now }
{
    compatible(structs, &old.latest().ty, ty) && compatible_if_any(structs, old.before(), ty)
}

fn agrees_as(structs: &Structs, entry: &Entry, old: &Declared) -> bool
    ensures { result ≡ m.agrees_as entry.now.kind old.now entry.now.ty }
{
    match entry.kind {
        Kind::Object => agrees(structs, old, &entry.ty),
        Kind::Function => agrees(structs, old, &entry.ty),
        Kind::TypeName => same_typedef(&old.latest().ty, &entry.ty),
        Kind::Enumerator => true,
        Kind::Tag => true,
    }
}

/// Whether a name is redeclared with another type.
fn differs(structs: &Structs, entry: &Entry, earlier: Option<&Declared>) -> bool
    ensures { result ≡ m.differs entry.now (option_copied earlier.entry) }
{
    match earlier {
        Some(old) => !agrees_as(structs, entry, old),
        None => false,
    }
}

/// Whether two linkages are the same.
fn same_linkage(a: Linkage, b: Linkage) -> bool
    ensures { result ≡ m.same_linkage a b }
{
    a == b
}

/// Whether an earlier declaration has another linkage (6.2.2).
fn links_otherwise(entry: &Entry, earlier: Option<&Declared>) -> bool
    ensures { result ≡ m.links_otherwise entry.now (option_copied earlier.entry) }
{
    match earlier {
        Some(old) => {
            entry.has_linkage() && !same_linkage(old.latest().own_linkage(), entry.own_linkage())
        }
        None => false,
    }
}

/// Whether a type is a structure.
fn is_struct(ty: &CType) -> bool
    ensures { result ≡ m.is_struct_form (form_of_type ty.now) }
{
    match ty.form() {
        TypeForm::Struct(_) => true,
        _ => false,
    }
}

/// Whether a tag is of another kind, or has its braces twice (6.7.3.4).
fn retags(entry: &Entry, earlier: Option<&Declared>) -> bool
    ensures { result ≡ m.retags entry.now (option_copied earlier.entry) }
{
    match earlier {
        Some(old) => {
            entry.is_tag()
                && (is_struct(&old.latest().ty) != is_struct(&entry.ty)
                    || (old.is_defined() && entry.defines))
        }
        None => false,
    }
}

/// Whether a built-in function is defined, or declared otherwise than with that type.
fn is_otherwise(structs: &Structs, entry: &Entry, ty: &CType) -> bool
    ensures { result ≡ m.is_otherwise entry.now (Some ty.now) }
{
    entry.has_linkage()
        && (entry.defines
            || entry.own_linkage() != Linkage::External
            || !compatible(structs, ty, &entry.ty))
}

fn rebuilds(alloc: Global, structs: &Structs, entry: &Entry) -> Result<bool, NoMemory>
    ensures { IfOk result (λ found. found ≡ m.rebuilds entry.now) }
{
    match built_in_type(alloc, entry.name.as_slice())? {
        Some(ty) => Ok(is_otherwise(structs, entry, &ty)),
        None => Ok(false),
    }
}

/// The first constraint on the type, linkage, tag or built-in function that a declaration breaks.
fn broken_later(
    alloc: Global,
    structs: &Structs,
    entry: &Entry,
    earlier: Option<&Declared>,
) -> Result<Option<u32>, NoMemory>
    ensures { IfOk result (λ found. found ≡ m.broken_later entry.now (option_copied earlier.entry)) }
{
    if differs(structs, entry, earlier) {
        return Ok(Some(OTHER_TYPE));
    }
    if links_otherwise(entry, earlier) {
        return Ok(Some(OTHER_LINKAGE));
    }
    if retags(entry, earlier) {
        return Ok(Some(OTHER_TAG));
    }
    if rebuilds(alloc, structs, entry)? {
        return Ok(Some(BUILT_IN_FUNCTION));
    }
    Ok(None)
}

/// The smallest rule that a declaration breaks where the innermost scope declares its name as
/// `standing`, and the id that it shares is declared as `earlier`.
pub fn broken_rule(
    alloc: Global,
    structs: &Structs,
    entry: &Entry,
    standing: Option<&Declared>,
    earlier: Option<&Declared>,
) -> Result<Option<u32>, NoMemory>
    ensures { IfOk result (λ found. found ≡ m.broken_by entry.now (option_copied standing.entry) (option_copied earlier.entry)) }
{
    if has_prefix(entry.name.as_slice()) {
        return Ok(Some(RESERVED_NAME));
    }
    if clashes(entry, standing) {
        return Ok(Some(DECLARED_TWICE));
    }
    broken_later(alloc, structs, entry, earlier)
}
