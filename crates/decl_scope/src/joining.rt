//! A declaration in its scope: the first of an id, and later ones.
ghost use Rattle.std.specs.Prelude.{◌≡◌, ◌++◌, ◌∷◌, [], ℕ, List, None, true, if◌then◌else◌, IfOk, OnOk, OnErr};
ghost use Rattle.std.specs.Option.{option_copied};
ghost use Rattle.model_scopes.specs.CompositeTypes as t;
ghost use Rattle.model_scopes.specs.Declarations as d;
ghost use Rattle.model_scopes.specs.Scopes as m;
ghost use Rattle.model_scopes.specs.Declaring as j;
ghost use Rattle.model_scopes.specs.Binding as b;
ghost use Rattle.decl_scope.specs.Later.{taken};

use crate::declared::Declared;
use crate::entry::Entry;
use crate::level::Level;
use crate::names::Names;
use crate::table::Table;
use c_types::CType;
use cake_base::NoMemory;
use check_types::{composite, with_length};
use std::alloc::Global;

/// A copy of a text.
fn copy_text(alloc: Global, text: &[u8]) -> Result<Vec<u8>, NoMemory>
    ensures { IfOk result (λ made. made.items ≡ text.now) }
{
    Ok(Vec::from_slice(alloc, text)?)
}

/// Adds the name of a declaration with linkage. On refusal nothing has changed.
fn add_linked(names: &mut Names, linked: bool, name: &[u8], id: u32) -> Result<(), NoMemory>
    requires { linked ≡ true → b.bound name.now names.old ≡ None }
    ensures ok { OnOk result (names.new ≡ j.with_linked linked name.now id names.old) }
    ensures err { OnErr result (names.new ≡ names.old) }
{
    if linked { names.add(name, id) } else { Ok(()) }
}

/// Takes the name of a declaration with linkage away again.
fn drop_linked(names: &mut Names, linked: bool)
    ensures { (name : List ℕ) (id : ℕ) (before : List (List ℕ × ℕ)) → names.old ≡ j.with_linked linked name id before → names.new ≡ before }
{
    if linked {
        names.forget_last();
    }
}

/// Adds the name of the first declaration of an id to the innermost scope and, with linkage, to the
/// names with linkage. On refusal nothing has changed.
fn add_names(
    innermost: &mut Level,
    linked: &mut Names,
    tag: bool,
    has_linkage: bool,
    name: &[u8],
    id: u32,
) -> Result<(), NoMemory>
    requires { has_linkage ≡ true → b.bound name.now linked.old ≡ None }
    ensures ok { OnOk result ((innermost.new ≡ j.naming tag name.now id innermost.old) × (linked.new ≡ j.with_linked has_linkage name.now id linked.old)) }
    ensures err { OnErr result ((innermost.new ≡ innermost.old) × (linked.new ≡ linked.old)) }
{
    add_linked(linked, has_linkage, name, id)?;
    match innermost.declare(tag, name, id) {
        Ok(()) => Ok(()),
        Err(NoMemory) => {
            drop_linked(linked, has_linkage);
            Err(NoMemory)
        }
    }
}

/// Takes the first declaration of an id. On refusal nothing has changed.
pub fn declare_first(
    alloc: Global,
    innermost: &mut Level,
    linked: &mut Names,
    table: &mut Table,
    entry: Entry,
    id: u32,
) -> Result<(), NoMemory>
    requires unlinked { d.has_linkage entry ≡ true → b.bound entry.name linked.old ≡ None }
    requires unused { m.with_id id table.old ≡ None }
    ensures ok { OnOk result ((innermost.new ≡ j.naming (d.is_tag entry.kind) entry.name id innermost.old) × (linked.new ≡ j.with_linked (d.has_linkage entry) entry.name id linked.old) × (table.new ≡ table.old ++ (id, j.first_declared entry innermost.old.number) ∷ [])) }
    ensures err { OnErr result ((innermost.new ≡ innermost.old) × (linked.new ≡ linked.old) × (table.new ≡ table.old)) }
{
    let name = copy_text(alloc, entry.name.as_slice())?;
    let tag = entry.is_tag();
    let has_linkage = entry.has_linkage();
    table.add(id, Declared::new(entry, innermost.number()))?;
    match add_names(innermost, linked, tag, has_linkage, name.as_slice(), id) {
        Ok(()) => Ok(()),
        Err(NoMemory) => {
            table.forget_last();
            Err(NoMemory)
        }
    }
}

/// The type that an id has after a later declaration.
fn kept_type(alloc: Global, tag: bool, old: &CType, new: &CType) -> Result<CType, NoMemory>
    ensures { IfOk result (λ made. made ≡ (if tag then old.now else t.with_length old.now new.now)) }
{
    if tag {
        old.copy(alloc)
    } else {
        with_length(alloc, old, new)
    }
}

/// The composite type of the declarations of an id.
fn joined(alloc: Global, before: Option<&CType>, ty: &CType) -> Result<CType, NoMemory>
    ensures { IfOk result (λ made. made ≡ j.joined (option_copied before.entry) ty.now) }
{
    match before {
        Some(before) => composite(alloc, before, ty),
        None => ty.copy(alloc),
    }
}

fn copy_if_any(alloc: Global, before: Option<&CType>) -> Result<Option<CType>, NoMemory>
    ensures { IfOk result (λ made. made ≡ option_copied before.entry) }
{
    match before {
        Some(before) => Ok(Some(before.copy(alloc)?)),
        None => Ok(None),
    }
}

/// What is kept of the types of an id before a later declaration.
fn types_before(alloc: Global, has_linkage: bool, old: &Declared) -> Result<Option<CType>, NoMemory>
    ensures { IfOk result (λ made. made ≡ j.types_before has_linkage old.now) }
{
    if has_linkage {
        Ok(Some(joined(alloc, old.before(), &old.latest().ty)?))
    } else {
        copy_if_any(alloc, old.before())
    }
}

/// The type that an id has after a later declaration, and what is kept of those before it.
fn types_after(
    alloc: Global,
    entry: &Entry,
    old: &Declared,
) -> Result<(CType, Option<CType>), NoMemory>
    ensures { IfOk result (λ types. (types.0 ≡ j.kept_type entry.now.kind old.now.latest.ty entry.now.ty) × (types.1 ≡ j.types_before (d.has_linkage entry.now) old.now)) }
{
    let ty = kept_type(alloc, entry.is_tag(), &old.latest().ty, &entry.ty)?;
    let before = types_before(alloc, entry.has_linkage(), old)?;
    Ok((ty, before))
}

/// The same of an id that may not be there.
fn types_if_any(
    alloc: Global,
    entry: &Entry,
    old: Option<&Declared>,
) -> Result<(CType, Option<CType>), NoMemory>
    ensures { (found : m.Declared) → option_copied old.entry ≡ Some found → IfOk result (λ types. (types.0 ≡ j.kept_type entry.now.kind found.latest.ty entry.now.ty) × (types.1 ≡ j.types_before (d.has_linkage entry.now) found)) }
{
    match old {
        Some(old) => types_after(alloc, entry, old),
        None => Ok((entry.ty.copy(alloc)?, None)),
    }
}

/// Takes a later declaration of an id with that type. On refusal nothing has changed.
fn take_again(
    innermost: &mut Level,
    table: &mut Table,
    entry: Entry,
    before: Option<CType>,
    id: u32,
) -> Result<(), NoMemory>
    ensures ok { OnOk result ((innermost.new ≡ j.naming (d.is_tag entry.kind) entry.name id innermost.old) × (table.new ≡ m.changed (taken entry before innermost.old.number) id table.old)) }
    ensures err { OnErr result ((innermost.new ≡ innermost.old) × (table.new ≡ table.old)) }
{
    let scope = innermost.number();
    innermost.declare(entry.is_tag(), entry.name.as_slice(), id)?;
    table.take(id, entry, before, scope);
    Ok(())
}

/// Takes a later declaration of an id. On refusal nothing has changed.
pub fn declare_again(
    alloc: Global,
    innermost: &mut Level,
    table: &mut Table,
    entry: Entry,
    id: u32,
) -> Result<(), NoMemory>
    ensures ok { OnOk result ((innermost.new ≡ j.naming (d.is_tag entry.kind) entry.name id innermost.old) × (table.new ≡ m.changed (j.redeclared entry innermost.old.number) id table.old)) }
    ensures err { OnErr result ((innermost.new ≡ innermost.old) × (table.new ≡ table.old)) }
{
    let (ty, before) = types_if_any(alloc, &entry, table.get(id))?;
    take_again(innermost, table, entry.with_type(ty), before, id)
}
