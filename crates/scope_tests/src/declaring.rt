//! Declarations by their words.
ghost use Rattle.std.specs.Prelude.{◌≡◌, ℕ, None, IsTrue};
ghost use Rattle.model_types.specs.Types.{form_of_type};
ghost use Rattle.model_types.specs.Structures.{names_below};
ghost use Rattle.model_scopes.specs.Declarations as d;

use crate::typed::{PLAIN, int, type_of};
use c_types::{Basic, CType, Const, StructId, TypeForm};
use cake_base::{Bytes, NoMemory, Place};
use decl_scope::{DeclId, Entry, Kind, Linkage, ScopeError, Scopes};
use std::alloc::Global;

/// The place that begins a line.
pub fn at(line: u32) -> Place {
    Place {
        file: 0,
        line,
        column: 1,
        order: line,
    }
}

/// The word of a rank; the empty one where there is none.
pub fn word<'a>(words: &[&'a str], rank: usize) -> &'a str {
    match words.get(rank) {
        Some(word) => word,
        None => "",
    }
}

pub fn is_function(ty: &CType) -> bool
    ensures { result ≡ d.is_function_form (form_of_type ty.now) }
{
    match ty.form() {
        TypeForm::Function(_, _, _) => true,
        _ => false,
    }
}

/// What a declaration with this storage word and type declares.
fn kind_for(storage: &str, ty: &CType) -> Kind
    ensures { IsTrue (d.fits_kind result (form_of_type ty.now) None) }
{
    if storage == "typedef" {
        return Kind::TypeName;
    }
    if storage == "tag" {
        return Kind::Tag;
    }
    if is_function(ty) {
        Kind::Function
    } else {
        Kind::Object
    }
}

/// The linkage by the storage word: `public` stands for none at file scope.
fn linkage_of(scopes: &Scopes, storage: &str, name: &str) -> Linkage {
    if storage == "static" {
        return Linkage::Internal;
    }
    if storage == "extern" {
        return scopes.extern_linkage(name.as_bytes());
    }
    if storage == "public" {
        return Linkage::External;
    }
    Linkage::Absent
}

/// A declaration of a type that names no structure.
fn declare(scopes: &mut Scopes, entry: Entry) -> Result<DeclId, ScopeError>
    requires fits { IsTrue (d.fits entry) }
    requires known { (n : ℕ) → IsTrue (names_below n entry.ty) }
{
    if scopes.ids() == u32::MAX {
        return Err(ScopeError::NoMemory);
    }
    scopes.declare(entry)
}

/// Declares an object, a function, a name of a type, or a tag of an enumeration: `STORAGE TYPE NAME`, and `{}` where it
/// is a definition.
pub fn declare_typed(
    alloc: Global,
    scopes: &mut Scopes,
    words: &[&str],
    line: u32,
) -> Result<DeclId, ScopeError> {
    let (storage, name) = (word(words, 0), word(words, 2));
    let ty = type_of(alloc, word(words, 1))?;
    let entry = Entry {
        name: Bytes::of(alloc, name.as_bytes())?,
        kind: kind_for(storage, &ty),
        linkage: linkage_of(scopes, storage, name),
        ty,
        value: None,
        defines: word(words, 3) == "{}",
        automatic: storage == "local",
        place: at(line),
    };
    declare(scopes, entry)
}

/// Declares an enumerator of value 0: `enumerator NAME`.
pub fn declare_enumerator(
    alloc: Global,
    scopes: &mut Scopes,
    words: &[&str],
    line: u32,
) -> Result<DeclId, ScopeError> {
    let entry = Entry {
        name: Bytes::of(alloc, word(words, 1).as_bytes())?,
        kind: Kind::Enumerator,
        linkage: Linkage::Absent,
        ty: int(alloc)?,
        value: Some(Const {
            value: 0,
            basic: Basic::Int,
        }),
        defines: true,
        automatic: false,
        place: at(line),
    };
    declare(scopes, entry)
}

/// Declares the tag of the first structure: `struct NAME`, and `{}` where its braces stand.
pub fn declare_struct(
    alloc: Global,
    scopes: &mut Scopes,
    words: &[&str],
    line: u32,
) -> Result<DeclId, ScopeError> {
    if scopes.ids() == u32::MAX || scopes.structs().count() == 0 {
        return Err(ScopeError::NoMemory);
    }
    let entry = Entry {
        name: Bytes::of(alloc, word(words, 1).as_bytes())?,
        kind: Kind::Tag,
        linkage: Linkage::Absent,
        ty: CType::new(alloc, TypeForm::Struct(StructId(0)), PLAIN)?,
        value: None,
        defines: word(words, 2) == "{}",
        automatic: false,
        place: at(line),
    };
    scopes.declare(entry)
}

/// Adds an incomplete structure, where there is room for one.
pub fn add_struct(
    scopes: &mut Scopes,
    tag: Option<Bytes>,
    line: u32,
) -> Result<StructId, NoMemory> {
    if scopes.structs().count() < u32::MAX {
        return scopes.add_struct(tag, at(line));
    }
    Err(NoMemory)
}
