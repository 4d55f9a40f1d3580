//! A declaration of a name.
ghost use Rattle.std.specs.Prelude.{◌≡◌, ◌&&◌, IfOk};
ghost use Rattle.model_scopes.specs.Declarations as m;
ghost use Rattle.model_scopes.specs.Declaring as j;
ghost use Rattle.model_scopes.specs.NotedUses as u;

use c_types::CType;
use cake_base::{Bytes, NoMemory, Place};
use model_scopes::declarations::{Kind, Linkage};
use model_types::numbers::Const;
use std::alloc::Global;
use std::marker::Model;

/// A declaration of a name (ISO/IEC 9899:2024, 6.7). Contracts see the record of what it says.
#[derive(Drop)]
pub struct Entry {
    pub name: Bytes,
    pub kind: Kind,
    /// Of an object or a function; other names have no linkage, whatever stands here.
    pub linkage: Linkage,
    pub ty: CType,
    /// The value of an enumerator, or of a `constexpr` object; 0 for a null pointer.
    pub value: Option<Const>,
    /// Whether a function has its body, an object is defined, or a tag has its braces.
    pub defines: bool,
    /// Whether it is an object or a parameter of automatic storage.
    pub automatic: bool,
    /// The place of the name.
    pub place: Place,
}

impl Model for Entry {
    ghost use Rattle.model_scopes.specs.Declarations as m;
    ghost use Rattle.model_scopes.specs.apparatus.DeclarationCode.{coded_declaration};

    ghost Value = { m.Declaration };

    ghost coded = { coded_declaration };

    ghost use Rattle.decl_scope.specs.Values.{value_if_any};

    ghost view = { λ e. record { name = e.name; kind = e.kind; linkage = e.linkage; ty = e.ty; value = value_if_any e.value; defines = e.defines; automatic = e.automatic; place = e.place } };
}

/// The linkage of a declaration of this kind.
fn linkage_by(kind: Kind, linkage: Linkage) -> Linkage
    ensures { result ≡ m.linkage_by kind linkage }
{
    match kind {
        Kind::Object => linkage,
        Kind::Function => linkage,
        Kind::TypeName => Linkage::Absent,
        Kind::Enumerator => Linkage::Absent,
        Kind::Tag => Linkage::Absent,
    }
}

/// Whether a linkage is internal or external.
fn is_present(linkage: Linkage) -> bool
    ensures { result ≡ m.is_present linkage }
{
    match linkage {
        Linkage::Absent => false,
        Linkage::Internal => true,
        Linkage::External => true,
    }
}

impl Entry {
    /// An equal declaration.
    pub fn copy(&self, alloc: Global) -> Result<Entry, NoMemory>
        ensures { IfOk result (λ made. made ≡ self.now) }
    {
        Ok(Entry {
            name: Bytes::of(alloc, self.name.as_slice())?,
            kind: self.kind,
            linkage: self.linkage,
            ty: self.ty.copy(alloc)?,
            value: self.value,
            defines: self.defines,
            automatic: self.automatic,
            place: self.place,
        })
    }

    /// The place of the name, where the declaration is a definition.
    pub fn defined_at(&self) -> Option<Place>
        ensures { result ≡ j.defined_at self.now }
    {
        if self.defines { Some(self.place) } else { None }
    }

    /// The linkage: only objects and functions have one.
    pub fn own_linkage(&self) -> Linkage
        ensures { result ≡ m.linkage_of self.now }
    {
        linkage_by(self.kind, self.linkage)
    }

    /// Whether the declaration has internal or external linkage.
    pub fn has_linkage(&self) -> bool
        ensures { result ≡ m.has_linkage self.now }
    {
        is_present(self.own_linkage())
    }

    /// Whether the declaration is one of a tag.
    pub fn is_tag(&self) -> bool
        ensures { result ≡ m.is_tag self.now.kind }
    {
        match self.kind {
            Kind::Tag => true,
            Kind::Object => false,
            Kind::Function => false,
            Kind::TypeName => false,
            Kind::Enumerator => false,
        }
    }

    /// The same declaration with another type.
    pub fn with_type(self, ty: CType) -> Entry
        ensures { result ≡ record self { ty = ty } }
    {
        let mut entry = self;
        entry.ty = ty;
        entry
    }

    /// Whether the declaration is one of a function with internal linkage.
    pub fn is_internal_function(&self) -> bool
        ensures { result ≡ (u.is_function_kind self.now.kind && u.is_internal self.now.linkage) }
    {
        is_internal_function(self.kind, self.linkage)
    }

    /// Whether the declaration is one of a name of a type.
    pub fn is_typedef(&self) -> bool
        ensures { result ≡ m.is_typedef self.now.kind }
    {
        match self.kind {
            Kind::TypeName => true,
            Kind::Object => false,
            Kind::Function => false,
            Kind::Enumerator => false,
            Kind::Tag => false,
        }
    }
}

/// Whether a declaration of this kind and linkage is one of an internal function.
fn is_internal_function(kind: Kind, linkage: Linkage) -> bool
    ensures { result ≡ (u.is_function_kind kind && u.is_internal linkage) }
{
    kind == Kind::Function && linkage == Linkage::Internal
}
