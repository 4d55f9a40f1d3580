//! The scopes at a point of a unit.
ghost use Rattle.std.specs.Prelude.{◌≡◌, ◌<◌, ℕ, List, [], ◌∷◌, length, slice_get, true, false, None, is_some, IsTrue, IfSome, IfOk, OnOk, OnErr};
ghost use Rattle.std.specs.Option.{option_map, option_copied};
ghost use Rattle.std.specs.List.{list_all};
ghost use Rattle.model_types.specs.Structures as t;
ghost use Rattle.model_types.specs.Layout as l;
ghost use Rattle.model_scopes.specs.Declarations as d;
ghost use Rattle.model_scopes.specs.Scopes as m;
ghost use Rattle.model_scopes.specs.Binding as b;
ghost use Rattle.model_scopes.specs.DeclarationRules as r;
ghost use Rattle.model_scopes.specs.Declaring as j;
ghost use Rattle.model_scopes.specs.NotedUses as u;
ghost use Rattle.decl_scope.specs.Values.{value_if_any};
ghost use Rattle.decl_scope.specs.Answers.{Declares};

use crate::around::Around;
use crate::declared::Declared;
use crate::entry::Entry;
use crate::errors::ScopeError;
use crate::joining::{declare_again, declare_first};
use crate::level::Level;
use crate::names::Names;
use crate::rules::{UNDEFINED_FUNCTION, broken_rule, constraint_at};
use crate::table::Table;
use c_types::{CType, Members, Structs};
use cake_base::{Bytes, Fault, NoMemory, Place};
use model_scopes::declarations::{Kind, Linkage};
use model_types::marks::DeclId;
use model_types::numbers::Const;
use model_types::types::StructId;
use std::alloc::Global;
use std::marker::Model;
use std::mem;

/// The scopes at a point of a unit, with what is declared there (ISO/IEC 9899:2024, 6.2.1 to 6.2.3).
/// Contracts see the record of the scopes from the innermost outwards, of the names with linkage, of
/// what is declared by its id, and of the structures.
#[derive(Drop)]
pub struct Scopes {
    alloc: Global,
    innermost: Level,
    around: Around,
    linked: Names,
    table: Table,
    structs: Structs,
    ids: u32,
    entered: u64,
}

impl Model for Scopes {
    ghost use Rattle.model_scopes.specs.Scopes as m;
    ghost use Rattle.model_scopes.specs.apparatus.ScopesCode.{coded_scopes};

    ghost Value = { m.Scopes };

    ghost coded = { coded_scopes };

    ghost use Rattle.decl_scope.specs.View.{scopes_of};
    ghost use Rattle.decl_scope.specs.Soundness.{IsSound};

    ghost view = { scopes_of };

    ghost invariant = { λ a. IsSound (scopes_of a) };
}

impl Scopes {
    /// The scope of the file, in which nothing is declared.
    pub fn new(alloc: Global) -> Result<Scopes, NoMemory>
        ensures { IfOk result (λ made. made ≡ m.file_scope) }
    {
        Ok(Scopes {
            alloc,
            innermost: Level::new(alloc, 0, false),
            around: Around::new(alloc),
            linked: Names::new(alloc),
            table: Table::new(alloc),
            structs: Structs::new(alloc),
            ids: 0,
            entered: 1,
        })
    }

    /// Enters a scope. On refusal nothing has changed.
    pub fn enter(&mut self) -> Result<(), NoMemory>
        ensures ok { OnOk result (self.new ≡ m.enter false self.old) }
        ensures err { OnErr result (self.new ≡ self.old) }
    {
        self.enter_level(false)
    }

    /// Enters the scope of the parameters of a function literal. On refusal nothing has changed.
    pub fn enter_literal(&mut self) -> Result<(), NoMemory>
        ensures ok { OnOk result (self.new ≡ m.enter true self.old) }
        ensures err { OnErr result (self.new ≡ self.old) }
    {
        self.enter_level(true)
    }

    fn enter_level(&mut self, literal: bool) -> Result<(), NoMemory>
        ensures ok { OnOk result (self.new ≡ m.enter literal self.old) }
        ensures err { OnErr result (self.new ≡ self.old) }
    {
        if self.entered == u64::MAX {
            return Err(NoMemory);
        }
        let level = Level::new(self.alloc, self.entered, literal);
        nest(&mut self.innermost, &mut self.around, level)?;
        self.entered += 1;
        Ok(())
    }

    /// Leaves the innermost scope. What is declared there isn't visible any more. At file scope it does
    /// nothing.
    pub fn leave(&mut self)
        ensures { self.new ≡ m.leave self.old }
    {
        unnest(&mut self.innermost, &mut self.around);
    }

    /// Whether the innermost scope is that of the file.
    pub fn is_file_scope(&self) -> bool
        ensures { result ≡ m.is_outermost self.now.around }
    {
        self.around.is_empty()
    }

    /// Declares a name in the innermost scope.
    ///
    /// The fault is the smallest of C01 to C04, C06 and C07 that the declaration breaks, at the place of
    /// its name. All declarations of one name with linkage have one id, and so have those of one tag, or
    /// of one name of a type, in one scope; every other declaration gets a new one. On refusal nothing
    /// has changed, and the entry is dropped.
    pub fn declare(&mut self, entry: Entry) -> Result<DeclId, ScopeError>
        requires ids { self.old.ids < 4294967295 }
        requires known { IsTrue (t.knows self.old.structs entry.ty) }
        requires fits { IsTrue (d.fits entry) }
        ensures answer { Declares self.old entry result self.new }
        ensures declared { IfOk result (λ id. IsTrue (m.is_declared id.0 self.new.declared)) }
    {
        match self.broken_rule(&entry)? {
            Some(number) => Err(ScopeError::Fault(constraint_at(entry.place, number))),
            None => Ok(DeclId(self.admit(entry)?)),
        }
    }

    /// The id that a declaration shares with an earlier one.
    fn shared_id(&self, entry: &Entry) -> Option<u32>
        ensures { result ≡ r.shared_id entry.now self.now }
    {
        match entry.kind {
            Kind::Object => self.linked_id(entry),
            Kind::Function => self.linked_id(entry),
            Kind::TypeName => self.innermost.get(false, entry.name.as_slice()),
            Kind::Enumerator => None,
            Kind::Tag => self.innermost.get(true, entry.name.as_slice()),
        }
    }

    /// The id of the name of a declaration with linkage.
    fn linked_id(&self, entry: &Entry) -> Option<u32>
        ensures { result ≡ r.linked_id entry.now self.now }
    {
        if entry.has_linkage() {
            self.linked.get(entry.name.as_slice())
        } else {
            None
        }
    }

    /// What an id, if there is one, is declared as.
    fn declared_as(&self, id: Option<u32>) -> Option<&Declared>
        ensures { option_copied result ≡ b.declared_as id self.now }
    {
        match id {
            Some(id) => self.table.get(id),
            None => None,
        }
    }

    /// The smallest of C01 to C04, C06 and C07 that a declaration would break; none where it may stand.
    pub fn broken_rule(&self, entry: &Entry) -> Result<Option<u32>, NoMemory>
        ensures { IfOk result (λ found. found ≡ r.broken_rule entry.now self.now) }
    {
        let standing = self.declared_as(self.innermost.get(entry.is_tag(), entry.name.as_slice()));
        let earlier = self.declared_as(self.shared_id(entry));
        broken_rule(self.alloc, &self.structs, entry, standing, earlier)
    }

    /// Takes a declaration that breaks no rule.
    fn admit(&mut self, entry: Entry) -> Result<u32, NoMemory>
        requires ids { self.old.ids < 4294967295 }
        requires known { IsTrue (t.knows self.old.structs entry.ty) }
        requires fits { IsTrue (d.fits entry) }
        ensures ok { OnOk result (self.new ≡ j.declare entry self.old) }
        ensures id { IfOk result (λ id. id ≡ j.id_of entry self.old) }
        ensures declared { IfOk result (λ id. IsTrue (m.is_declared id self.new.declared)) }
        ensures err { OnErr result (self.new ≡ self.old) }
    {
        match self.shared_id(&entry) {
            Some(id) => self.admit_again(entry, id),
            None => self.admit_first(entry),
        }
    }

    fn admit_first(&mut self, entry: Entry) -> Result<u32, NoMemory>
        requires ids { self.old.ids < 4294967295 }
        requires known { IsTrue (t.knows self.old.structs entry.ty) }
        requires fits { IsTrue (d.fits entry) }
        requires new { r.shared_id entry self.old ≡ None }
        ensures ok { OnOk result (self.new ≡ j.declare_first entry self.old) }
        ensures id { IfOk result (λ id. id ≡ self.old.ids) }
        ensures declared { IfOk result (λ id. IsTrue (m.is_declared id self.new.declared)) }
        ensures err { OnErr result (self.new ≡ self.old) }
    {
        let id = self.ids;
        declare_first(
            self.alloc,
            &mut self.innermost,
            &mut self.linked,
            &mut self.table,
            entry,
            id,
        )?;
        self.ids += 1;
        Ok(id)
    }

    fn admit_again(&mut self, entry: Entry, id: u32) -> Result<u32, NoMemory>
        requires known { IsTrue (t.knows self.old.structs entry.ty) }
        requires fits { IsTrue (d.fits entry) }
        requires shared { r.shared_id entry self.old ≡ Some id }
        ensures ok { OnOk result (self.new ≡ j.declare_again entry id self.old) }
        ensures id { IfOk result (λ same. same ≡ id) }
        ensures declared { OnOk result (IsTrue (m.is_declared id self.new.declared)) }
        ensures err { OnErr result (self.new ≡ self.old) }
    {
        declare_again(self.alloc, &mut self.innermost, &mut self.table, entry, id)?;
        Ok(id)
    }

    /// A new id, without a name.
    pub fn fresh(&mut self) -> DeclId
        requires { self.old.ids < 4294967295 }
        ensures id { result.0 ≡ self.old.ids }
        ensures drawn { self.new ≡ m.drawn self.old }
    {
        let id = self.ids;
        self.ids += 1;
        DeclId(id)
    }

    /// The innermost declaration of a tag, or of another name; none where there is none.
    pub fn look(&self, tag: bool, name: &[u8]) -> Option<DeclId>
        ensures id { option_map (λ id. id.0) result ≡ b.look tag name.now self.now }
        ensures declared { IfSome result (λ id. IsTrue (m.is_declared id.0 self.now.declared)) }
    {
        numbered(self.find(tag, name))
    }

    fn find(&self, tag: bool, name: &[u8]) -> Option<u32>
        ensures id { result ≡ b.look tag name.now self.now }
        ensures declared { IfSome result (λ id. IsTrue (m.is_declared id self.now.declared)) }
    {
        match self.innermost.get(tag, name) {
            Some(id) => Some(id),
            None => self.around.look(tag, name),
        }
    }

    /// The declaration of a tag, or of another name, in the innermost scope; none where it has none.
    pub fn here(&self, tag: bool, name: &[u8]) -> Option<DeclId>
        ensures id { option_map (λ id. id.0) result ≡ b.here tag name.now self.now }
        ensures declared { IfSome result (λ id. IsTrue (m.is_declared id.0 self.now.declared)) }
    {
        numbered(self.find_here(tag, name))
    }

    fn find_here(&self, tag: bool, name: &[u8]) -> Option<u32>
        ensures id { result ≡ b.here tag name.now self.now }
        ensures declared { IfSome result (λ id. IsTrue (m.is_declared id self.now.declared)) }
    {
        self.innermost.get(tag, name)
    }

    /// The latest declaration of an id. An array without length has that of an earlier one, and a tag
    /// its first type.
    pub fn entry(&self, id: DeclId) -> &Entry
        requires { IsTrue (m.is_declared id.0 self.now.declared) }
        ensures latest { option_map (λ found. found.latest) (m.with_id id.0 self.now.declared) ≡ Some result.now }
        ensures fits { IsTrue (d.fits result.now) }
        ensures known { IsTrue (t.knows self.now.structs result.now.ty) }
    {
        self.table.get(id.0).unwrap().latest()
    }

    /// Whether one of the declarations of an id defines it, or has the braces of a tag.
    pub fn is_defined(&self, id: DeclId) -> bool
        requires { IsTrue (m.is_declared id.0 self.now.declared) }
        ensures { option_map (λ found. m.is_defined found) (m.with_id id.0 self.now.declared) ≡ Some result }
    {
        self.table.get(id.0).unwrap().is_defined()
    }

    /// Whether one of the declarations of an id was noted to have its initializer or body.
    pub fn is_initialized(&self, id: DeclId) -> bool
        requires { IsTrue (m.is_declared id.0 self.now.declared) }
        ensures { option_map (λ found. is_some found.initialized) (m.with_id id.0 self.now.declared) ≡ Some result }
    {
        self.table.get(id.0).unwrap().is_initialized()
    }

    /// The place that counts for an id where units are joined: that of the name in its definition, else
    /// in its first tentative definition, else in its first declaration (6.9.2, 6.9.3).
    pub fn joint_place(&self, id: DeclId) -> Place
        requires { IsTrue (m.is_declared id.0 self.now.declared) }
        ensures { option_map (λ found. j.joint_place found) (m.with_id id.0 self.now.declared) ≡ Some result }
    {
        self.table.get(id.0).unwrap().joint_place()
    }

    /// The number of ids that have a declaration.
    pub fn declared_count(&self) -> usize
        ensures { result ≡ length self.now.declared }
    {
        self.table.len()
    }

    /// The id of that rank, counted from 0 in the order of the first declarations, with its latest
    /// declaration; none where the rank isn't below the count.
    pub fn declared(&self, rank: usize) -> Option<(DeclId, &Entry)>
        ensures entry { option_map {U = ℕ × d.Declaration} (λ e. (e.0.0, e.1.now)) result ≡ option_map {U = ℕ × d.Declaration} (λ e. (e.0, e.1.latest)) (slice_get self.now.declared rank) }
        ensures same { (e : ℕ × m.Declared) → slice_get self.now.declared rank ≡ Some e → m.with_id e.0 self.now.declared ≡ Some e.1 }
        ensures declared { IfSome result (λ e. IsTrue (m.is_declared e.0.0 self.now.declared)) }
    {
        match self.table.at(rank) {
            Some((id, declared)) => Some((DeclId(id), declared.latest())),
            None => None,
        }
    }

    /// Gives the latest declaration of an id the type and the value that are known after its
    /// initializer.
    pub fn settle(&mut self, id: DeclId, ty: CType, value: Option<Const>)
        requires declared { IsTrue (m.is_declared id.0 self.old.declared) }
        requires known { IsTrue (t.knows self.old.structs ty) }
        requires fits { (found : m.Declared) → m.with_id id.0 self.old.declared ≡ Some found → IsTrue (d.fits (j.settled ty (value_if_any value) found).latest) }
        ensures { self.new ≡ j.settle id.0 ty (value_if_any value) self.old }
    {
        self.table.settle(id.0, ty, value);
    }

    /// Notes the place of the name in the declaration of an id that has its initializer or body. The
    /// first is kept.
    pub fn note_initialized(&mut self, id: DeclId, place: Place)
        requires { IsTrue (m.is_declared id.0 self.old.declared) }
        ensures { self.new ≡ j.note_initialized id.0 place self.old }
    {
        self.table.note_initialized(id.0, place);
    }

    /// Notes a use of an id that needs a definition, where it is an internal function.
    pub fn note_use(&mut self, id: DeclId, place: Place)
        requires { IsTrue (m.is_declared id.0 self.old.declared) }
        ensures { self.new ≡ u.note_use id.0 place self.old }
    {
        self.table.note(id.0, place);
    }

    /// C08 at the first noted use, in place order, of an internal function that no declaration defines;
    /// none where there is no such use.
    pub fn unresolved(&self) -> Option<Fault>
        ensures { result ≡ u.unresolved self.now }
    {
        match self.table.first_undefined() {
            Some(place) => Some(constraint_at(place, UNDEFINED_FUNCTION)),
            None => None,
        }
    }

    /// The linkage of a declaration with `extern`, or of a function without storage word: that of the
    /// earlier declaration of its name that is visible, where it has one; else external (6.2.2).
    pub fn extern_linkage(&self, name: &[u8]) -> Linkage
        ensures { result ≡ b.extern_linkage name.now self.now }
    {
        match self.declared_as(self.find(false, name)) {
            Some(earlier) => or_external(earlier.latest().own_linkage()),
            None => Linkage::External,
        }
    }

    /// Whether a function literal is entered, and the latest declaration of an id stands outside the
    /// innermost one.
    pub fn is_surrounding(&self, id: DeclId) -> bool
        requires { IsTrue (m.is_declared id.0 self.now.declared) }
        ensures { result ≡ b.is_surrounding id.0 self.now }
    {
        match self.innermost_literal() {
            Some(number) => is_before(self.table.get(id.0), number),
            None => false,
        }
    }

    /// The number of the innermost scope that is a function literal's.
    fn innermost_literal(&self) -> Option<u64>
        ensures { result ≡ b.innermost_literal (self.now.innermost ∷ self.now.around) }
    {
        if self.innermost.is_literal() {
            Some(self.innermost.number())
        } else {
            self.around.innermost_literal()
        }
    }

    /// The structures.
    pub fn structs(&self) -> &Structs
        ensures { result.now ≡ self.now.structs }
    {
        &self.structs
    }

    /// The structures, at the end of the unit.
    pub fn into_structs(self) -> Structs
        ensures { result ≡ self.structs }
    {
        self.structs
    }

    /// The number of ids drawn so far.
    pub fn ids(&self) -> u32
        ensures { result ≡ self.now.ids }
    {
        self.ids
    }

    /// Adds an incomplete structure, with its tag or none, and the place of its word `struct`. On
    /// refusal nothing has changed.
    pub fn add_struct(&mut self, tag: Option<Bytes>, place: Place) -> Result<StructId, NoMemory>
        requires { length self.old.structs < 4294967295 }
        ensures ok { OnOk result (self.new ≡ m.with_struct tag place self.old) }
        ensures id { IfOk result (λ id. id.0 ≡ length self.old.structs) }
        ensures err { OnErr result (self.new ≡ self.old) }
    {
        let outer = self.around.is_empty();
        self.structs.add(tag, outer, place)
    }

    /// Gives a structure its members.
    pub fn complete(&mut self, id: StructId, members: Members)
        requires there { id.0 < length self.old.structs }
        requires incomplete { t.members_of self.old.structs id ≡ None }
        requires some { 0 < length members }
        requires known { IsTrue (list_all (λ e. t.knows self.old.structs e.ty) members) }
        requires complete { IsTrue (list_all (λ e. l.is_complete self.old.structs e.ty) members) }
        ensures { self.new ≡ m.with_members id.0 members self.old }
    {
        self.structs.complete(id, members);
    }
}

/// Puts a scope into the innermost one. On refusal nothing has changed.
fn nest(innermost: &mut Level, around: &mut Around, level: Level) -> Result<(), NoMemory>
    ensures ok { OnOk result ((innermost.new ≡ level) × (around.new ≡ innermost.old ∷ around.old)) }
    ensures err { OnErr result ((innermost.new ≡ innermost.old) × (around.new ≡ around.old)) }
{
    let outer = mem::replace(innermost, level);
    match around.push(outer) {
        Ok(()) => Ok(()),
        Err(outer) => {
            *innermost = outer;
            Err(NoMemory)
        }
    }
}

/// Leaves the innermost scope for the one around it, if there is one.
fn unnest(innermost: &mut Level, around: &mut Around)
    ensures inner { (level : m.Level) (rest : List m.Level) → around.old ≡ level ∷ rest → (innermost.new ≡ level) × (around.new ≡ rest) }
    ensures outermost { around.old ≡ [] → (innermost.new ≡ innermost.old) × (around.new ≡ []) }
{
    if let Some(level) = around.pop() {
        *innermost = level;
    }
}

/// An id by its number.
fn numbered(id: Option<u32>) -> Option<DeclId>
    ensures { option_map (λ made. made.0) result ≡ id }
{
    match id {
        Some(id) => Some(DeclId(id)),
        None => None,
    }
}

/// Internal or external linkage; external where there is none.
fn or_external(linkage: Linkage) -> Linkage
    ensures { result ≡ b.or_external linkage }
{
    match linkage {
        Linkage::Absent => Linkage::External,
        Linkage::Internal => Linkage::Internal,
        Linkage::External => Linkage::External,
    }
}

/// Whether something is declared, in a scope that was entered before that of a number.
fn is_before(declared: Option<&Declared>, number: u64) -> bool
    ensures { result ≡ b.is_outside (Some number) (option_copied declared.entry) }
{
    match declared {
        Some(declared) => declared.scope() < number,
        None => false,
    }
}
