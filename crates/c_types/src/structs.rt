//! The structures of a unit.
ghost use Rattle.std.specs.Prelude.{◌≡◌, ◌<◌, ◌≤◌, [], ◌∷◌, ◌++◌, length, slice_get, Some, None, is_some, IfOk, IfSome, OnOk, OnErr, IsTrue};
ghost use Rattle.std.specs.Option.{option_map, option_copied};
ghost use Rattle.std.specs.List.{list_all};
ghost use Rattle.model_types.specs.Structures as m;
ghost use Rattle.model_types.specs.Layout as l;
ghost use Rattle.c_types.specs.Extents as s;
ghost use Rattle.c_types.specs.Tables.{body_of, with_body, offset_kept, IsOffset};

use crate::extents::Extent;
use crate::layout::structure_extent;
use crate::member_offsets::Offsets;
use crate::members::Members;
use cake_base::{Bytes, NoMemory, Place};
use model_types::types::StructId;
use std::alloc::Global;
use std::marker::Model;

/// The members of a complete structure, with its size and alignment, and with their offsets, as many as
/// there was room for.
#[derive(Drop)]
pub struct Body {
    members: Members,
    extent: Extent,
    offsets: Offsets,
}

/// A structure, with its body once it is complete.
#[derive(Drop)]
pub struct Entry {
    tag: Option<Bytes>,
    outer: bool,
    place: Place,
    body: Option<Body>,
}

/// The structures of a unit in the order in which they were added, at most 4,294,967,295 of them.
/// Contracts see a list.
#[derive(Drop)]
pub struct Structs {
    entries: Vec<Entry>,
}

impl Model for Structs {
    ghost use Rattle.std.specs.Prelude.{List};
    ghost use Rattle.std.specs.Coded.{coded_list};
    ghost use Rattle.model_types.specs.Structures as m;
    ghost use Rattle.model_types.specs.apparatus.TypesCode.{coded_structure};

    ghost Value = { List m.Structure };

    ghost coded = { coded_list coded_structure };

    ghost use Rattle.c_types.specs.Tables.{structures, IsTable};

    ghost view = { λ a. structures a.entries.items };

    ghost invariant = { λ a. IsTable a.entries.items };
}

/// The body of the entry of a rank, where it is there and complete.
fn body_at(entries: &[Entry], at: usize) -> Option<&Body>
    ensures { option_copied result ≡ body_of (slice_get entries.now at) }
{
    match entries.get(at) {
        Some(entry) => entry.body.as_ref(),
        None => None,
    }
}

/// The offset that is kept for the member of a rank.
fn offset_at(body: &Body, at: usize) -> Option<u64>
    ensures { result ≡ offset_kept body.now.members body.now.offsets at }
{
    if at < body.members.count() as usize {
        body.offsets.get(at)
    } else {
        None
    }
}

/// Gives the entry of a rank its body.
fn set_body(entries: &mut Vec<Entry>, at: usize, body: Body)
    requires { at < length entries.old.items }
    ensures { entries.new.items ≡ with_body entries.old.items at body }
{
    let entry = &mut entries[at];
    entry.body = Some(body);
}

impl Structs {
    /// No structures.
    pub fn new(alloc: Global) -> Structs
        ensures { result ≡ [] }
    {
        Structs {
            entries: Vec::new(alloc),
        }
    }

    /// Adds an incomplete structure, with its tag or none, whether it stands at file scope, and the
    /// place of its word `struct`. Nothing has changed on refusal.
    pub fn add(
        &mut self,
        tag: Option<Bytes>,
        outer: bool,
        place: Place,
    ) -> Result<StructId, NoMemory>
        requires { length self.old < 4294967295 }
        ensures ok { OnOk result (self.new ≡ self.old ++ record { tag = tag; outer = outer; place = place; members = None } ∷ []) }
        ensures id { IfOk result (λ id. id.0 ≡ length self.old) }
        ensures err { OnErr result (self.new ≡ self.old) }
    {
        let id = StructId(self.entries.len() as u32);
        self.entries.push(Entry {
            tag,
            outer,
            place,
            body: None,
        })?;
        Ok(id)
    }

    /// Gives a structure its members, and keeps its size and alignment, and their offsets, beside them.
    pub fn complete(&mut self, id: StructId, members: Members)
        requires there { id.0 < length self.old }
        requires incomplete { m.members_of self.old id ≡ None }
        requires some { 0 < length members }
        requires known { IsTrue (list_all (λ e. m.knows self.old e.ty) members) }
        requires complete { IsTrue (list_all (λ e. l.is_complete self.old e.ty) members) }
        ensures { self.new ≡ m.completed self.old id.0 members }
    {
        let mut members = members;
        let mut offsets = members.take_room();
        if let Some(extent) = structure_extent(self, members.as_slice(), &mut offsets) {
            set_body(
                &mut self.entries,
                id.0 as usize,
                Body {
                    members,
                    extent,
                    offsets,
                },
            );
        }
    }

    /// The members of a structure; none exactly where it is incomplete.
    pub fn members(&self, id: StructId) -> Option<&Members>
        requires { id.0 < length self.now }
        ensures members { option_copied result ≡ m.members_of self.now id }
        ensures known { IfSome result (λ ms. IsTrue (list_all (λ e. m.knows self.now e.ty) ms.now)) }
    {
        self.find_members(id)
    }

    /// The members of a structure that is there and complete.
    pub fn find_members(&self, id: StructId) -> Option<&Members>
        ensures members { option_copied result ≡ m.members_of self.now id }
        ensures laid { is_some result ≡ is_some (l.layout_in self.now id) }
        ensures known { IfSome result (λ ms. IsTrue (list_all (λ e. m.knows self.now e.ty) ms.now)) }
    {
        match body_at(&self.entries, id.0 as usize) {
            Some(body) => Some(&body.members),
            None => None,
        }
    }

    /// The size and alignment of a structure that is there and complete.
    pub fn extent(&self, id: StructId) -> Option<Extent>
        ensures { result ≡ option_map s.kept (l.layout_in self.now id) }
    {
        match body_at(&self.entries, id.0 as usize) {
            Some(body) => Some(body.extent),
            None => None,
        }
    }

    /// The offset that is kept for the member of a rank of a structure that is there and complete.
    pub(crate) fn kept_offset(&self, id: StructId, at: usize) -> Option<u64>
        ensures { IsOffset self.now (m.members_of self.now id) at result }
    {
        match body_at(&self.entries, id.0 as usize) {
            Some(body) => offset_at(body, at),
            None => None,
        }
    }

    /// What the table takes its memory from.
    pub(crate) fn allocator(&self) -> Global {
        *self.entries.allocator()
    }

    /// The number of structures.
    pub fn count(&self) -> u32
        ensures { result ≡ length self.now }
    {
        self.entries.len() as u32
    }

    /// The tag of a structure, where it has one.
    pub fn tag(&self, id: StructId) -> Option<&Bytes>
        requires { id.0 < length self.now }
        ensures { option_map (λ e. e.tag) (slice_get self.now id.0) ≡ Some (option_copied result) }
    {
        let entry = &self.entries[id.0 as usize];
        entry.tag.as_ref()
    }

    /// Whether a structure stands at file scope.
    pub fn is_outer(&self, id: StructId) -> bool
        requires { id.0 < length self.now }
        ensures { option_map (λ e. e.outer) (slice_get self.now id.0) ≡ Some result }
    {
        let entry = &self.entries[id.0 as usize];
        entry.outer
    }

    /// The place of the word `struct` of a structure.
    pub fn place(&self, id: StructId) -> Place
        requires { id.0 < length self.now }
        ensures { option_map (λ e. e.place) (slice_get self.now id.0) ≡ Some result }
    {
        let entry = &self.entries[id.0 as usize];
        entry.place
    }

    /// An equal list.
    pub fn copy(&self, alloc: Global) -> Result<Structs, NoMemory>
        ensures { IfOk result (λ made. made ≡ self.now) }
    {
        let entries = copy_entries(alloc, &self.entries)?;
        Ok(Structs { entries })
    }
}

fn copy_entries(alloc: Global, entries: &[Entry]) -> Result<Vec<Entry>, NoMemory>
    ensures { IfOk result (λ made. made.items ≡ entries.now) }
{
    let mut made = Vec::new(alloc);
    for entry in entries {
        made.push(copy_entry(alloc, entry)?)?;
    }
    Ok(made)
}

fn copy_entry(alloc: Global, entry: &Entry) -> Result<Entry, NoMemory>
    ensures { IfOk result (λ made. made ≡ entry.now) }
{
    Ok(Entry {
        tag: copy_tag(alloc, &entry.tag)?,
        outer: entry.outer,
        place: entry.place,
        body: copy_body(alloc, &entry.body)?,
    })
}

fn copy_tag(alloc: Global, tag: &Option<Bytes>) -> Result<Option<Bytes>, NoMemory>
    ensures { IfOk result (λ made. made ≡ tag.now) }
{
    match tag {
        Some(tag) => Ok(Some(Bytes::of(alloc, tag.as_slice())?)),
        None => Ok(None),
    }
}

fn copy_body(alloc: Global, body: &Option<Body>) -> Result<Option<Body>, NoMemory>
    ensures { IfOk result (λ made. made ≡ body.now) }
{
    match body {
        Some(body) => Ok(Some(Body {
            members: copy_members(alloc, &body.members)?,
            extent: body.extent,
            offsets: body.offsets.copy(alloc)?,
        })),
        None => Ok(None),
    }
}

/// An equal list, without room for offsets.
fn copy_members(alloc: Global, members: &Members) -> Result<Members, NoMemory>
    ensures { IfOk result (λ made. made ≡ members.now) }
{
    let mut made = members.copy(alloc)?;
    let _ = made.take_room();
    Ok(made)
}
