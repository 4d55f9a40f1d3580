//! The members of a structure.
ghost use Rattle.std.specs.Prelude.{◌≡◌, ◌<◌, ◌≤◌, ◌^◌, [], ◌∷◌, ◌++◌, length, position, slice_get, Some, IfOk, OnOk, OnErr};
ghost use Rattle.std.specs.Option.{option_map};
ghost use Rattle.model_types.specs.Texts.{same_text};
ghost use Rattle.c_types.specs.Ranks as s;

use crate::member_offsets::Offsets;
use crate::ranks::Ranks;
use crate::types::CType;
use cake_base::{Bytes, NoMemory, Place};
use std::alloc::Global;
use std::marker::Model;
use std::mem;

/// A member, with the place of its name.
#[derive(Drop)]
pub struct Member {
    name: Bytes,
    ty: CType,
    place: Place,
}

impl Model for Member {
    ghost use Rattle.model_types.specs.Structures as m;
    ghost use Rattle.model_types.specs.apparatus.TypesCode.{coded_member};

    ghost Value = { m.Member };

    ghost coded = { coded_member };

    ghost view = { λ a. record { name = a.name; ty = a.ty; place = a.place } };
}

impl Member {
    /// The name.
    pub fn name(&self) -> &Bytes
        ensures { result.now ≡ self.now.name }
    {
        &self.name
    }

    /// The type.
    pub fn ty(&self) -> &CType
        ensures { result.now ≡ self.now.ty }
    {
        &self.ty
    }

    /// The place of the name.
    pub fn place(&self) -> Place
        ensures { result ≡ self.now.place }
    {
        self.place
    }

    /// An equal member.
    pub fn copy(&self, alloc: Global) -> Result<Member, NoMemory>
        ensures { IfOk result (λ made. made ≡ self.now) }
    {
        Ok(Member {
            name: Bytes::of(alloc, self.name.as_slice())?,
            ty: self.ty.copy(alloc)?,
            place: self.place,
        })
    }
}

/// The members of a structure in order, at most 4,294,967,295 of them. Contracts see a list.
///
/// Beside them stand their ranks by name, and room for their offsets, so that a structure is completed
/// without more memory.
#[derive(Drop)]
pub struct Members {
    items: Vec<Member>,
    ranks: Ranks,
    room: Offsets,
}

impl Model for Members {
    ghost use Rattle.std.specs.Prelude.{List};
    ghost use Rattle.std.specs.Coded.{coded_list};
    ghost use Rattle.model_types.specs.Structures as m;
    ghost use Rattle.model_types.specs.apparatus.TypesCode.{coded_member};

    ghost Value = { List m.Member };

    ghost coded = { coded_list coded_member };

    ghost view = { λ a. a.items.items };

    ghost use Rattle.c_types.specs.Ranks.{IsRanked};

    ghost invariant = { λ a. IsRanked a.items.items a.ranks };
}

impl Members {
    /// No members.
    pub fn new(alloc: Global) -> Members
        ensures { result ≡ [] }
    {
        Members {
            items: Vec::new(alloc),
            ranks: Ranks::new(alloc),
            room: Offsets::new(alloc),
        }
    }

    /// Adds a member at the end, with the place of its name. On refusal nothing has changed, and the
    /// name and the type are dropped.
    pub fn push(&mut self, name: Bytes, ty: CType, place: Place) -> Result<(), NoMemory>
        requires { length self.old < 4294967295 }
        ensures ok { OnOk result (self.new ≡ self.old ++ record { name = name; ty = ty; place = place } ∷ []) }
        ensures err { OnErr result (self.new ≡ self.old) }
    {
        self.add(Member { name, ty, place })
    }

    fn add(&mut self, member: Member) -> Result<(), NoMemory>
        requires { length self.old < 4294967295 }
        ensures ok { OnOk result (self.new ≡ self.old ++ member ∷ []) }
        ensures err { OnErr result (self.new ≡ self.old) }
    {
        self.room.make_room()?;
        put(&mut self.items, &mut self.ranks, member)
    }

    /// Takes the room for offsets away.
    pub(crate) fn take_room(&mut self) -> Offsets
        ensures { self.new ≡ self.old }
    {
        let none = Offsets::new(self.room.allocator());
        mem::replace(&mut self.room, none)
    }

    /// The number of members.
    pub fn count(&self) -> u32
        ensures { result ≡ length self.now }
    {
        self.items.len() as u32
    }

    /// The name of the member of a rank, counted from 0.
    pub fn name(&self, at: u32) -> &Bytes
        requires { at < length self.now }
        ensures { option_map (λ m. m.name) (slice_get self.now at) ≡ Some result.now }
    {
        self.items[at as usize].name()
    }

    /// The type of the member of a rank, counted from 0.
    pub fn ty(&self, at: u32) -> &CType
        requires { at < length self.now }
        ensures { option_map (λ m. m.ty) (slice_get self.now at) ≡ Some result.now }
    {
        self.items[at as usize].ty()
    }

    /// The place of the name of the member of a rank, counted from 0.
    pub fn place(&self, at: u32) -> Place
        requires { at < length self.now }
        ensures { option_map (λ m. m.place) (slice_get self.now at) ≡ Some result }
    {
        self.items[at as usize].place()
    }

    /// The rank of the first member of that name; none where there is none.
    pub fn rank(&self, name: &[u8]) -> Option<u32>
        ensures { result ≡ position (λ m. same_text name.now m.name) self.now }
    {
        self.ranks.get(name)
    }

    /// The members in order.
    pub fn as_slice(&self) -> &[Member]
        ensures { result.now ≡ self.now }
    {
        &self.items
    }

    /// An equal list.
    pub fn copy(&self, alloc: Global) -> Result<Members, NoMemory>
        ensures { IfOk result (λ made. made ≡ self.now) }
    {
        copy_all(alloc, &self.items)
    }
}

/// Adds a member with the rank of its name. On refusal nothing has changed.
fn put(items: &mut Vec<Member>, ranks: &mut Ranks, member: Member) -> Result<(), NoMemory>
    requires { length items.old.items < 4294967295 }
    ensures ok { OnOk result ((items.new.items ≡ items.old.items ++ member ∷ []) × (ranks.new ≡ s.noted member.name (length items.old.items) ranks.old)) }
    ensures err { OnErr result ((items.new.items ≡ items.old.items) × (ranks.new ≡ ranks.old)) }
{
    items.reserve(1)?;
    ranks.note(member.name().as_slice(), items.len() as u32)?;
    items.push(member)?;
    Ok(())
}

fn copy_all(alloc: Global, members: &[Member]) -> Result<Members, NoMemory>
    requires { length members.now < 2 ^ 32 }
    ensures { IfOk result (λ made. made ≡ members.now) }
{
    let mut made = Members::new(alloc);
    for member in members {
        made.add(member.copy(alloc)?)?;
    }
    Ok(made)
}
