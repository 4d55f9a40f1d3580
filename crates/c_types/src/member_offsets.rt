//! Offsets of members.
ghost use Rattle.std.specs.Prelude.{◌≡◌, ◌++◌, ◌∷◌, [], slice_get, slice_set, IfOk, OnOk, OnErr};

use cake_base::NoMemory;
use std::alloc::Global;
use std::marker::Model;

/// Offsets of the first members of a structure. Contracts see the list.
#[derive(Drop)]
pub struct Offsets {
    list: Vec<u64>,
}

impl Model for Offsets {
    ghost use Rattle.std.specs.Prelude.{List, ℕ};

    ghost Value = { List ℕ };

    ghost view = { λ a. a.list.items };
}

/// Keeps the offset of a rank, where there is room for it.
fn keep_at(list: &mut Vec<u64>, at: usize, offset: u64)
    ensures { list.new.items ≡ slice_set list.old.items at offset }
{
    if at < list.len() {
        list[at] = offset;
    }
}

impl Offsets {
    /// No room.
    pub fn new(alloc: Global) -> Offsets
        ensures { result ≡ [] }
    {
        Offsets {
            list: Vec::new(alloc),
        }
    }

    /// Makes room for the offset of one more member. On refusal nothing has changed.
    pub fn make_room(&mut self) -> Result<(), NoMemory>
        ensures ok { OnOk result (self.new ≡ self.old ++ 0 ∷ []) }
        ensures err { OnErr result (self.new ≡ self.old) }
    {
        match self.list.push(0) {
            Ok(()) => Ok(()),
            Err(_) => Err(NoMemory),
        }
    }

    /// Keeps the offset of the member of a rank, where there is room for it.
    pub fn keep(&mut self, at: usize, offset: u64)
        ensures { self.new ≡ slice_set self.old at offset }
    {
        keep_at(&mut self.list, at, offset);
    }

    /// What is kept for the member of a rank.
    pub fn get(&self, at: usize) -> Option<u64>
        ensures { result ≡ slice_get self.now at }
    {
        self.list.get(at).copied()
    }

    /// An equal list.
    pub fn copy(&self, alloc: Global) -> Result<Offsets, NoMemory>
        ensures { IfOk result (λ made. made ≡ self.now) }
    {
        Ok(Offsets {
            list: Vec::from_slice(alloc, self.list.as_slice())?,
        })
    }

    /// What the list takes its memory from.
    pub fn allocator(&self) -> Global {
        *self.list.allocator()
    }
}
