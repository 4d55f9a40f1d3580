//! The ranks of members by their names.
ghost use Rattle.std.specs.Prelude.{◌≡◌, ◌++◌, ◌∷◌, [], None, OnOk, OnErr};
ghost use Rattle.c_types.specs.Ranks as s;

use cake_base::NoMemory;
use indexmap::IndexMap;
use std::alloc::Global;
use std::marker::Model;

/// Names with their ranks, in the order in which they came. Contracts see the list.
#[derive(Drop)]
pub struct Ranks {
    ranks: IndexMap<Vec<u8>, u32>,
}

impl Model for Ranks {
    ghost use Rattle.std.specs.Prelude.{List, ℕ, map};

    ghost Value = { List (List ℕ × ℕ) };

    ghost view = { λ n. map (λ e. (e.0.items, e.1)) n.ranks.entries };
}

impl Ranks {
    /// No names.
    pub fn new(alloc: Global) -> Ranks
        ensures { result ≡ [] }
    {
        Ranks {
            ranks: IndexMap::new(alloc),
        }
    }

    /// The rank of a name, if it is there.
    pub fn get(&self, name: &[u8]) -> Option<u32>
        ensures { result ≡ s.rank_in name.now self.now }
    {
        self.ranks.get(name).copied()
    }

    /// Adds a name that isn't there. On refusal nothing has changed.
    fn add(&mut self, name: &[u8], rank: u32) -> Result<(), NoMemory>
        requires { s.rank_in name.now self.old ≡ None }
        ensures ok { OnOk result (self.new ≡ self.old ++ (name.now, rank) ∷ []) }
        ensures err { OnErr result (self.new ≡ self.old) }
    {
        let name = Vec::from_slice(*self.ranks.allocator(), name)?;
        self.ranks.insert(name, rank)?;
        Ok(())
    }

    /// Adds a name with its rank; one that is there keeps the rank that it has. On refusal nothing has
    /// changed.
    pub fn note(&mut self, name: &[u8], rank: u32) -> Result<(), NoMemory>
        ensures ok { OnOk result (self.new ≡ s.noted name.now rank self.old) }
        ensures err { OnErr result (self.new ≡ self.old) }
    {
        match self.get(name) {
            Some(_) => Ok(()),
            None => self.add(name, rank),
        }
    }
}
