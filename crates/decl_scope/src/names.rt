//! Names with their ids.
ghost use Rattle.std.specs.Prelude.{◌≡◌, ◌++◌, ◌∷◌, [], ℕ, List, None, OnOk, OnErr};
ghost use Rattle.model_scopes.specs.Binding as b;

use cake_base::NoMemory;
use indexmap::IndexMap;
use std::alloc::Global;
use std::marker::Model;

/// Names with their ids, in the order in which they came. Contracts see the list.
#[derive(Drop)]
pub struct Names {
    ids: IndexMap<Vec<u8>, u32>,
}

impl Model for Names {
    ghost use Rattle.std.specs.Prelude.{List, ℕ, map};

    ghost Value = { List (List ℕ × ℕ) };

    ghost view = { λ n. map (λ e. (e.0.items, e.1)) n.ids.entries };
}

impl Names {
    /// No names.
    pub fn new(alloc: Global) -> Names
        ensures { result ≡ [] }
    {
        Names {
            ids: IndexMap::new(alloc),
        }
    }

    /// The id of a name, if it is there.
    pub fn get(&self, name: &[u8]) -> Option<u32>
        ensures { result ≡ b.bound name.now self.now }
    {
        self.ids.get(name).copied()
    }

    /// Adds a name that isn't there. On refusal nothing has changed.
    pub fn add(&mut self, name: &[u8], id: u32) -> Result<(), NoMemory>
        requires { b.bound name.now self.old ≡ None }
        ensures ok { OnOk result (self.new ≡ self.old ++ (name.now, id) ∷ []) }
        ensures err { OnErr result (self.new ≡ self.old) }
    {
        let name = Vec::from_slice(*self.ids.allocator(), name)?;
        self.ids.insert(name, id)?;
        Ok(())
    }

    /// Takes the last name away.
    pub fn forget_last(&mut self)
        ensures { (rest : List (List ℕ × ℕ)) (last : List ℕ × ℕ) → self.old ≡ rest ++ last ∷ [] → self.new ≡ rest }
    {
        self.ids.pop();
    }
}
