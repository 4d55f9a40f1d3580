//! The names of parameters, with their ranks.
ghost use Rattle.std.specs.Prelude.{◌≡◌, [], ◌∷◌, ◌++◌, length, not, is_some, if◌then◌else◌, slice_get, IfOk, MatchOption, Some, None};
ghost use Rattle.model_macros.specs.Macros as macros;
ghost use Rattle.model_macros.specs.ReplacementLists as lists;
ghost use Rattle.pp_definitions.specs.Names.{same_at};

use cake_base::NoMemory;
use indexmap::IndexSet;
use std::alloc::Global;
use std::marker::Model;

/// Names of which none stands twice. Contracts see their list.
pub struct Names {
    texts: IndexSet<Vec<u8>>,
}

impl Model for Names {
    ghost use Rattle.std.specs.Prelude.{List, ℕ, map};

    ghost Value = { List (List ℕ) };

    ghost view = { λ n. map (λ text. text.items) n.texts.keys };
}

impl Drop for Names {
    fn drop(self) {
        let Names { texts: _ } = self;
    }
}

impl Names {
    /// No names.
    pub fn new(alloc: Global) -> Names
        ensures { result ≡ [] }
    {
        Names {
            texts: IndexSet::new(alloc),
        }
    }

    /// The number of names.
    pub fn len(&self) -> usize
        ensures { result ≡ length self.now }
    {
        self.texts.len()
    }

    /// The rank of a name.
    pub fn rank(&self, name: &[u8]) -> Option<usize>
        ensures { result ≡ lists.rank name.now self.now }
    {
        self.texts.get_index_of(name)
    }

    /// Adds a name at the end, and tells whether it is new. A name that is there stays alone.
    pub fn add(&mut self, alloc: Global, name: &[u8]) -> Result<bool, NoMemory>
        ensures new { IfOk result (λ new. new ≡ not (is_some (lists.rank name.now self.old))) }
        ensures names { IfOk result (λ new. self.new ≡ (if new then self.old ++ name.now ∷ [] else self.old)) }
    {
        let text = Vec::from_slice(alloc, name)?;
        let new = self.texts.insert(text)?;
        Ok(new)
    }

    /// The name of that rank, counted from 0; none where the rank isn't below the number of names.
    fn get(&self, rank: usize) -> Option<&[u8]>
        ensures { MatchOption result (slice_get self.now rank ≡ None) (λ name. slice_get self.now rank ≡ Some name.now) }
    {
        match self.texts.get_index(rank) {
            Some(text) => Some(text.as_slice()),
            None => None,
        }
    }

    /// Whether both lists have the same name at that rank.
    fn same_at(&self, other: &Names, rank: usize) -> bool
        ensures { result ≡ same_at (slice_get self.now rank) (slice_get other.now rank) }
    {
        match self.get(rank) {
            Some(name) => match other.get(rank) {
                Some(text) => name == text,
                None => false,
            },
            None => false,
        }
    }

    /// Whether the names are the same, in the same order.
    pub fn same(&self, other: &Names) -> bool
        ensures { result ≡ macros.same_names self.now other.now }
    {
        if self.len() != other.len() {
            return false;
        }
        for rank in 0..self.len() {
            if !self.same_at(other, rank) {
                return false;
            }
        }
        true
    }
}
