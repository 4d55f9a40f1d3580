//! The numbers of files by their names.
ghost use Rattle.std.specs.Prelude.{◌≡◌, ◌∷◌, ◌++◌, [], map, length, None, OnOk};
ghost use Rattle.model_preprocessing.specs.Sources.{number_of};

use cake_base::NoMemory;
use indexmap::IndexMap;
use std::alloc::Global;
use std::marker::Model;

/// Names of files with their numbers, in the order in which they were taken. Contracts see the list.
pub struct FileNumbers {
    map: IndexMap<Vec<u8>, u32>,
}

impl Model for FileNumbers {
    ghost use Rattle.std.specs.Prelude.{ℕ, List};
    ghost use Rattle.pp_lines.specs.Numbers.{texts};

    ghost Value = { List (List ℕ × ℕ) };

    ghost view = { λ f. texts (λ k. k.items) f.map.entries };
}

impl Drop for FileNumbers {
    fn drop(self) {
        let FileNumbers { map: _ } = self;
    }
}

impl FileNumbers {
    /// No file.
    pub fn new(alloc: Global) -> FileNumbers
        ensures { result ≡ [] }
    {
        FileNumbers {
            map: IndexMap::new(alloc),
        }
    }

    /// The number of the file of that name, if it was taken.
    pub fn find(&self, name: &[u8]) -> Option<u32>
        ensures { result ≡ number_of name.now self.now }
    {
        self.map.get(name).copied()
    }

    /// How many there are.
    pub fn count(&self) -> usize
        ensures { result ≡ length self.now }
    {
        self.map.len()
    }

    /// Adds a file of a new name.
    pub fn add(&mut self, alloc: Global, name: &[u8], file: u32) -> Result<(), NoMemory>
        requires { number_of name.now self.old ≡ None }
        ensures { OnOk result (self.new ≡ self.old ++ (name.now, file) ∷ []) }
    {
        let key = Vec::from_slice(alloc, name)?;
        self.map.insert(key, file)?;
        Ok(())
    }
}
