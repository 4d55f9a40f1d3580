//! Lists of marks and of notes.
ghost use Rattle.std.specs.Prelude.{◌≡◌, ◌<◌, ◌^◌, [], ◌∷◌, ◌++◌, length, slice_get, option_copied, OnOk, OnErr};

use cake_base::{Mark, NoMemory, Note};
use std::alloc::Global;
use std::marker::Model;

/// A list of marks, which diagnostic pragmas leave.
#[derive(Debug, Drop)]
pub struct Marks {
    items: Vec<Mark>,
}

impl Model for Marks {
    ghost use Rattle.std.specs.Prelude.{List};
    ghost use Rattle.cake_base.specs.declared.rules.Mark.{Mark};

    ghost Value = { List Mark };

    ghost view = { λ l. l.items.items };
}

impl Marks {
    /// The empty list.
    pub fn new(alloc: Global) -> Self
        ensures { result ≡ [] }
    {
        Marks {
            items: Vec::new(alloc),
        }
    }

    /// Adds a mark at the end. After a refusal the list is as before, and the mark is dropped.
    pub fn push(&mut self, item: Mark) -> Result<(), NoMemory>
        ensures ok { OnOk result (self.new ≡ self.old ++ item ∷ []) }
        ensures err { OnErr result (self.new ≡ self.old) }
    {
        self.items.push(item)?;
        Ok(())
    }

    /// The number of marks.
    pub fn count(&self) -> usize
        ensures value { result ≡ length self.now }
        ensures bound { result < 2 ^ 63 }
    {
        self.items.len()
    }

    /// The mark of this rank, counted from 0; none exactly where `at` isn't below the count.
    pub fn get(&self, at: usize) -> Option<&Mark>
        ensures { option_copied result ≡ slice_get self.now at }
    {
        self.items.get(at)
    }
}

/// A list of notes, which `#error` and `#warning` leave.
#[derive(Debug, Drop)]
pub struct Notes {
    items: Vec<Note>,
}

impl Model for Notes {
    ghost use Rattle.std.specs.Prelude.{List};
    ghost use Rattle.cake_base.specs.declared.rules.Note.{Note};

    ghost Value = { List Note };

    ghost view = { λ l. l.items.items };
}

impl Notes {
    /// The empty list.
    pub fn new(alloc: Global) -> Self
        ensures { result ≡ [] }
    {
        Notes {
            items: Vec::new(alloc),
        }
    }

    /// Adds a note at the end. After a refusal the list is as before, and the note is dropped.
    pub fn push(&mut self, item: Note) -> Result<(), NoMemory>
        ensures ok { OnOk result (self.new ≡ self.old ++ item ∷ []) }
        ensures err { OnErr result (self.new ≡ self.old) }
    {
        self.items.push(item)?;
        Ok(())
    }

    /// The number of notes.
    pub fn count(&self) -> usize
        ensures value { result ≡ length self.now }
        ensures bound { result < 2 ^ 63 }
    {
        self.items.len()
    }

    /// The note of this rank, counted from 0; none exactly where `at` isn't below the count.
    pub fn get(&self, at: usize) -> Option<&Note>
        ensures { option_copied result ≡ slice_get self.now at }
    {
        self.items.get(at)
    }
}
