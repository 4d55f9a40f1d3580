//! What preprocessing tells besides its answer.
ghost use Rattle.std.specs.Prelude.{◌≡◌, [], ◌∷◌, ◌++◌, length, slice_get, option_copied, OnOk, OnErr};

use cake_base::{FileName, NoMemory, Note};
use pp_lists::Notes;
use std::alloc::Global;
use std::marker::Model;

/// The names of files by their numbers, and the notes. Contracts see the record of both lists.
#[derive(Debug, Drop)]
pub struct PrepLog {
    names: Vec<FileName>,
    notes: Notes,
}

impl Model for PrepLog {
    ghost use Rattle.model_preprocessing.specs.Processes.{Log};

    ghost Value = { Log };

    ghost view = { λ l. record { names = l.names.items; notes = l.notes } };
}

impl PrepLog {
    /// A log of no file and no note.
    pub fn new(alloc: Global) -> PrepLog
        ensures { result ≡ record { names = []; notes = [] } }
    {
        PrepLog {
            names: Vec::new(alloc),
            notes: Notes::new(alloc),
        }
    }

    /// The name of the file of that number; none exactly where the log has no such number.
    pub fn file_name(&self, file: u32) -> Option<&str>
        ensures { option_copied result ≡ slice_get self.now.names file }
    {
        match self.names.get(file as usize) {
            Some(name) => Some(name.as_str()),
            None => None,
        }
    }

    /// The notes, in the order in which they were met.
    pub fn notes(&self) -> &Notes
        ensures { result.now ≡ self.now.notes }
    {
        &self.notes
    }

    /// The number of files.
    pub(crate) fn count(&self) -> usize
        ensures { result ≡ length self.now.names }
    {
        self.names.len()
    }

    /// Gives the next number to a file of that name.
    pub(crate) fn add_name(&mut self, name: FileName) -> Result<(), NoMemory>
        ensures ok { OnOk result (self.new ≡ record self.old { names = self.old.names ++ name ∷ [] }) }
        ensures err { OnErr result (self.new ≡ self.old) }
    {
        self.names.push(name)?;
        Ok(())
    }

    /// Adds a note.
    pub(crate) fn add_note(&mut self, note: Note) -> Result<(), NoMemory>
        ensures ok { OnOk result (self.new ≡ record self.old { notes = self.old.notes ++ note ∷ [] }) }
        ensures err { OnErr result (self.new ≡ self.old) }
    {
        self.notes.push(note)
    }
}
