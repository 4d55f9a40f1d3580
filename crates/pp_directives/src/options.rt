//! What the command sets before the first line.
ghost use Rattle.std.specs.Prelude.{◌≡◌, ◌<◌, ◌^◌, [], ◌∷◌, ◌++◌, length, map, slice_get, option_copied, OnOk, OnErr};
ghost use Rattle.std.specs.Option.{option_map};

use cake_base::{Bytes, FileName, NoMemory};
use std::alloc::Global;
use std::marker::Model;

/// A macro that the command defines.
#[derive(Debug, Drop)]
struct Definition {
    name: Bytes,
    value: Bytes,
}

/// The macros that the command defines, each with its value, and the directories in which it looks
/// for files. Contracts see the record of both lists.
#[derive(Debug, Drop)]
pub struct Options {
    alloc: Global,
    defines: Vec<Definition>,
    dirs: Vec<FileName>,
}

impl Model for Options {
    ghost use Rattle.std.specs.Prelude.{map};
    ghost use Rattle.model_preprocessing.specs.PreprocessedUnit.{Options};

    ghost Value = { Options };

    ghost view = { λ o. record { defines = map (λ d. (d.name, d.value)) o.defines.items; dirs = o.dirs.items } };
}

impl Options {
    /// No macro and no directory.
    pub fn new(alloc: Global) -> Options
        ensures { result ≡ record { defines = []; dirs = [] } }
    {
        Options {
            alloc,
            defines: Vec::new(alloc),
            dirs: Vec::new(alloc),
        }
    }

    /// Adds the line `#define name value` (`-D`). After a refusal nothing has changed.
    pub fn define(&mut self, name: &[u8], value: &[u8]) -> Result<(), NoMemory>
        ensures ok { OnOk result (self.new ≡ record self.old { defines = self.old.defines ++ (name.now, value.now) ∷ [] }) }
        ensures err { OnErr result (self.new ≡ self.old) }
    {
        let name = Bytes::of(self.alloc, name)?;
        let value = Bytes::of(self.alloc, value)?;
        self.defines.push(Definition { name, value })?;
        Ok(())
    }

    /// Adds a directory (`-I`). After a refusal nothing has changed.
    pub fn dir(&mut self, name: &str) -> Result<(), NoMemory>
        ensures ok { OnOk result (self.new ≡ record self.old { dirs = self.old.dirs ++ name.now ∷ [] }) }
        ensures err { OnErr result (self.new ≡ self.old) }
    {
        self.dirs.push(FileName::new(self.alloc, name)?)?;
        Ok(())
    }

    /// The number of macros.
    pub fn define_count(&self) -> usize
        ensures value { result ≡ length self.now.defines }
        ensures bound { result < 2 ^ 63 }
    {
        self.defines.len()
    }

    /// The name of the macro of this rank, counted from 0; none exactly where `at` isn't below their
    /// number.
    pub fn name(&self, at: usize) -> Option<&[u8]>
        ensures { option_copied result ≡ option_map (λ d. d.0) (slice_get self.now.defines at) }
    {
        match self.defines.get(at) {
            Some(definition) => Some(definition.name.as_slice()),
            None => None,
        }
    }

    /// The value of the macro of this rank.
    pub fn value(&self, at: usize) -> Option<&[u8]>
        ensures { option_copied result ≡ option_map (λ d. d.1) (slice_get self.now.defines at) }
    {
        match self.defines.get(at) {
            Some(definition) => Some(definition.value.as_slice()),
            None => None,
        }
    }

    /// The number of directories.
    pub fn dir_count(&self) -> usize
        ensures value { result ≡ length self.now.dirs }
        ensures bound { result < 2 ^ 63 }
    {
        self.dirs.len()
    }

    /// The directory of this rank, counted from 0; none exactly where `at` isn't below their number.
    pub fn dir_name(&self, at: usize) -> Option<&str>
        ensures { option_copied result ≡ slice_get self.now.dirs at }
    {
        match self.dirs.get(at) {
            Some(name) => Some(name.as_str()),
            None => None,
        }
    }
}
