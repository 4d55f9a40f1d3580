//! The words of a table. Each tree is a word and what belongs to it, in the order of the tree's parts; a list stands
//! between `[` and `]`.
use crate::faults::Fault;
use cake_base::Bytes;
use std::alloc::Global;

/// How many elements a list may have.
pub const LONGEST: usize = 10_000_000;

/// How deep trees may nest.
pub const DEEPEST: u64 = 10_000;

/// The words of a table, of which the first so many have been taken.
#[derive(Drop)]
pub struct Words<'a> {
    pub alloc: Global,
    all: &'a [&'a str],
    taken: usize,
}

impl<'a> Words<'a> {
    pub fn new(alloc: Global, all: &'a [&'a str]) -> Self {
        Words {
            alloc,
            all,
            taken: 0,
        }
    }

    /// Whether all words have been taken.
    pub fn is_empty(&self) -> bool {
        self.taken >= self.all.len()
    }

    pub fn word(&mut self) -> Result<&'a str, Fault> {
        let Some(word) = self.all.get(self.taken) else {
            return Err(Fault::Word);
        };
        self.taken += 1;
        Ok(word)
    }

    /// The next word, which has to be this one.
    pub fn skip(&mut self, wanted: &str) -> Result<(), Fault> {
        if self.word()? == wanted {
            Ok(())
        } else {
            Err(Fault::Word)
        }
    }

    /// The next word, unless it ends a list.
    pub fn element(&mut self) -> Result<Option<&'a str>, Fault> {
        let word = self.word()?;
        Ok(if word == "]" { None } else { Some(word) })
    }

    pub fn number(&mut self) -> Result<u64, Fault> {
        match self.word()?.parse::<u64>() {
            Ok(number) => Ok(number),
            Err(_) => Err(Fault::Word),
        }
    }

    pub fn name(&mut self) -> Result<Bytes, Fault> {
        let word = self.word()?;
        self.bytes_of(word)
    }

    pub fn bytes_of(&self, word: &str) -> Result<Bytes, Fault> {
        Ok(Bytes::of(self.alloc, word.as_bytes())?)
    }
}
