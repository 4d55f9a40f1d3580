//! The list of findings.
ghost use Rattle.std.specs.Prelude.{◌≡◌, [], ◌∷◌, ◌++◌, length, OnOk, OnErr, slice_get};
ghost use Rattle.std.specs.Option.{option_copied};

use cake_base::{Fault, NoMemory};
use std::alloc::Global;
use std::marker::Model;

/// Findings in a row. Contracts see a list.
#[derive(Debug, Drop)]
pub struct Findings {
    items: Vec<Fault>,
}

impl Model for Findings {
    ghost use Rattle.std.specs.Prelude.{List};
    ghost use Rattle.cake_base.specs.declared.rules.Fault.{Fault};

    ghost Value = { List Fault };

    ghost view = { λ f. f.items.items };
}

impl Findings {
    /// No findings.
    pub fn new(alloc: Global) -> Findings
        ensures { result ≡ [] }
    {
        Findings {
            items: Vec::new(alloc),
        }
    }

    /// Adds one. Unchanged on refusal.
    pub fn push(&mut self, item: Fault) -> Result<(), NoMemory>
        ensures ok { OnOk result (self.new ≡ self.old ++ item ∷ []) }
        ensures err { OnErr result (self.new ≡ self.old) }
    {
        self.items.push(item)?;
        Ok(())
    }

    /// How many there are.
    pub fn count(&self) -> usize
        ensures { result ≡ length self.now }
    {
        self.items.len()
    }

    /// The finding of that rank, counted from 0; none exactly where there are no more than `at`.
    pub fn get(&self, at: usize) -> Option<&Fault>
        ensures { option_copied result ≡ slice_get self.now at }
    {
        self.items.get(at)
    }
}
