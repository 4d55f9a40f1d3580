//! The conditionals of a file that are open.
ghost use Rattle.std.specs.Prelude.{◌≡◌, ◌∷◌, [], List, if◌then◌else◌, OnOk, MatchOption};
ghost use Rattle.model_preprocessing.specs.declared.directives.Conditional.{Conditional};
ghost use Rattle.model_preprocessing.specs.Conditionals as spec;

use cake_base::{NoMemory, Place};
use model_preprocessing::directives::{Conditional, Group};
use std::alloc::Global;
use std::marker::Model;

/// The conditionals of a file that aren't ended. Contracts see their list, the innermost first.
#[derive(Drop)]
pub struct Conditionals {
    stack: Vec<Conditional>,
}

impl Model for Conditionals {
    ghost use Rattle.std.specs.Prelude.{reverse};
    ghost use Rattle.model_preprocessing.specs.Conditionals as spec;

    ghost Value = { spec.Conditionals };

    ghost view = { λ c. reverse c.stack.items };
}

fn is_taken(group: Group) -> bool
    ensures { result ≡ spec.is_taken group }
{
    match group {
        Group::Taken => true,
        Group::Sought => false,
        Group::Passed => false,
    }
}

/// The group after `#else`.
pub fn else_group(group: Group) -> Group
    ensures { result ≡ spec.else_group group }
{
    match group {
        Group::Taken => Group::Passed,
        Group::Sought => Group::Taken,
        Group::Passed => Group::Passed,
    }
}

/// The group that a condition begins.
pub fn group_where(holds: bool) -> Group
    ensures { result ≡ (if holds then Group.Taken else Group.Sought) }
{
    if holds { Group::Taken } else { Group::Sought }
}

impl Conditionals {
    /// None.
    pub fn new(alloc: Global) -> Conditionals
        ensures { result ≡ [] }
    {
        Conditionals {
            stack: Vec::new(alloc),
        }
    }

    /// Whether a line here is translated.
    pub fn is_translated(&self) -> bool
        ensures { result ≡ spec.is_translated self.now }
    {
        match self.stack.last() {
            Some(innermost) => is_taken(innermost.group),
            None => true,
        }
    }

    /// The innermost one.
    pub fn first(&self) -> Option<Conditional>
        ensures { MatchOption result (self.now ≡ []) (λ c. (rest : List Conditional) × (self.now ≡ c ∷ rest)) }
    {
        self.stack.last().copied()
    }

    /// Takes the innermost one away.
    pub fn pop(&mut self) -> Option<Conditional>
        ensures { MatchOption result ((self.old ≡ []) × (self.new ≡ [])) (λ c. self.old ≡ c ∷ self.new) }
    {
        self.stack.pop()
    }

    /// Opens one more.
    pub fn push(&mut self, conditional: Conditional) -> Result<(), NoMemory>
        ensures { OnOk result (self.new ≡ conditional ∷ self.old) }
    {
        self.stack.push(conditional)?;
        Ok(())
    }

    /// The place of the outermost one's `#`.
    pub fn outermost(&self) -> Option<Place>
        ensures { result ≡ spec.outermost self.now }
    {
        match self.stack.first().copied() {
            Some(conditional) => Some(conditional.at),
            None => None,
        }
    }
}
