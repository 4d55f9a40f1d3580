//! The scopes round the innermost one.
ghost use Rattle.std.specs.Prelude.{◌≡◌, [], ◌∷◌, List, MatchOption, OnOk, IfErr, OnErr};
ghost use Rattle.model_scopes.specs.Scopes as m;
ghost use Rattle.model_scopes.specs.Binding as b;

use crate::level::Level;
use std::alloc::Global;
use std::marker::Model;

/// Scopes that lie in one another. Contracts see them from the inside out.
#[derive(Drop)]
pub struct Around {
    levels: Vec<Level>,
}

impl Model for Around {
    ghost use Rattle.std.specs.Prelude.{List, reverse};
    ghost use Rattle.model_scopes.specs.Scopes as m;

    ghost Value = { List m.Level };

    ghost view = { λ a. reverse a.levels.items };
}

impl Around {
    /// No scopes.
    pub fn new(alloc: Global) -> Around
        ensures { result ≡ [] }
    {
        Around {
            levels: Vec::new(alloc),
        }
    }

    /// Whether there are none.
    pub fn is_empty(&self) -> bool
        ensures { result ≡ m.is_outermost self.now }
    {
        self.levels.is_empty()
    }

    /// Puts a scope into the innermost one. On refusal the scope comes back, and nothing has changed.
    pub fn push(&mut self, level: Level) -> Result<(), Level>
        ensures ok { OnOk result (self.new ≡ level ∷ self.old) }
        ensures err { OnErr result (self.new ≡ self.old) }
        ensures back { IfErr result (λ same. same ≡ level) }
    {
        match self.levels.push(level) {
            Ok(()) => Ok(()),
            Err(refused) => Err(refused.value),
        }
    }

    /// Takes the innermost scope away.
    pub fn pop(&mut self) -> Option<Level>
        ensures { MatchOption result ((self.old ≡ []) × (self.new ≡ [])) (λ level. self.old ≡ level ∷ self.new) }
    {
        self.levels.pop()
    }

    /// The id of a name by the innermost of the scopes that declare it.
    pub fn look(&self, tag: bool, name: &[u8]) -> Option<u32>
        ensures { result ≡ b.bound_among tag name.now self.now }
    {
        let mut at = self.levels.len();
        while at > 0 {
            at -= 1;
            if let Some(id) = self.levels[at].get(tag, name) {
                return Some(id);
            }
        }
        None
    }

    /// The number of the innermost scope that is a function literal's.
    pub fn innermost_literal(&self) -> Option<u64>
        ensures { result ≡ b.innermost_literal self.now }
    {
        let mut at = self.levels.len();
        while at > 0 {
            at -= 1;
            let level = &self.levels[at];
            if level.is_literal() {
                return Some(level.number());
            }
        }
        None
    }
}
