//! The marks of a unit, and how many of its pushes are open.
ghost use Rattle.std.specs.Prelude.{◌≡◌, ◌++◌, ◌∷◌, [], OnOk};
ghost use Rattle.model_preprocessing.specs.Pragmas as pragmas;

use cake_base::{Act, Mark, NoMemory};
use pp_lists::Marks;
use std::alloc::Global;
use std::marker::Model;

/// Marks, of which so many pushes are open. Contracts see the list.
#[derive(Drop)]
pub struct OpenMarks {
    marks: Marks,
    pushes: usize,
}

impl Model for OpenMarks {
    ghost use Rattle.std.specs.Prelude.{◌≡◌, ◌≤◌, List, length};
    ghost use Rattle.cake_base.specs.declared.rules.Mark.{Mark};
    ghost use Rattle.model_preprocessing.specs.Pragmas as pragmas;

    ghost Value = { List Mark };

    ghost view = { λ m. m.marks };

    ghost invariant = { λ m. (m.pushes ≡ pragmas.open_pushes 0 m.marks) × (m.pushes ≤ length m.marks) };
}

impl OpenMarks {
    /// No marks.
    pub fn new(alloc: Global) -> OpenMarks
        ensures { result ≡ [] }
    {
        OpenMarks {
            marks: Marks::new(alloc),
            pushes: 0,
        }
    }

    /// Whether nothing was pushed that this act would give back.
    pub fn pops_nothing(&self, act: Act) -> bool
        ensures { result ≡ pragmas.pops_nothing act (pragmas.open_pushes 0 self.now) }
    {
        match act {
            Act::Pop => self.pushes < 1,
            Act::Push => false,
            Act::Assign(_, _) => false,
        }
    }

    /// Adds a mark.
    pub fn push(&mut self, mark: Mark) -> Result<(), NoMemory>
        ensures { OnOk result (self.new ≡ self.old ++ mark ∷ []) }
    {
        let count = self.marks.count();
        let pushes = match mark.act {
            Act::Push => self.pushes + 1,
            Act::Pop => self.pushes.saturating_sub(1),
            Act::Assign(_, _) => self.pushes,
        };
        self.marks.push(mark)?;
        self.pushes = pushes;
        Ok(())
    }

    /// The list.
    pub fn into_list(self) -> Marks
        ensures { result ≡ self }
    {
        let OpenMarks { marks, pushes: _ } = self;
        marks
    }
}
