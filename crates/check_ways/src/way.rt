//! Ways to the subobjects of an object.
ghost use Rattle.std.specs.Prelude.{◌≡◌, ◌++◌, [], ◌∷◌, map, MatchOption, OnOk, IfOk};
ghost use Rattle.model_checking.specs.Ways.{ranks, reached};

use c_types::CType;
use cake_base::NoMemory;
use sqlite_items::Items;
use std::alloc::Global;
use std::marker::Model;

/// A step from an array or structure to its element or member of a rank, which is counted from 0.
#[derive(Drop)]
pub struct Step {
    pub whole: CType,
    pub rank: u64,
    pub part: CType,
}

impl Model for Step {
    ghost use Rattle.model_checking.specs.Ways as w;
    ghost use Rattle.check_ways.specs.apparatus.StepCode.{coded_step};

    ghost Value = { w.Step };

    ghost coded = { coded_step };

    ghost view = { λ a. record { whole = a.whole; rank = a.rank; part = a.part } };
}

/// The steps from an object to a subobject. Contracts see the last one first.
pub struct Way {
    steps: Vec<Step>,
}

impl Drop for Way {
    fn drop(self) {
        let Way { steps: _ } = self;
    }
}

impl Model for Way {
    ghost use Rattle.std.specs.Prelude.{List, reverse};
    ghost use Rattle.std.specs.Coded.{coded_list};
    ghost use Rattle.model_checking.specs.Ways.{Step};
    ghost use Rattle.check_ways.specs.apparatus.StepCode.{coded_step};

    ghost Value = { List Step };

    ghost coded = { coded_list coded_step };

    ghost view = { λ a. reverse a.steps.items };
}

impl Way {
    /// The way to the object itself.
    pub fn new(alloc: Global) -> Way
        ensures { result ≡ [] }
    {
        Way {
            steps: Vec::new(alloc),
        }
    }

    /// One step more. On refusal the step is dropped.
    pub fn put(&mut self, step: Step) -> Result<(), NoMemory>
        ensures { OnOk result (self.new ≡ step ∷ self.old) }
    {
        match self.steps.push(step) {
            Ok(()) => Ok(()),
            Err(failed) => {
                drop(failed);
                Err(NoMemory)
            }
        }
    }

    /// Takes the last step away.
    pub fn pop(&mut self) -> Option<Step>
        ensures { MatchOption result ((self.old ≡ []) × (self.new ≡ [])) (λ step. self.old ≡ step ∷ self.new) }
    {
        self.steps.pop()
    }

    /// The type of the subobject to which the way leads in an object.
    pub fn reached<'a>(&'a self, object: &'a CType) -> &'a CType
        ensures { result.now ≡ reached object.now self.now }
    {
        match self.steps.last() {
            Some(step) => &step.part,
            None => object,
        }
    }

    /// The ranks of the way, behind those that lead to the object.
    pub fn path(&self, alloc: Global, base: &[u64]) -> Result<Items<u64>, NoMemory>
        ensures { IfOk result (λ made. made ≡ base.now ++ ranks self.now) }
    {
        let mut path = Items::from_slice(alloc, base)?;
        push_ranks(&mut path, &self.steps)?;
        Ok(path)
    }
}

fn push_ranks(path: &mut Items<u64>, steps: &[Step]) -> Result<(), NoMemory>
    ensures { OnOk result (path.new ≡ path.old ++ map (λ s. s.rank) steps.now) }
{
    for step in steps {
        path.push(step.rank)?;
    }
    Ok(())
}
