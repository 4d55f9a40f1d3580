//! Hide sets, and tokens that have one.
ghost use Rattle.std.specs.Prelude.{◌≡◌, ◌++◌, [], ◌∷◌, IfOk, OnOk};
ghost use Rattle.model_macros.specs.HideSets as spec;
ghost use Rattle.model_macros.specs.MacroArguments as arguments;
ghost use Rattle.model_macros.specs.Pasting as pasting;

use c_tokens::PpTok;
use cake_base::NoMemory;
use smallvec::SmallVec;
use std::alloc::Global;
use std::marker::Model;

/// The macros by which a token isn't replaced (ISO/IEC 9899:2024, 6.10.5.5), each by its rank in the
/// table. Contracts see the list of the ranks.
pub struct Hides {
    ranks: SmallVec<usize, 4>,
}

impl Model for Hides {
    ghost use Rattle.std.specs.Prelude.{List, ℕ};

    ghost Value = { List ℕ };

    ghost view = { λ h. h.ranks.items };
}

impl Drop for Hides {
    fn drop(self) {
        let Hides { ranks: _ } = self;
    }
}

impl Hides {
    /// The empty set.
    pub fn new(alloc: Global) -> Hides
        ensures { result ≡ [] }
    {
        Hides {
            ranks: SmallVec::new(alloc),
        }
    }

    /// Whether a macro is in the set.
    pub fn holds(&self, rank: usize) -> bool
        ensures { result ≡ spec.holds rank self.now }
    {
        is_among(self.ranks.as_slice(), rank)
    }

    /// An equal set.
    pub fn copy(&self, alloc: Global) -> Result<Hides, NoMemory>
        ensures { IfOk result (λ h. h ≡ self.now) }
    {
        Ok(Hides {
            ranks: SmallVec::from_slice(alloc, self.ranks.as_slice())?,
        })
    }

    /// Adds a macro.
    pub fn add(&mut self, rank: usize) -> Result<(), NoMemory>
        ensures { OnOk result (self.new ≡ spec.with_rank self.old rank) }
    {
        if self.holds(rank) {
            return Ok(());
        }
        self.put(rank)
    }

    /// The macros of either set.
    pub fn union(&self, alloc: Global, other: &Hides) -> Result<Hides, NoMemory>
        ensures { IfOk result (λ h. h ≡ spec.union self.now other.now) }
    {
        let mut all = self.copy(alloc)?;
        for rank in other.ranks.as_slice() {
            if !self.holds(*rank) {
                all.put(*rank)?;
            }
        }
        Ok(all)
    }

    /// The macros of both sets.
    pub fn common(&self, alloc: Global, other: &Hides) -> Result<Hides, NoMemory>
        ensures { IfOk result (λ h. h ≡ spec.common self.now other.now) }
    {
        let mut both = Hides::new(alloc);
        for rank in self.ranks.as_slice() {
            if other.holds(*rank) {
                both.put(*rank)?;
            }
        }
        Ok(both)
    }

    fn put(&mut self, rank: usize) -> Result<(), NoMemory>
        ensures { OnOk result (self.new ≡ self.old ++ rank ∷ []) }
    {
        self.ranks.push(rank)?;
        Ok(())
    }
}

fn is_among(ranks: &[usize], rank: usize) -> bool
    ensures { result ≡ spec.holds rank ranks.now }
{
    ranks.iter().any(|n| *n == rank)
}

/// A token with its hide set.
#[derive(Drop)]
pub struct Painted {
    pub tok: PpTok,
    pub hides: Hides,
}

impl Model for Painted {
    ghost use Rattle.model_macros.specs.MacroArguments as arguments;

    ghost Value = { arguments.Painted };

    ghost view = { λ p. record { tok = p.tok; hides = p.hides } };
}

impl Painted {
    /// The token with no macro in its hide set.
    pub fn fresh(alloc: Global, tok: PpTok) -> Painted
        ensures { result ≡ pasting.fresh tok }
    {
        Painted {
            tok,
            hides: Hides::new(alloc),
        }
    }

    /// An equal token.
    pub fn copy(&self, alloc: Global) -> Result<Painted, NoMemory>
        ensures { IfOk result (λ p. p ≡ self.now) }
    {
        Ok(Painted {
            tok: self.tok.copy(alloc)?,
            hides: self.hides.copy(alloc)?,
        })
    }
}
