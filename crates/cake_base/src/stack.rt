//! A stack.
ghost use Rattle.std.specs.Prelude.{◌≡◌, [], ◌∷◌, List, OnOk, OnErr, MatchOption};

use crate::NoMemory;
use std::alloc::Global;
use std::marker::Model;

/// A stack, seen as the list of its items with the latest first.
#[derive(Debug, Drop)]
pub struct Stack<T: Drop> {
    items: Vec<T>,
}

impl<T: Drop> Model for Stack<T> {
    ghost use Rattle.std.specs.Prelude.{List, reverse};

    ghost Value = { List T };

    ghost view = { λ s. reverse s.items.items };
}

impl<T: Drop> Stack<T> {
    /// No item.
    pub fn new(alloc: Global) -> Stack<T>
        ensures { result ≡ [] }
    {
        Stack {
            items: Vec::new(alloc),
        }
    }

    /// Puts the item on top.
    pub fn push(&mut self, item: T) -> Result<(), NoMemory>
        ensures { OnOk result (self.new ≡ item ∷ self.old) }
    {
        self.items.push(item)?;
        Ok(())
    }

    /// Takes the item on top.
    pub fn pop(&mut self) -> Option<T>
        ensures { MatchOption result ((self.old ≡ []) × (self.new ≡ [])) (λ item. self.old ≡ item ∷ self.new) }
    {
        self.items.pop()
    }

    /// The item on top.
    pub fn top(&self) -> Option<&T>
        ensures { MatchOption result (self.now ≡ []) (λ item. (rest : List T) × (self.now ≡ item.now ∷ rest)) }
    {
        self.items.last()
    }

    /// Lets go of all items.
    pub fn clear(&mut self)
        ensures { self.new ≡ [] }
    {
        self.items.clear();
    }
}
