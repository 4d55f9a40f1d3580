//! Lists that grow at their end, and lists that are taken from the front.
ghost use Rattle.std.specs.Prelude.{◌≡◌, ◌++◌, ◌<◌, ◌^◌, [], ◌∷◌, List, length, drop, OnOk, IfOk, MatchOption};
ghost use Rattle.model_macros.specs.MacroArguments.{is_nil};

use cake_base::NoMemory;
use std::alloc::Global;
use std::marker::Model;

/// Items in order. Contracts see their list.
#[derive(Drop)]
pub struct Row<T: Drop> {
    items: Vec<T>,
}

impl<T: Drop> Model for Row<T> {
    ghost use Rattle.std.specs.Prelude.{List};

    ghost Value = { List T };

    ghost view = { λ r. r.items.items };
}

impl<T: Drop> Row<T> {
    /// No items.
    pub fn new(alloc: Global) -> Row<T>
        ensures { result ≡ [] }
    {
        Row {
            items: Vec::new(alloc),
        }
    }

    /// Adds an item at the end.
    pub fn push(&mut self, item: T) -> Result<(), NoMemory>
        ensures { OnOk result (self.new ≡ self.old ++ item ∷ []) }
    {
        self.items.push(item)?;
        Ok(())
    }

    /// Takes the last item away.
    pub fn pop(&mut self) -> Option<T>
        ensures { MatchOption result ((self.old ≡ []) × (self.new ≡ [])) (λ item. self.old ≡ self.new ++ item ∷ []) }
    {
        self.items.pop()
    }

    /// The number of items.
    pub fn len(&self) -> usize
        ensures value { result ≡ length self.now }
        ensures bound { result < 2 ^ 63 }
    {
        self.items.len()
    }

    /// Whether there are none.
    pub fn is_empty(&self) -> bool
        ensures { result ≡ is_nil self.now }
    {
        self.items.is_empty()
    }

    /// Adds the items of another row at the end.
    pub fn append(&mut self, other: Row<T>) -> Result<(), NoMemory>
        ensures { OnOk result (self.new ≡ self.old ++ other) }
    {
        let Row { mut items } = other;
        self.items.append(&mut items)?;
        Ok(())
    }

    /// The items.
    pub fn as_slice(&self) -> &[T]
        ensures { result.now ≡ self.now }
    {
        self.items.as_slice()
    }
}

/// Items that are taken from the front, and put back there. Contracts see their list, of which the
/// front is the last item that the vector holds.
#[derive(Drop)]
pub struct Stack<T: Drop> {
    items: Vec<T>,
}

impl<T: Drop> Model for Stack<T> {
    ghost use Rattle.std.specs.Prelude.{List, reverse};

    ghost Value = { List T };

    ghost view = { λ s. reverse s.items.items };
}

impl<T: Drop> Stack<T> {
    /// The items of a row.
    pub fn new(row: Row<T>) -> Stack<T>
        ensures { result ≡ row }
    {
        let Row { mut items } = row;
        items.reverse();
        Stack { items }
    }

    /// The items as a row.
    pub fn into_row(self) -> Row<T>
        ensures { result ≡ self }
    {
        let Stack { mut items } = self;
        items.reverse();
        Row { items }
    }

    /// Takes the first item.
    pub fn pop(&mut self) -> Option<T>
        ensures { MatchOption result ((self.old ≡ []) × (self.new ≡ [])) (λ item. self.old ≡ item ∷ self.new) }
    {
        self.items.pop()
    }

    /// The first item.
    pub fn first(&self) -> Option<&T>
        ensures { MatchOption result (self.now ≡ []) (λ item. (rest : List T) × (self.now ≡ item.now ∷ rest)) }
    {
        self.items.last()
    }

    /// Puts an item before what is there.
    pub fn push(&mut self, item: T) -> Result<(), NoMemory>
        ensures { OnOk result (self.new ≡ item ∷ self.old) }
    {
        self.items.push(item)?;
        Ok(())
    }

    /// Puts the items of a row before what is there.
    pub fn put(&mut self, row: Row<T>) -> Result<(), NoMemory>
        ensures { OnOk result (self.new ≡ row ++ self.old) }
    {
        let Row { mut items } = row;
        items.reverse();
        self.items.append(&mut items)?;
        Ok(())
    }
}
