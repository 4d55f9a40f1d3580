//! The names that are declared in the open scopes.

ghost use Rattle.std.specs.Prelude.{◌≡◌, ◌++◌, ◌∷◌, [], ◌-◌, ◌<◌, ◌^◌, length, take, drop, OnOk, OnErr, IfOk};
ghost use Rattle.model_grammar.specs.NameScopes as spec;
ghost use Rattle.c_parser.specs.Hiding.{IsWider};

use model_grammar::grammar::Entry;
use sqlite_items::Items;
use std::alloc::{AllocError, Global};
use std::marker::Model;

/// A declared name, and whether the declaration that it hides declares a typedef name.
#[derive(Clone, Copy, Debug)]
pub struct Kept {
    pub entry: Entry,
    pub hidden: bool,
}

/// Declared names, the latest last, seen as their list; and for each number of a name whether its latest declaration
/// declares a typedef name.
#[derive(Debug, Drop)]
pub struct Entries {
    kept: Vec<Kept>,
    types: Vec<bool>,
}

impl Model for Entries {
    ghost use Rattle.std.specs.Prelude.{List, map, reverse};
    ghost use Rattle.model_grammar.specs.declared.grammar.Entry.{Entry as Declared};
    ghost use Rattle.c_parser.specs.Hiding.{Tells};

    ghost Value = { List Declared };

    ghost view = { λ e. map (λ k. k.entry) e.kept.items };

    ghost invariant = { λ e. Tells e.types.items (reverse e.kept.items) };
}

/// Makes room for the name of this number, which declares no typedef name.
fn widen(types: &mut Vec<bool>, at: usize) -> Result<(), AllocError>
    requires { at < 2 ^ 32 }
    ensures wider { OnOk result (IsWider at types.old.items types.new.items) }
    ensures same { OnErr result (types.new.items ≡ types.old.items) }
{
    if types.len() <= at {
        types.resize(at + 1, false)?;
    }
    Ok(())
}

impl Entries {
    /// No names.
    pub fn new(alloc: Global) -> Entries
        ensures { result ≡ [] }
    {
        Entries {
            kept: Vec::new(alloc),
            types: Vec::new(alloc),
        }
    }

    /// The number of declarations.
    pub fn len(&self) -> usize
        ensures { result ≡ length self.now }
    {
        self.kept.len()
    }

    /// Whether the latest declaration of the name declares a typedef name.
    pub fn is_type(&self, name: u32) -> bool
        ensures { result ≡ spec.is_type self.now name }
    {
        match self.types.get(name as usize) {
            Some(is_type) => *is_type,
            None => false,
        }
    }

    /// Adds a declaration.
    pub fn push(&mut self, entry: Entry) -> Result<(), AllocError>
        ensures { OnOk result (self.new ≡ self.old ++ entry ∷ []) }
    {
        let at = entry.name as usize;
        widen(&mut self.types, at)?;
        let hidden = self.types[at];
        self.kept.push(Kept { entry, hidden })?;
        self.types[at] = entry.is_type;
        Ok(())
    }

    /// Adds declarations.
    pub fn extend(&mut self, entries: &[Entry]) -> Result<(), AllocError>
        ensures { OnOk result (self.new ≡ self.old ++ entries.now) }
    {
        for entry in entries {
            self.push(*entry)?;
        }
        Ok(())
    }

    /// Takes the latest declaration back, and what it hid comes forth.
    fn undo(&mut self)
        ensures { self.new ≡ take (length self.old - 1) self.old }
    {
        if let Some(latest) = self.kept.pop() {
            self.types[latest.entry.name as usize] = latest.hidden;
        }
    }

    /// Takes back all declarations but the first.
    pub fn truncate(&mut self, count: usize)
        ensures { self.new ≡ take count self.old }
    {
        while self.len() > count {
            self.undo();
        }
    }

    /// The declarations from this number on.
    pub fn since(&self, alloc: Global, count: usize) -> Result<Items<Entry>, AllocError>
        ensures { IfOk result (λ entries. entries ≡ drop count self.now) }
    {
        let mut entries = Items::new(alloc);
        let mut at = count;
        while let Some(kept) = self.kept.get(at) {
            entries.push(kept.entry)?;
            at += 1;
        }
        Ok(entries)
    }
}
