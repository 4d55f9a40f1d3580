//! A scope and the names that are declared in it.
ghost use Rattle.std.specs.Prelude.{◌≡◌, Some, None, OnOk, OnErr};
ghost use Rattle.model_scopes.specs.Scopes as m;
ghost use Rattle.model_scopes.specs.Binding as b;
ghost use Rattle.model_scopes.specs.Declaring as d;

use crate::names::Names;
use cake_base::NoMemory;
use std::alloc::Global;
use std::marker::Model;

/// A scope: its number, whether it is that of the parameters of a function literal, and its names.
#[derive(Drop)]
pub struct Level {
    number: u64,
    literal: bool,
    names: Names,
    tags: Names,
}

impl Model for Level {
    ghost use Rattle.model_scopes.specs.Scopes as m;

    ghost Value = { m.Level };

    ghost view = { λ l. record { number = l.number; literal = l.literal; names = l.names; tags = l.tags } };
}

impl Level {
    /// A scope without names.
    pub fn new(alloc: Global, number: u64, literal: bool) -> Level
        ensures { result ≡ m.empty_level number literal }
    {
        Level {
            number,
            literal,
            names: Names::new(alloc),
            tags: Names::new(alloc),
        }
    }

    /// The number of the scope.
    pub fn number(&self) -> u64
        ensures { result ≡ self.now.number }
    {
        self.number
    }

    /// Whether the scope is that of the parameters of a function literal.
    pub fn is_literal(&self) -> bool
        ensures { result ≡ self.now.literal }
    {
        self.literal
    }

    /// The id of a tag, or of another name, that is declared in the scope.
    pub fn get(&self, tag: bool, name: &[u8]) -> Option<u32>
        ensures { result ≡ b.bound_in tag name.now self.now }
    {
        if tag {
            self.tags.get(name)
        } else {
            self.names.get(name)
        }
    }

    /// Adds a name that the scope doesn't declare.
    fn add(&mut self, tag: bool, name: &[u8], id: u32) -> Result<(), NoMemory>
        requires { b.bound_in tag name.now self.old ≡ None }
        ensures ok { OnOk result (self.new ≡ d.with_name tag name.now id self.old) }
        ensures err { OnErr result (self.new ≡ self.old) }
    {
        if tag {
            self.tags.add(name, id)
        } else {
            self.names.add(name, id)
        }
    }

    /// Declares a name in the scope. One that it declares already keeps its id. On refusal nothing has
    /// changed.
    pub fn declare(&mut self, tag: bool, name: &[u8], id: u32) -> Result<(), NoMemory>
        ensures ok { OnOk result (self.new ≡ d.naming tag name.now id self.old) }
        ensures err { OnErr result (self.new ≡ self.old) }
    {
        match self.get(tag, name) {
            Some(_) => Ok(()),
            None => self.add(tag, name, id),
        }
    }
}
