//! What is declared, by its id.
ghost use Rattle.std.specs.Prelude.{◌≡◌, ◌++◌, ◌∷◌, [], ℕ, List, None, OnOk, OnErr, length, slice_get};
ghost use Rattle.std.specs.Option.{option_copied, option_map};
ghost use Rattle.model_scopes.specs.Scopes as m;
ghost use Rattle.model_scopes.specs.Declaring as d;
ghost use Rattle.model_scopes.specs.NotedUses as u;
ghost use Rattle.decl_scope.specs.Values.{value_if_any};
ghost use Rattle.decl_scope.specs.Later.{taken};

use crate::declared::{Declared, first_of};
use crate::entry::Entry;
use c_types::CType;
use cake_base::{NoMemory, Place};
use indexmap::IndexMap;
use model_types::numbers::Const;
use std::alloc::Global;
use std::marker::Model;

/// What is declared, by its id, in the order of the first declarations. Contracts see the list.
#[derive(Drop)]
pub struct Table {
    entries: IndexMap<u32, Declared>,
}

impl Model for Table {
    ghost use Rattle.std.specs.Prelude.{List, ℕ};
    ghost use Rattle.std.specs.Coded.{coded_list, coded×, coded_ℕ};
    ghost use Rattle.model_scopes.specs.Scopes as m;
    ghost use Rattle.model_scopes.specs.apparatus.DeclarationCode.{coded_declared};

    ghost Value = { List (ℕ × m.Declared) };

    ghost coded = { coded_list (coded× coded_ℕ coded_declared) };

    ghost view = { λ t. t.entries.entries };
}

impl Table {
    /// Nothing.
    pub fn new(alloc: Global) -> Table
        ensures { result ≡ [] }
    {
        Table {
            entries: IndexMap::new(alloc),
        }
    }

    /// What has that id.
    pub fn get(&self, id: u32) -> Option<&Declared>
        ensures { option_copied result ≡ m.with_id id self.now }
    {
        self.entries.get(&id)
    }

    /// How many have an id.
    pub fn len(&self) -> usize
        ensures { result ≡ length self.now }
    {
        self.entries.len()
    }

    /// What was declared in that rank, counted from 0, with its id.
    pub fn at(&self, rank: usize) -> Option<(u32, &Declared)>
        ensures entry { option_map (λ e. (e.0, e.1.now)) result ≡ slice_get self.now rank }
        ensures same { (e : ℕ × m.Declared) → slice_get self.now rank ≡ Some e → m.with_id e.0 self.now ≡ Some e.1 }
    {
        match self.entries.get_index(rank) {
            Some((id, declared)) => Some((*id, declared)),
            None => None,
        }
    }

    /// Adds what has an id that isn't there. On refusal nothing has changed.
    pub fn add(&mut self, id: u32, declared: Declared) -> Result<(), NoMemory>
        requires { m.with_id id self.old ≡ None }
        ensures ok { OnOk result (self.new ≡ self.old ++ (id, declared) ∷ []) }
        ensures err { OnErr result (self.new ≡ self.old) }
    {
        self.entries.insert(id, declared)?;
        Ok(())
    }

    /// Takes the last away.
    pub fn forget_last(&mut self)
        ensures { (rest : List (ℕ × m.Declared)) (last : ℕ × m.Declared) → self.old ≡ rest ++ last ∷ [] → self.new ≡ rest }
    {
        self.entries.pop();
    }

    /// Takes a later declaration of an id.
    pub fn take(&mut self, id: u32, entry: Entry, before: Option<CType>, scope: u64)
        ensures { self.new ≡ m.changed (taken entry before scope) id self.old }
    {
        if let Some(at) = self.entries.get_index_of(&id) {
            let declared = &mut self.entries[at];
            declared.take(entry, before, scope);
        }
    }

    /// Gives the latest declaration of an id its type and value.
    pub fn settle(&mut self, id: u32, ty: CType, value: Option<Const>)
        ensures { self.new ≡ m.changed (d.settled ty (value_if_any value)) id self.old }
    {
        if let Some(at) = self.entries.get_index_of(&id) {
            let declared = &mut self.entries[at];
            declared.settle(ty, value);
        }
    }

    /// Notes the place of the name in the declaration of an id that has its initializer or body.
    pub fn note_initialized(&mut self, id: u32, place: Place)
        ensures { self.new ≡ m.changed (d.initialized_at place) id self.old }
    {
        if let Some(at) = self.entries.get_index_of(&id) {
            let declared = &mut self.entries[at];
            declared.note_initialized(place);
        }
    }

    /// Notes a use of an id.
    pub fn note(&mut self, id: u32, place: Place)
        ensures { self.new ≡ m.changed (u.used_at place) id self.old }
    {
        if let Some(at) = self.entries.get_index_of(&id) {
            let declared = &mut self.entries[at];
            declared.note(place);
        }
    }

    /// The first use in place order of an internal function that no declaration defines.
    pub fn first_undefined(&self) -> Option<Place>
        ensures { result ≡ u.first_undefined self.now }
    {
        let mut first = None;
        let mut at = self.entries.len();
        while at > 0 {
            at -= 1;
            first = first_of(self.entries[at].unmet_use(), first);
        }
        first
    }
}
