//! What has an id.
ghost use Rattle.std.specs.Prelude.{◌≡◌, is_some};
ghost use Rattle.std.specs.Option.{option_copied};
ghost use Rattle.model_scopes.specs.Scopes as m;
ghost use Rattle.model_scopes.specs.Declaring as d;
ghost use Rattle.model_scopes.specs.NotedUses as u;
ghost use Rattle.decl_scope.specs.Values.{value_if_any};
ghost use Rattle.decl_scope.specs.Later.{taken};

use crate::entry::Entry;
use c_types::CType;
use cake_base::Place;
use model_types::numbers::Const;
use std::marker::Model;

/// What has an id: its latest declaration, and what is known of all of them.
#[derive(Drop)]
pub struct Declared {
    latest: Entry,
    before: Option<CType>,
    scope: u64,
    first: Place,
    defining: Option<Place>,
    initialized: Option<Place>,
    used: Option<Place>,
}

impl Model for Declared {
    ghost use Rattle.model_scopes.specs.Scopes as m;
    ghost use Rattle.model_scopes.specs.apparatus.DeclarationCode.{coded_declared};

    ghost Value = { m.Declared };

    ghost coded = { coded_declared };

    ghost view = { λ d. record { latest = d.latest; before = d.before; scope = d.scope; first = d.first; defining = d.defining; initialized = d.initialized; used = d.used } };
}

/// Of two places the one that comes before the other, or the first.
fn first_place(p: Place, q: Place) -> Place
    ensures { result ≡ u.first_place p q }
{
    if q.order < p.order { q } else { p }
}

/// The first in place order of the places that there are.
pub fn first_of(p: Option<Place>, q: Option<Place>) -> Option<Place>
    ensures { result ≡ u.first_of p q }
{
    match (p, q) {
        (None, q) => q,
        (Some(p), None) => Some(p),
        (Some(p), Some(q)) => Some(first_place(p, q)),
    }
}

/// Of two places, where there are any, the former.
fn or_place(p: Option<Place>, q: Option<Place>) -> Option<Place>
    ensures { result ≡ d.or_place p q }
{
    match p {
        Some(place) => Some(place),
        None => q,
    }
}

/// A place, or the other where there is none.
fn place_or(p: Option<Place>, other: Place) -> Place
    ensures { result ≡ d.place_or p other }
{
    match p {
        Some(place) => place,
        None => other,
    }
}

impl Declared {
    /// What its first declaration, in the scope of that number, declares.
    pub fn new(entry: Entry, scope: u64) -> Declared
        ensures { result ≡ d.first_declared entry scope }
    {
        let first = entry.place;
        let defining = entry.defined_at();
        Declared {
            latest: entry,
            before: None,
            scope,
            first,
            defining,
            initialized: None,
            used: None,
        }
    }

    /// The latest declaration.
    pub fn latest(&self) -> &Entry
        ensures { result.now ≡ self.now.latest }
    {
        &self.latest
    }

    /// The composite type of the declarations before the latest, where it is kept.
    pub fn before(&self) -> Option<&CType>
        ensures { option_copied result ≡ self.now.before }
    {
        self.before.as_ref()
    }

    /// Whether one of the declarations defines it.
    pub fn is_defined(&self) -> bool
        ensures { result ≡ m.is_defined self.now }
    {
        self.defining.is_some()
    }

    /// Whether one of the declarations has its initializer or body.
    pub fn is_initialized(&self) -> bool
        ensures { result ≡ is_some self.now.initialized }
    {
        self.initialized.is_some()
    }

    /// The place of the name in the definition, else in the first tentative one, else in the first
    /// declaration.
    pub fn joint_place(&self) -> Place
        ensures { result ≡ d.joint_place self.now }
    {
        place_or(self.initialized, place_or(self.defining, self.first))
    }

    /// The number of the scope of the latest declaration.
    pub fn scope(&self) -> u64
        ensures { result ≡ self.now.scope }
    {
        self.scope
    }

    /// Takes a later declaration.
    pub fn take(&mut self, entry: Entry, before: Option<CType>, scope: u64)
        ensures { self.new ≡ taken entry before scope self.old }
    {
        self.defining = or_place(self.defining, entry.defined_at());
        self.before = before;
        self.scope = scope;
        self.latest = entry;
    }

    /// Gives the latest declaration its type and value.
    pub fn settle(&mut self, ty: CType, value: Option<Const>)
        ensures { self.new ≡ d.settled ty (value_if_any value) self.old }
    {
        self.latest.ty = ty;
        self.latest.value = value;
    }

    /// Notes the place of the name in the declaration that has its initializer or body. The first is kept.
    pub fn note_initialized(&mut self, place: Place)
        ensures { self.new ≡ d.initialized_at place self.old }
    {
        self.initialized = or_place(self.initialized, Some(place));
    }

    /// Notes a use. The first in place order is kept.
    pub fn note(&mut self, place: Place)
        ensures { self.new ≡ u.used_at place self.old }
    {
        self.used = first_of(self.used, Some(place));
    }

    /// The first use, where it is an internal function that no declaration defines.
    pub fn unmet_use(&self) -> Option<Place>
        ensures { result ≡ u.unmet_use self.now }
    {
        if self.latest.is_internal_function() && !self.is_defined() {
            self.used
        } else {
            None
        }
    }
}
