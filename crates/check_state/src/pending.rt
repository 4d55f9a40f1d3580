//! All that a state of checking has but the scopes.
ghost use Rattle.std.specs.Prelude.{◌≡◌, ◌<◌, ◌∷◌, ◌++◌, [], map, OnOk, OnErr};
ghost use Rattle.model_scopes.specs.Scopes.{drawn};
ghost use Rattle.core_tree.specs.CoreStatForms.{ids};
ghost use Rattle.core_tree.specs.CoreUnitForms.{named_types_of};
ghost use Rattle.check_state.specs.Kept.{nothing_kept};
ghost use Rattle.check_state.specs.Seen.{made_of, waiting_of};
ghost use Rattle.check_state.specs.SeenValues.{valued_of, body_of, range_of};

use crate::literals::{Literals, Waiting};
use crate::made::{Made, Objects};
use crate::values::{Body, IdRange, Valued};
use c_types::CType;
use cake_base::{NoMemory, Place};
use core_tree::CoreNamedType;
use decl_scope::{DeclId, Scopes};
use sqlite_items::Items;
use std::alloc::Global;
use std::marker::Model;
use std::mem;

/// What checking knows at a point of a unit beside the scopes, and what it has made so far: the function literals that wait; the
/// objects of strings and compound literals; the automatic objects of the innermost block so far; the objects whose address was
/// taken; the types that are named; the values of objects of static storage; the bodies of functions; ids that no block has; and
/// the first object whose values are too many (ISO/IEC 9899:2024, 6.2.4, 6.5.3.6). With the scopes it is a state of checking.
#[derive(Drop)]
pub struct Pending<'t> {
    alloc: Global,
    waiting: Literals<'t>,
    made: Objects,
    automatic: Items<DeclId>,
    taken: Items<DeclId>,
    named: Items<CoreNamedType>,
    values: Items<Valued>,
    bodies: Items<Body>,
    left_out: Items<IdRange>,
    limit: Option<Place>,
}

impl<'t> Model for Pending<'t> {
    ghost use Rattle.check_state.specs.Kept.{Kept};
    ghost use Rattle.check_state.specs.apparatus.StateCode.{coded_kept};

    ghost Value = { Kept };

    ghost coded = { coded_kept };

    ghost use Rattle.check_state.specs.View.{kept_of};

    ghost view = { kept_of };
}

impl<'t> Pending<'t> {
    /// Nothing: with the scope of a file it is the state before the first declaration of a unit.
    pub fn new(alloc: Global) -> Pending<'t>
        ensures { result ≡ nothing_kept }
    {
        Pending {
            alloc,
            waiting: Literals::new(alloc),
            made: Objects::new(alloc),
            automatic: Items::new(alloc),
            taken: Items::new(alloc),
            named: Items::new(alloc),
            values: Items::new(alloc),
            bodies: Items::new(alloc),
            left_out: Items::new(alloc),
            limit: None,
        }
    }

    pub(crate) fn alloc(&self) -> Global {
        self.alloc
    }

    #[tactic(auto, using(crate::proofs::ListLaws::one_named))]
    pub(crate) fn add_named(&mut self, place: Place, ty: &CType) -> Result<(), NoMemory>
        ensures ok { OnOk result (self.new ≡ record self.old { named = self.old.named ++ (place, ty.now) ∷ [] }) }
        ensures err { OnErr result (self.new ≡ self.old) }
    {
        let ty = ty.copy(self.alloc)?;
        self.named.push(CoreNamedType { place, ty })?;
        Ok(())
    }

    #[tactic(auto, using(crate::proofs::ListLaws::one_id))]
    pub(crate) fn add_taken(&mut self, id: DeclId) -> Result<(), NoMemory>
        ensures ok { OnOk result (self.new ≡ record self.old { taken = self.old.taken ++ id.0 ∷ [] }) }
        ensures err { OnErr result (self.new ≡ self.old) }
    {
        self.taken.push(id)?;
        Ok(())
    }

    #[tactic(auto, using(crate::proofs::ListLaws::one_id))]
    pub(crate) fn add_automatic(&mut self, id: DeclId) -> Result<(), NoMemory>
        ensures ok { OnOk result (self.new ≡ record self.old { automatic = self.old.automatic ++ id.0 ∷ [] }) }
        ensures err { OnErr result (self.new ≡ self.old) }
    {
        self.automatic.push(id)?;
        Ok(())
    }

    #[tactic(auto, using(crate::proofs::ListLaws::one_valued))]
    pub(crate) fn add_values(&mut self, valued: Valued) -> Result<(), NoMemory>
        ensures ok { OnOk result (self.new ≡ record self.old { values = self.old.values ++ valued_of valued ∷ [] }) }
        ensures err { OnErr result (self.new ≡ self.old) }
    {
        self.values.push(valued)?;
        Ok(())
    }

    #[tactic(auto, using(crate::proofs::ListLaws::one_body))]
    pub(crate) fn add_body(&mut self, body: Body) -> Result<(), NoMemory>
        ensures ok { OnOk result (self.new ≡ record self.old { bodies = self.old.bodies ++ body_of body ∷ [] }) }
        ensures err { OnErr result (self.new ≡ self.old) }
    {
        self.bodies.push(body)?;
        Ok(())
    }

    #[tactic(auto, using(crate::proofs::ListLaws::one_range))]
    pub(crate) fn add_left_out(&mut self, from: u32, to: u32) -> Result<(), NoMemory>
        ensures ok { OnOk result (self.new ≡ record self.old { left_out = self.old.left_out ++ (from, to) ∷ [] }) }
        ensures err { OnErr result (self.new ≡ self.old) }
    {
        self.left_out.push(IdRange { from, to })?;
        Ok(())
    }

    /// Adds an object that was made, which draws the next id.
    pub(crate) fn add_made(&mut self, scopes: &mut Scopes, made: Made) -> Result<(), NoMemory>
        requires { scopes.old.ids < 4294967295 }
        ensures ok { OnOk result ((scopes.new ≡ drawn scopes.old) × (self.new ≡ record self.old { made = self.old.made ++ made_of made ∷ [] })) }
        ensures err { OnErr result ((scopes.new ≡ scopes.old) × (self.new ≡ self.old)) }
    {
        self.made.push(made)?;
        scopes.fresh();
        Ok(())
    }

    /// Adds an object that was made, one of the innermost block.
    #[tactic(auto, using(crate::proofs::ListLaws::one_id, crate::proofs::ListLaws::none_more))]
    pub(crate) fn add_made_automatic(
        &mut self,
        scopes: &mut Scopes,
        id: DeclId,
        made: Made,
    ) -> Result<(), NoMemory>
        requires { scopes.old.ids < 4294967295 }
        ensures ok { OnOk result ((scopes.new ≡ drawn scopes.old) × (self.new ≡ record self.old { made = self.old.made ++ made_of made ∷ []; automatic = self.old.automatic ++ id.0 ∷ [] })) }
        ensures err { OnErr result ((scopes.new ≡ scopes.old) × (self.new ≡ self.old)) }
    {
        self.automatic.push(id)?;
        match self.made.push(made) {
            Ok(()) => {
                scopes.fresh();
                Ok(())
            }
            Err(e) => {
                self.automatic.pop();
                Err(e)
            }
        }
    }

    /// Adds a function literal that waits, which draws the next id.
    pub(crate) fn add_waiting(
        &mut self,
        scopes: &mut Scopes,
        waiting: Waiting<'t>,
    ) -> Result<(), NoMemory>
        requires { scopes.old.ids < 4294967295 }
        ensures ok { OnOk result ((scopes.new ≡ drawn scopes.old) × (self.new ≡ record self.old { waiting = self.old.waiting ++ waiting_of waiting.entry ∷ [] })) }
        ensures err { OnErr result ((scopes.new ≡ scopes.old) × (self.new ≡ self.old)) }
    {
        self.waiting.push(waiting)?;
        scopes.fresh();
        Ok(())
    }

    /// Takes the function literals that wait.
    pub(crate) fn take_literals(&mut self) -> Literals<'t>
        ensures taken { result ≡ self.old.waiting }
        ensures none { self.new ≡ record self.old { waiting = [] } }
    {
        mem::replace(&mut self.waiting, Literals::new(self.alloc))
    }

    /// Puts these automatic objects in the place of those of the innermost block, which come back.
    pub(crate) fn change_automatic(&mut self, objects: Items<DeclId>) -> Items<DeclId>
        ensures former { ids result ≡ self.old.automatic }
        ensures changed { self.new ≡ record self.old { automatic = ids objects } }
    {
        mem::replace(&mut self.automatic, objects)
    }

    /// The function literals that wait, in the order of the source.
    pub fn literals(&self) -> &Literals<'t>
        ensures { result.now ≡ self.now.waiting }
    {
        &self.waiting
    }

    /// The objects of strings and of compound literals, in the order of the source.
    pub fn objects(&self) -> &Objects
        ensures { result.now ≡ self.now.made }
    {
        &self.made
    }

    /// The automatic objects of the innermost block so far.
    pub fn automatic(&self) -> &[DeclId]
        ensures { ids result.now ≡ self.now.automatic }
    {
        self.automatic.as_slice()
    }

    /// The objects whose address was taken.
    pub fn taken(&self) -> &[DeclId]
        ensures { ids result.now ≡ self.now.taken }
    {
        self.taken.as_slice()
    }

    /// The types that are named, with their places.
    pub fn named(&self) -> &[CoreNamedType]
        ensures { named_types_of result.now ≡ self.now.named }
    {
        self.named.as_slice()
    }

    /// The values of objects of static storage.
    pub fn values(&self) -> &[Valued]
        ensures { map valued_of result.now ≡ self.now.values }
    {
        self.values.as_slice()
    }

    /// The bodies of functions.
    pub fn bodies(&self) -> &[Body]
        ensures { map body_of result.now ≡ self.now.bodies }
    {
        self.bodies.as_slice()
    }

    /// The ids that were drawn in lists of parameters and in bodies that aren't evaluated, whose objects no block has.
    pub fn left_out(&self) -> &[IdRange]
        ensures { map range_of result.now ≡ self.now.left_out }
    {
        self.left_out.as_slice()
    }

    /// The first object whose values are too many.
    pub fn limit(&self) -> Option<Place>
        ensures { result ≡ self.now.limit }
    {
        self.limit
    }
}
