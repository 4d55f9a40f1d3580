//! Function literals whose bodies wait for the end of their full expression.
ghost use Rattle.std.specs.Prelude.{◌≡◌, ◌<◌, ◌^◌, [], ◌∷◌, ◌++◌, length, slice_get, OnOk, OnErr};
ghost use Rattle.std.specs.Option.{option_map};
ghost use Rattle.check_state.specs.Seen.{waiting_of};

use crate::params::Params;
use crate::uses::Use;
use c_tree::Expr;
use c_types::CType;
use cake_base::NoMemory;
use decl_scope::DeclId;
use std::alloc::Global;
use std::marker::Model;

/// A function literal whose body waits for the end of its full expression (this profile's own), with the id of its function,
/// its type, and what is declared in the scope of its parameters.
#[derive(Drop)]
pub struct Waiting<'t> {
    pub evaluation: Use,
    pub id: DeclId,
    pub literal: &'t Expr,
    pub ty: CType,
    pub params: Params,
}

/// Function literals that wait, in the order of the source.
#[derive(Drop)]
pub struct Literals<'t> {
    items: Vec<Waiting<'t>>,
}

impl<'t> Model for Literals<'t> {
    ghost use Rattle.std.specs.Prelude.{List, map};
    ghost use Rattle.std.specs.Coded.{coded_list};
    ghost use Rattle.model_checking.specs.State as m;
    ghost use Rattle.check_state.specs.apparatus.StateCode.{coded_waiting};

    ghost Value = { List m.Waiting };

    ghost coded = { coded_list coded_waiting };

    ghost use Rattle.check_state.specs.Seen.{waiting_of};

    ghost view = { λ l. map waiting_of l.items.items };
}

impl<'t> Literals<'t> {
    /// The empty list.
    pub fn new(alloc: Global) -> Literals<'t>
        ensures { result ≡ [] }
    {
        Literals {
            items: Vec::new(alloc),
        }
    }

    /// Adds a literal at the end. After a refusal the list is as before, and the literal is dropped.
    #[tactic(auto, using(crate::proofs::ListLaws::one_waits))]
    pub fn push(&mut self, item: Waiting<'t>) -> Result<(), NoMemory>
        ensures ok { OnOk result (self.new ≡ self.old ++ waiting_of item.entry ∷ []) }
        ensures err { OnErr result (self.new ≡ self.old) }
    {
        match self.items.push(item) {
            Ok(()) => Ok(()),
            Err(failed) => {
                drop(failed);
                Err(NoMemory)
            }
        }
    }

    /// The number of literals.
    #[tactic(auto, using(crate::proofs::ListLaws::mapped_length))]
    pub fn count(&self) -> usize
        ensures value { result ≡ length self.now }
        ensures bound { result < 2 ^ 63 }
    {
        self.items.len()
    }

    /// The literal of this rank, counted from 0; none exactly where `at` isn't below the count.
    #[tactic(auto, using(crate::proofs::ListLaws::mapped_get))]
    pub fn get(&self, at: usize) -> Option<&Waiting<'t>>
        ensures { option_map (λ w. waiting_of w.now) result ≡ slice_get self.now at }
    {
        self.items.get(at)
    }
}
