//! Objects of strings and of compound literals.
ghost use Rattle.std.specs.Prelude.{◌≡◌, ◌<◌, ◌^◌, [], ◌∷◌, ◌++◌, length, slice_get, OnOk, OnErr};
ghost use Rattle.std.specs.Option.{option_map};
ghost use Rattle.check_state.specs.Seen.{made_of};

use c_types::CType;
use cake_base::{Bytes, NoMemory, Place};
use core_tree::CoreInitial;
use decl_scope::DeclId;
use sqlite_items::Items;
use std::alloc::Global;
use std::marker::Model;

/// The object of a string, with its bytes, or of a compound literal; and of a compound literal at file scope, whose storage is
/// static, its values (ISO/IEC 9899:2024, 6.4.5, 6.5.3.6).
#[derive(Drop)]
pub struct Made {
    pub id: DeclId,
    pub ty: CType,
    pub place: Place,
    pub text: Option<Bytes>,
    pub values: Option<Items<CoreInitial>>,
    pub is_evaluated: bool,
}

/// Objects that strings and compound literals made, in the order of the source: their ids rise.
#[derive(Drop)]
pub struct Objects {
    items: Vec<Made>,
}

impl Model for Objects {
    ghost use Rattle.std.specs.Prelude.{List, map};
    ghost use Rattle.std.specs.Coded.{coded_list};
    ghost use Rattle.model_checking.specs.State as m;
    ghost use Rattle.check_state.specs.apparatus.StateCode.{coded_made};

    ghost Value = { List m.Made };

    ghost coded = { coded_list coded_made };

    ghost use Rattle.check_state.specs.Seen.{made_of};

    ghost view = { λ l. map made_of l.items.items };
}

impl Objects {
    /// The empty list.
    pub fn new(alloc: Global) -> Objects
        ensures { result ≡ [] }
    {
        Objects {
            items: Vec::new(alloc),
        }
    }

    /// Adds an object at the end. After a refusal the list is as before, and the object is dropped.
    #[tactic(auto, using(crate::proofs::ListLaws::one_made))]
    pub fn push(&mut self, item: Made) -> Result<(), NoMemory>
        ensures ok { OnOk result (self.new ≡ self.old ++ made_of item ∷ []) }
        ensures err { OnErr result (self.new ≡ self.old) }
    {
        match self.items.push(item) {
            Ok(()) => Ok(()),
            Err(failed) => {
                drop(failed);
                Err(NoMemory)
            }
        }
    }

    /// The number of objects.
    #[tactic(auto, using(crate::proofs::ListLaws::mapped_length))]
    pub fn count(&self) -> usize
        ensures value { result ≡ length self.now }
        ensures bound { result < 2 ^ 63 }
    {
        self.items.len()
    }

    /// The object of this rank, counted from 0; none exactly where `at` isn't below the count.
    #[tactic(auto, using(crate::proofs::ListLaws::mapped_get))]
    pub fn get(&self, at: usize) -> Option<&Made>
        ensures { option_map (λ x. made_of x.now) result ≡ slice_get self.now at }
    {
        self.items.get(at)
    }
}
