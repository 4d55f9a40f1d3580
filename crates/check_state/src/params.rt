//! What is declared in the scope of a list of parameters.
ghost use Rattle.std.specs.Prelude.{◌≡◌, ◌<◌, ◌^◌, [], ◌∷◌, ◌++◌, length, slice_get, OnOk, OnErr};
ghost use Rattle.std.specs.Option.{option_copied};

use cake_base::NoMemory;
use decl_scope::Entry;
use std::alloc::Global;
use std::marker::Model;

/// Declarations in their order, such as those in the scope of a list of parameters (ISO/IEC 9899:2024, 6.7.7.4).
#[derive(Drop)]
pub struct Params {
    items: Vec<Entry>,
}

impl Model for Params {
    ghost use Rattle.std.specs.Prelude.{List};
    ghost use Rattle.std.specs.Coded.{coded_list};
    ghost use Rattle.model_scopes.specs.Declarations as m;
    ghost use Rattle.model_scopes.specs.apparatus.DeclarationCode.{coded_declaration};

    ghost Value = { List m.Declaration };

    ghost coded = { coded_list coded_declaration };

    ghost view = { λ l. l.items.items };
}

impl Params {
    /// The empty list.
    pub fn new(alloc: Global) -> Params
        ensures { result ≡ [] }
    {
        Params {
            items: Vec::new(alloc),
        }
    }

    /// Adds a declaration at the end. After a refusal the list is as before, and the declaration is dropped.
    pub fn push(&mut self, item: Entry) -> Result<(), NoMemory>
        ensures ok { OnOk result (self.new ≡ self.old ++ item ∷ []) }
        ensures err { OnErr result (self.new ≡ self.old) }
    {
        match self.items.push(item) {
            Ok(()) => Ok(()),
            Err(failed) => {
                drop(failed);
                Err(NoMemory)
            }
        }
    }

    /// The number of declarations.
    pub fn count(&self) -> usize
        ensures value { result ≡ length self.now }
        ensures bound { result < 2 ^ 63 }
    {
        self.items.len()
    }

    /// The declaration of this rank, counted from 0; none exactly where `at` isn't below the count.
    pub fn get(&self, at: usize) -> Option<&Entry>
        ensures { option_copied result ≡ slice_get self.now at }
    {
        self.items.get(at)
    }
}
