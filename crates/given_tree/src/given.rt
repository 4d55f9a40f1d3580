//! The nodes of a given initializer.
ghost use Rattle.std.specs.Prelude.{◌≡◌, IfOk};
ghost use Rattle.given_tree.specs.GivenViews.{given_of};
ghost use Rattle.given_tree.specs.GivenTrees.{given_tree};

use cake_base::{Bytes, Fault, NoMemory, Place};
use check_base::Operand;
use core_tree::{CoreExpr, DeclId};
use sqlite_items::Items;
use std::alloc::Global;
use std::marker::Model;
use std::rc::Rc;

/// Where a designator leads, with the place of its `[` or `.` (6.7.11).
#[derive(Drop)]
pub enum GivenStep {
    Element { index: u64, place: Place },
    /// A negative index.
    NoElement { place: Place },
    Member { name: Bytes, place: Place },
    /// An index that is faulty by itself.
    FaultyIndex { fault: Fault, place: Place },
}

/// The forms of a given initializer.
#[cycle(given)]
#[derive(Drop)]
pub enum GivenForm {
    /// A value, with the first fault of the bodies of its function literals.
    Value {
        operand: Operand,
        later: Option<Fault>,
    },
    /// A string, with the object that it is where it fills no array, and that object's address.
    Text {
        object: DeclId,
        bytes: Bytes,
        address: CoreExpr,
        first: Place,
    },
    /// Initializers in braces, with the place of the `{`.
    Braces {
        items: Items<GivenItem>,
        place: Place,
    },
    /// The first fault of a value.
    Faulty {
        fault: Fault,
        first: Place,
    },
}

/// A given initializer in braces, behind its designators.
#[cycle(given)]
#[derive(Drop)]
pub struct GivenItem {
    pub steps: Items<GivenStep>,
    pub first: Given,
}

/// A given initializer.
#[cycle(given)]
pub struct Given {
    form: Rc<GivenForm>,
}

impl Drop for Given {
    #[cycle(given_let_go)]
    fn drop(self) {
        let Given { form: _ } = self;
    }
}

impl Model for Given {
    ghost use Rattle.model_checking.specs.Parts as m;
    ghost use Rattle.given_tree.specs.apparatus.GivenCode.{coded_given};

    ghost Value = { m.Given };

    ghost coded = { coded_given };

    ghost use Rattle.given_tree.specs.GivenViews.{given_of};

    ghost view = { λ a. given_of a.form.value };

    ghost use Rattle.given_tree.specs.apparatus.GivenSizes.{given_nodes};

    ghost size = { given_nodes };

    ghost use Rattle.given_tree.specs.apparatus.GivenFalls.{given_falls};

    ghost size_decreases = { λ a h. given_falls a.form.value };
}

impl Given {
    /// The initializer of a form. On refusal the form is dropped.
    pub fn new(alloc: Global, form: GivenForm) -> Result<Given, NoMemory>
        ensures { IfOk result (λ made. given_tree made ≡ given_of form) }
    {
        match Rc::new(alloc, form) {
            Ok(form) => Ok(Given { form }),
            Err(failed) => {
                drop(failed);
                Err(NoMemory)
            }
        }
    }

    /// The form that the initializer was made of.
    pub fn form(&self) -> &GivenForm
        ensures { given_of result.now ≡ given_tree self.now }
    {
        &self.form
    }
}
