//! What is placed where.
ghost use Rattle.std.specs.Prelude.{◌≡◌, [], ◌∷◌, ◌++◌, IfOk, OnOk};
ghost use Rattle.check_base.specs.Meanings.{value_in};
ghost use Rattle.check_placing.specs.Seen.{all_placed, content_of, placed_of};

use c_types::CType;
use cake_base::{Bytes, Fault, NoMemory, Place};
use check_base::OperandValue;
use core_tree::{CoreExpr, DeclId};
use sqlite_items::Items;
use std::alloc::Global;
use std::marker::Model;

/// What is placed for a subobject.
#[derive(Drop)]
pub enum Content {
    /// A value, with the first fault of the bodies of its function literals.
    Value {
        value: OperandValue,
        later: Option<Fault>,
    },
    /// A string, with the object that it is where it fills no array, and that object's address.
    Text {
        object: DeclId,
        bytes: Bytes,
        address: CoreExpr,
    },
    /// The zeros with which braces begin.
    Zeros,
}

/// What is placed for the subobject of a type to which ranks lead, each counted from 0, with its first token.
#[derive(Drop)]
pub struct Placed {
    pub path: Items<u64>,
    pub ty: CType,
    pub content: Content,
    pub first: Place,
}

/// What is placed, in the order of the source.
pub struct PlacedList {
    items: Vec<Placed>,
}

impl Drop for PlacedList {
    fn drop(self) {
        let PlacedList { items: _ } = self;
    }
}

impl Model for PlacedList {
    ghost use Rattle.std.specs.Prelude.{List};
    ghost use Rattle.model_checking.specs.Placing as p;
    ghost use Rattle.std.specs.Coded.{coded_list};
    ghost use Rattle.check_placing.specs.Seen.{all_placed};
    ghost use Rattle.check_placing.specs.apparatus.PlacedCode.{coded_placed};

    ghost Value = { List p.Placed };

    ghost coded = { coded_list coded_placed };

    ghost view = { λ a. all_placed a.items.items };
}

impl PlacedList {
    pub(crate) fn new(alloc: Global) -> PlacedList
        ensures { result ≡ [] }
    {
        PlacedList {
            items: Vec::new(alloc),
        }
    }

    /// On refusal what was to be placed is dropped.
    #[tactic(auto, using(crate::proofs::PlacedLaws::one_more))]
    fn push(&mut self, placed: Placed) -> Result<(), NoMemory>
        ensures { OnOk result (self.new ≡ self.old ++ placed_of placed ∷ []) }
    {
        match self.items.push(placed) {
            Ok(()) => Ok(()),
            Err(failed) => {
                drop(failed);
                Err(NoMemory)
            }
        }
    }

    /// What is placed, in order.
    pub fn as_slice(&self) -> &[Placed]
        ensures { all_placed result.now ≡ self.now }
    {
        &self.items
    }
}

/// All that is placed, or what is before a fault.
#[derive(Drop)]
pub struct Placement {
    pub placed: PlacedList,
    pub fault: Option<Fault>,
}

/// Places what is for a subobject.
pub(crate) fn put(
    alloc: Global,
    part: &CType,
    path: Items<u64>,
    content: Content,
    first: Place,
    out: &mut PlacedList,
) -> Result<(), NoMemory>
    ensures { OnOk result (out.new ≡ out.old ++ (record { path = path; type = part.now; content = content_of content; first = first }) ∷ []) }
{
    let ty = part.copy(alloc)?;
    out.push(Placed {
        path,
        ty,
        content,
        first,
    })
}

/// An equal value.
pub(crate) fn copy_value(alloc: Global, value: &OperandValue) -> Result<OperandValue, NoMemory>
    ensures { IfOk result (λ made. value_in made ≡ value_in value.now) }
{
    match value {
        OperandValue::Read(value) => Ok(OperandValue::Read(value.copy(alloc)?)),
        OperandValue::Unread(object) => Ok(OperandValue::Unread(object.copy(alloc)?)),
    }
}
