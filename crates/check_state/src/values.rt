//! Values of objects of static storage, bodies of functions, and ids that no block has.

use c_types::CType;
use cake_base::Place;
use core_tree::{CoreInitial, CoreStat};
use decl_scope::DeclId;
use sqlite_items::Items;

/// The values of an object of static storage, with the type that it has where it is initialised (ISO/IEC 9899:2024, 6.7.11).
#[derive(Drop)]
pub struct Valued {
    pub id: DeclId,
    pub ty: CType,
    pub values: Items<CoreInitial>,
}

/// The body of a function that is defined (6.9.2), with the ids of its parameters; of a function literal also the place of its
/// `(`.
#[derive(Drop)]
pub struct Body {
    pub id: DeclId,
    pub literal: Option<Place>,
    pub ty: CType,
    pub parameters: Items<DeclId>,
    pub body: CoreStat,
}

/// The ids from a first up to another.
#[derive(Clone, Copy, Debug, PartialEq, Eq)]
pub struct IdRange {
    pub from: u32,
    pub to: u32,
}
