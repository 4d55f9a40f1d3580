//! Members of a structure, one by one (ISO/IEC 9899:2024, 6.7.3.2).
ghost use Rattle.std.specs.Prelude.{◌≡◌};
ghost use Rattle.check_tags.specs.Members.{AddsMember};

use c_types::{CType, Members, Structs, is_complete};
use cake_base::{Bytes, Place};
use check_base::{CheckError, constraint};
use model_grammar::syntax::Name;
use std::alloc::Global;

/// A member isn't of a complete object type.
const INCOMPLETE: u32 = 22;

/// Adds a member of a type behind the others of its structure. C22 at the first token of its declarator, where the type isn't
/// complete. The caller notes the type.
pub fn add_member(
    alloc: Global,
    structs: &Structs,
    members: &mut Members,
    name: &Name,
    ty: CType,
    first: Place,
) -> Result<(), CheckError>
    ensures { AddsMember structs.now members.old name.now ty first result members.new }
{
    if !is_complete(structs, &ty) {
        drop(ty);
        return Err(CheckError::Fault(constraint(first, INCOMPLETE)));
    }
    if members.count() == u32::MAX {
        drop(ty);
        return Err(CheckError::NoMemory);
    }
    let text = Bytes::of(alloc, name.text.as_slice())?;
    members.push(text, ty, name.place)?;
    Ok(())
}
