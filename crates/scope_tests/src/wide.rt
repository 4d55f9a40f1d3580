//! A structure of very many members, each of which is found at once by its rank and by its name.
ghost use Rattle.std.specs.Prelude.{List, IsTrue, IfOk};
ghost use Rattle.std.specs.List.{list_all};
ghost use Rattle.model_types.specs.Structures as m;
ghost use Rattle.model_types.specs.Layout as l;

use crate::sizes::{add, rank, structure_of, structure_type};
use c_types::{Basic, Members, Structs, member_offset};
use std::alloc::Global;
use std::test::Fail;

const COUNT: u32 = 200_000;

/// Adds an int that is named by its rank.
#[tactic(auto, using(crate::proofs::PushedMembers::list_all_push))]
fn add_int(alloc: Global, members: &mut Members, rank: u32) -> Result<(), Fail>
    requires known { IsTrue (list_all (λ e. m.names_below 1 e.ty) members.old) }
    requires complete { (structs : List m.Structure) → IsTrue (list_all (λ e. l.is_complete structs e.ty) members.old) }
    ensures known { IsTrue (list_all (λ e. m.names_below 1 e.ty) members.new) }
    ensures complete { (structs : List m.Structure) → IsTrue (list_all (λ e. l.is_complete structs e.ty) members.new) }
{
    if members.count() == u32::MAX {
        return Err(Fail::from("too many members"));
    }
    let name = format!(in alloc; "m{rank}")?;
    add(alloc, members, name.as_bytes(), Basic::Int)?;
    Ok(())
}

/// So many ints.
fn ints(alloc: Global, count: u32) -> Result<Members, Fail>
    ensures known { IfOk result (λ made. IsTrue (list_all (λ e. m.names_below 1 e.ty) made)) }
    ensures complete { IfOk result (λ made. (structs : List m.Structure) → IsTrue (list_all (λ e. l.is_complete structs e.ty) made)) }
{
    let mut members = Members::new(alloc);
    for rank in 0..count {
        add_int(alloc, &mut members, rank)?;
    }
    Ok(members)
}

fn wide(alloc: Global, count: u32) -> Result<Structs, Fail> {
    let members = ints(alloc, count)?;
    if members.count() == 0 {
        return Err(Fail::from("no member"));
    }
    Ok(structure_of(alloc, members)?)
}

#[test]
fn members_of_wide_structures_are_found_at_once(rt: HostRuntime) -> Result<(), Fail> {
    let alloc = rt.alloc();
    let structs = wide(alloc, COUNT)?;
    let ty = structure_type(alloc)?;
    for at in 0..COUNT {
        let name = format!(in alloc; "m{at}")?;
        assert_eq!(rt; rank(&structs, name.as_bytes()), Some(at));
        assert_eq!(rt; member_offset(&structs, &ty, at), Some(4 * at as u64));
    }
    Ok(())
}
