//! Each call that makes or copies, once with ample memory.
ghost use Rattle.std.specs.Prelude.{◌≡◌, ◌<◌, [], ◌∷◌, ◌++◌, List, length, IsTrue, IfOk, OnOk};
ghost use Rattle.std.specs.List.{list_all};
ghost use Rattle.model_types.specs.Types as t;
ghost use Rattle.model_types.specs.Structures as m;
ghost use Rattle.model_types.specs.Layout as l;

use crate::*;
use cake_base::{Bytes, NoMemory, Place};
use std::alloc::Global;

const PLAIN: Quals = Quals {
    has_const: false,
    has_restrict: false,
    has_owner: false,
    has_view: false,
    has_opt: false,
};

const HERE: Place = Place {
    file: 0,
    line: 1,
    column: 1,
    order: 0,
};

fn pointer_to(alloc: Global, depth: u32) -> Result<CType, NoMemory> {
    let mut made = CType::new(alloc, TypeForm::Integer(Basic::Char), PLAIN)?;
    for _ in 0..depth {
        made = CType::new(alloc, TypeForm::Pointer(made), PLAIN)?;
    }
    Ok(made)
}

#[test]
fn types_are_made_and_copied(rt: HostRuntime) {
    let alloc = rt.alloc();
    let structs = Structs::new(alloc);
    let made = pointer_to(alloc, 1000).expect(&rt, "memory");
    let other = made.copy(alloc).expect(&rt, "memory");
    let plain = other.with_quals(alloc, PLAIN).expect(&rt, "memory");
    let mut list = TypeList::new(alloc);
    list.push(plain).expect(&rt, "memory");
    assert_eq!(rt; list.count(), 1);
    match list.get(0) {
        Some(ty) => assert!(rt; compatible(&structs, ty, &made)),
        None => assert!(rt; false),
    }
    assert_eq!(rt; size_of(&structs, &made), Some(8));
}

/// Adds a member without qualifiers.
fn add(alloc: Global, members: &mut Members, name: &[u8], basic: Basic) -> Result<(), NoMemory>
    requires { length members.old < 3 }
    ensures { OnOk result (members.new ≡ members.old ++ record { name = name.now; ty = t.typed (t.Integer basic) PLAIN; place = HERE } ∷ []) }
{
    let ty = CType::new(alloc, TypeForm::Integer(basic), PLAIN)?;
    let mut text = Bytes::new(alloc);
    text.push(name)?;
    members.push(text, ty, HERE)
}

fn char_int_short(alloc: Global) -> Result<Members, NoMemory>
    ensures some { IfOk result (λ made. 0 < length made) }
    ensures known { IfOk result (λ made. IsTrue (list_all (λ e. m.names_below 1 e.ty) made)) }
    ensures complete { IfOk result (λ made. (structs : List m.Structure) → IsTrue (list_all (λ e. l.is_complete structs e.ty) made)) }
{
    let mut members = Members::new(alloc);
    add(alloc, &mut members, b"a", Basic::Char)?;
    add(alloc, &mut members, b"b", Basic::Int)?;
    add(alloc, &mut members, b"c", Basic::Short)?;
    Ok(members)
}

#[test]
fn structures_are_completed_and_copied(rt: HostRuntime) {
    let alloc = rt.alloc();
    let mut structs = Structs::new(alloc);
    let id = structs.add(None, true, HERE).expect(&rt, "memory");
    if let Ok(members) = char_int_short(alloc) {
        structs.complete(id, members);
    }
    let copy = structs.copy(alloc).expect(&rt, "memory");
    let ty = CType::new(alloc, TypeForm::Struct(id), PLAIN).expect(&rt, "memory");
    assert_eq!(rt; size_of(&copy, &ty), Some(12));
    assert_eq!(rt; align_of(&copy, &ty), Some(4));
    for (member, want) in [(0, Some(0)), (1, Some(4)), (2, Some(8)), (3, None)] {
        assert_eq!(rt; member_offset(&copy, &ty, member), want);
    }
    let limit = CType::new(alloc, TypeForm::Array(ty, Some(89_478_486)), PLAIN).expect(
        &rt, "memory",
    );
    assert_eq!(rt; size_of(&copy, &limit), None);
}
