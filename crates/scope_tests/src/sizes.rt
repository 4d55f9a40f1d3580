//! Sizes, alignments, offsets, ranks and compatibility (ISO/IEC 9899:2024, 6.2.7, 6.2.8, 6.7.3.2), and integer operations
//! at their edges.
ghost use Rattle.std.specs.Prelude.{◌≡◌, ◌<◌, [], ◌∷◌, ◌++◌, List, length, IsTrue, IfOk, OnOk, OnErr};
ghost use Rattle.std.specs.List.{list_all};
ghost use Rattle.model_types.specs.Types as t;
ghost use Rattle.model_types.specs.Structures as m;
ghost use Rattle.model_types.specs.Layout as l;

use crate::typed::{PLAIN, type_of};
use c_types::{
    Basic, BinOp, CType, Const, Members, OpFault, StructId, Structs, TypeForm, align_of,
    compatible, const_op, convert, is_complete, member_offset, size_of,
};
use cake_base::{Bytes, NoMemory, Place};
use check_types::{basic_of, is_integer, promoted, same_type, same_value_type, usual};
use std::alloc::Global;
use std::test::Fail;

const HERE: Place = Place {
    file: 0,
    line: 1,
    column: 1,
    order: 0,
};

/// Types with their sizes and alignments; none where they are incomplete.
const TYPES: [(&str, Option<u64>, Option<u64>); 9] = [
    ("int", Some(4), Some(4)),
    ("long", Some(8), Some(8)),
    ("enum1", Some(4), Some(4)),
    ("void*", Some(8), Some(8)),
    ("[3]", Some(12), Some(4)),
    ("[]", None, None),
    ("void", None, None),
    ("int()", None, None),
    ("&[]", None, None),
];

#[test]
fn types_have_sizes(rt: HostRuntime) -> Result<(), Fail> {
    let alloc = rt.alloc();
    let structs = Structs::new(alloc);
    for (word, size, align) in TYPES {
        let ty = type_of(alloc, word)?;
        assert_eq!(rt; size_of(&structs, &ty), size, "{word}");
        assert_eq!(rt; align_of(&structs, &ty), align, "{word}");
        assert_eq!(rt; is_complete(&structs, &ty), size.is_some(), "{word}");
    }
    Ok(())
}

/// The types of three members, with their offsets and the size and alignment of their structure.
type Laid = ((Basic, Basic, Basic), (u64, u64, u64), u64, u64);

const STRUCTURES: [Laid; 6] = [
    ((Basic::Char, Basic::Int, Basic::Short), (0, 4, 8), 12, 4),
    ((Basic::Char, Basic::Char, Basic::Char), (0, 1, 2), 3, 1),
    ((Basic::Short, Basic::Char, Basic::Int), (0, 2, 4), 8, 4),
    ((Basic::Int, Basic::Short, Basic::Char), (0, 4, 6), 8, 4),
    ((Basic::Long, Basic::Char, Basic::Short), (0, 8, 10), 16, 8),
    ((Basic::Char, Basic::Long, Basic::Bool), (0, 8, 16), 24, 8),
];

/// Adds a member without qualifiers.
pub fn add(alloc: Global, members: &mut Members, name: &[u8], basic: Basic) -> Result<(), NoMemory>
    requires { length members.old < 4294967295 }
    ensures ok { OnOk result (members.new ≡ members.old ++ record { name = name.now; ty = t.typed (t.Integer basic) PLAIN; place = HERE } ∷ []) }
    ensures err { OnErr result (members.new ≡ members.old) }
{
    let ty = CType::new(alloc, TypeForm::Integer(basic), PLAIN)?;
    members.push(Bytes::of(alloc, name)?, ty, HERE)
}

/// `a`, `b` and `a` again.
fn three(alloc: Global, types: (Basic, Basic, Basic)) -> Result<Members, NoMemory>
    ensures some { IfOk result (λ made. 0 < length made) }
    ensures known { IfOk result (λ made. IsTrue (list_all (λ e. m.names_below 1 e.ty) made)) }
    ensures complete { IfOk result (λ made. (structs : List m.Structure) → IsTrue (list_all (λ e. l.is_complete structs e.ty) made)) }
{
    let mut members = Members::new(alloc);
    add(alloc, &mut members, b"a", types.0)?;
    add(alloc, &mut members, b"b", types.1)?;
    add(alloc, &mut members, b"a", types.2)?;
    Ok(members)
}

/// One structure, of these members.
pub fn structure_of(alloc: Global, members: Members) -> Result<Structs, NoMemory>
    requires some { 0 < length members }
    requires known { IsTrue (list_all (λ e. m.names_below 1 e.ty) members) }
    requires complete { (structs : List m.Structure) → IsTrue (list_all (λ e. l.is_complete structs e.ty) members) }
{
    let mut structs = Structs::new(alloc);
    let id = structs.add(None, true, HERE)?;
    structs.complete(id, members);
    Ok(structs)
}

/// The type of the first structure.
pub fn structure_type(alloc: Global) -> Result<CType, NoMemory> {
    CType::new(alloc, TypeForm::Struct(StructId(0)), PLAIN)
}

/// The rank of a member of the first structure.
pub fn rank(structs: &Structs, name: &[u8]) -> Option<u32> {
    match structs.find_members(StructId(0)) {
        Some(members) => members.rank(name),
        None => None,
    }
}

#[test]
fn members_are_laid_out(rt: HostRuntime) -> Result<(), Fail> {
    let alloc = rt.alloc();
    for (types, (first, second, third), size, align) in STRUCTURES {
        let structs = structure_of(alloc, three(alloc, types)?)?;
        let ty = structure_type(alloc)?;
        assert_eq!(rt; size_of(&structs, &ty), Some(size));
        assert_eq!(rt; align_of(&structs, &ty), Some(align));
        assert_eq!(rt; member_offset(&structs, &ty, 0), Some(first));
        assert_eq!(rt; member_offset(&structs, &ty, 1), Some(second));
        assert_eq!(rt; member_offset(&structs, &ty, 2), Some(third));
        assert_eq!(rt; member_offset(&structs, &ty, 3), None);
        assert_eq!(rt; rank(&structs, b"a"), Some(0));
        assert_eq!(rt; rank(&structs, b"b"), Some(1));
        assert_eq!(rt; rank(&structs, b"c"), None);
    }
    Ok(())
}

/// Pairs of types, and whether they are compatible.
const COMPATIBLE: [(&str, &str, bool); 11] = [
    ("int", "int", true),
    ("int", "long", false),
    ("enum1", "int", true),
    ("enum1", "enum2", false),
    ("[3]", "[]", true),
    ("[3]", "[4]", false),
    ("&[3]", "&[]", true),
    ("&[3]", "&[4]", false),
    ("int()", "void(int)", false),
    ("void(void*)", "void(void*)", true),
    ("void(void*)", "void(void*_Owner_Opt)", false),
];

#[test]
fn types_are_compatible(rt: HostRuntime) -> Result<(), Fail> {
    let alloc = rt.alloc();
    let structs = Structs::new(alloc);
    for (one, other, want) in COMPATIBLE {
        let (a, b) = (type_of(alloc, one)?, type_of(alloc, other)?);
        assert_eq!(rt; compatible(&structs, &a, &b), want, "{one} {other}");
        assert_eq!(rt; compatible(&structs, &b, &a), want, "{other} {one}");
    }
    Ok(())
}

/// Two types, and the common one after the usual arithmetic conversions (6.3.2.8).
const COMMON: [(&str, &str, Basic); 4] = [
    ("int", "int", Basic::Int),
    ("int", "long", Basic::Long),
    ("enum1", "enum2", Basic::Int),
    ("enum1", "long", Basic::Long),
];

#[test]
fn integers_have_a_common_type(rt: HostRuntime) -> Result<(), Fail> {
    let alloc = rt.alloc();
    for (one, other, want) in COMMON {
        let (a, b) = (type_of(alloc, one)?, type_of(alloc, other)?);
        let common = usual(alloc, &a, &b)?;
        assert_eq!(rt; basic_of(&common), want, "{one} {other}");
        assert!(rt;
            same_type(&common, &promoted(alloc, &common)?),
            "{one} {other}"
        );
        assert!(rt;
            same_value_type(&common, &usual(alloc, &b, &a)?),
            "{other} {one}"
        );
        assert!(rt; is_integer(&a) && is_integer(&common), "{one}");
    }
    Ok(())
}

fn int(value: i128) -> Const {
    Const {
        value: convert(value, Basic::Int),
        basic: Basic::Int,
    }
}

/// Operations on ints that have no value, and why.
const FAULTS: [(BinOp, i128, i128, OpFault); 10] = [
    (BinOp::ShiftLeft, 1, 31, OpFault::BadShift),
    (BinOp::ShiftLeft, -1, 0, OpFault::BadShift),
    (BinOp::ShiftRight, 1, 32, OpFault::BadShift),
    (BinOp::ShiftRight, 1, -1, OpFault::BadShift),
    (BinOp::Div, 1, 0, OpFault::ZeroDivisor),
    (BinOp::Rem, 1, 0, OpFault::ZeroDivisor),
    (BinOp::Div, -2_147_483_648, -1, OpFault::Overflow),
    (BinOp::Rem, -2_147_483_648, -1, OpFault::Overflow),
    (BinOp::Mul, 65_536, 32_768, OpFault::Overflow),
    (BinOp::Sub, -2_147_483_648, 1, OpFault::Overflow),
];

#[test]
fn faults_are_told_apart(rt: HostRuntime) -> Result<(), Fail> {
    for (op, left, right, want) in FAULTS {
        assert!(rt;
            matches!(const_op(op, int(left), int(right)), Err(fault) if fault == want),
            "{left} {right}"
        );
    }
    for (value, to, want) in [
        (200, Basic::Char, -56),
        (300, Basic::UnsignedChar, 44),
        (5, Basic::Bool, 1),
    ] {
        assert_eq!(rt; convert(value, to), want);
    }
    Ok(())
}
