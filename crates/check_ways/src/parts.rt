//! The elements of arrays and the members of structures, one behind another.
ghost use Rattle.std.specs.Prelude.{◌≡◌, ◌+◌, [], ◌∷◌, Option, Some, None, false, IfOk, OnOk};
ghost use Rattle.model_types.specs.Types as t;
ghost use Rattle.model_types.specs.Types.{form_of_type};
ghost use Rattle.c_types.specs.Forms.{form_of};
ghost use Rattle.model_checking.specs.Ways as w;
ghost use Rattle.check_ways.specs.Seen.{as_way, part_of_form};

use crate::members::{member_in, member_type};
use crate::way::{Step, Way};
use c_types::{CType, StructId, Structs, TypeForm};
use cake_base::NoMemory;
use std::alloc::Global;

fn element_type(
    alloc: Global,
    element: &CType,
    length: Option<u64>,
    rank: u64,
) -> Result<Option<CType>, NoMemory>
    ensures { IfOk result (λ part. part ≡ w.element_type element.now length rank) }
{
    match length {
        Some(length) => {
            if rank < length {
                Ok(Some(element.copy(alloc)?))
            } else {
                Ok(None)
            }
        }
        None => Ok(Some(element.copy(alloc)?)),
    }
}

#[tactic(auto, using(crate::proofs::PartLaws::ranked))]
fn ranked_member(
    alloc: Global,
    structs: &Structs,
    whole: &CType,
    id: StructId,
    rank: u64,
) -> Result<Option<CType>, NoMemory>
    ensures { IfOk result (λ part. part ≡ part_of_form structs.now (t.quals_of_type whole.now) (t.Struct id) rank) }
{
    match member_in(structs, id, rank) {
        Some(member) => Ok(Some(member_type(alloc, whole.quals(), member.ty())?)),
        None => Ok(None),
    }
}

/// The type of the element or member of a rank, counted from 0.
#[tactic(auto, using(crate::proofs::PartLaws::part_by_form))]
fn part_type(
    alloc: Global,
    structs: &Structs,
    whole: &CType,
    rank: u64,
) -> Result<Option<CType>, NoMemory>
    ensures { IfOk result (λ part. part ≡ w.part_type structs.now whole.now rank) }
{
    match whole.form() {
        TypeForm::Array(element, length) => element_type(alloc, element, *length, rank),
        TypeForm::Struct(id) => ranked_member(alloc, structs, whole, *id, rank),
        TypeForm::Void => Ok(None),
        TypeForm::Integer(_) => Ok(None),
        TypeForm::Enum(..) => Ok(None),
        TypeForm::Pointer(_) => Ok(None),
        TypeForm::Function(..) => Ok(None),
    }
}

/// Goes on to the element or member of a rank, counted from 0, where there is one.
pub fn step_to(
    alloc: Global,
    structs: &Structs,
    whole: &CType,
    rank: u64,
    way: &mut Way,
) -> Result<bool, NoMemory>
    ensures found { IfOk result (λ found. as_way found way.new ≡ w.step_to structs.now whole.now rank way.old) }
    ensures lost { IfOk result (λ found. found ≡ false → way.new ≡ way.old) }
{
    match part_type(alloc, structs, whole, rank)? {
        Some(part) => {
            let whole = whole.copy(alloc)?;
            way.put(Step { whole, rank, part })?;
            Ok(true)
        }
        None => Ok(false),
    }
}

/// Goes on to the subobject behind, where there is one: the next element or member, and behind the last one what is
/// behind the whole.
pub fn behind(alloc: Global, structs: &Structs, way: &mut Way) -> Result<bool, NoMemory>
    ensures { IfOk result (λ found. as_way found way.new ≡ w.behind structs.now way.old) }
{
    while let Some(last) = way.pop() {
        if last.rank == u64::MAX {
            return Err(NoMemory);
        }
        if step_to(alloc, structs, &last.whole, last.rank + 1, way)? {
            return Ok(true);
        }
    }
    Ok(false)
}

fn is_aggregate(form: &TypeForm) -> bool
    ensures { result ≡ w.is_aggregate (form_of form.now) }
{
    match form {
        TypeForm::Array(..) => true,
        TypeForm::Struct(_) => true,
        TypeForm::Void => false,
        TypeForm::Integer(_) => false,
        TypeForm::Enum(..) => false,
        TypeForm::Pointer(_) => false,
        TypeForm::Function(..) => false,
    }
}

/// Goes from an object to where a list in braces begins: its first element or member, or a scalar itself.
pub fn start(
    alloc: Global,
    structs: &Structs,
    object: &CType,
    way: &mut Way,
) -> Result<bool, NoMemory>
    ensures { way.old ≡ [] → IfOk result (λ found. as_way found way.new ≡ w.start structs.now object.now) }
{
    if is_aggregate(object.form()) {
        step_to(alloc, structs, object, 0, way)
    } else {
        Ok(true)
    }
}
