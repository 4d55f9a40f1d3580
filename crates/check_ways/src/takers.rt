//! Which subobject takes what stands without braces.
ghost use Rattle.std.specs.Prelude.{◌≡◌, ◌+◌, ◌<◌, find, if◌then◌else◌, is_some, ◌&&◌, IfOk};
ghost use Rattle.model_types.specs.Structures.{members_of};
ghost use Rattle.model_types.specs.Types as t;
ghost use Rattle.model_types.specs.Types.{form_of_type};
ghost use Rattle.model_types.specs.Layout as l;
ghost use Rattle.model_core.specs.SameTypes.{same_form};
ghost use Rattle.model_core.specs.TypedParts as p;
ghost use Rattle.c_types.specs.Forms.{form_of};
ghost use Rattle.model_checking.specs.Ways as w;
ghost use Rattle.check_ways.specs.Seen.{as_way, bare_of, is_taken};

use crate::parts::step_to;
use crate::way::{Step, Way};
use c_types::{Basic, CType, StructId, Structs, TypeForm};
use cake_base::NoMemory;
use std::alloc::Global;

/// What stands without braces.
#[derive(Drop)]
pub enum Bare {
    String,
    /// A value of a type.
    ValueOf(CType),
}

fn is_character_basic(basic: Basic) -> bool
    ensures { result ≡ w.is_character (t.Integer basic) }
{
    match basic {
        Basic::Char => true,
        Basic::SignedChar => true,
        Basic::UnsignedChar => true,
        Basic::Bool => false,
        Basic::Short => false,
        Basic::UnsignedShort => false,
        Basic::Int => false,
        Basic::Unsigned => false,
        Basic::Long => false,
        Basic::UnsignedLong => false,
        Basic::LongLong => false,
        Basic::UnsignedLongLong => false,
    }
}

fn is_character(form: &TypeForm) -> bool
    ensures { result ≡ w.is_character (form_of form.now) }
{
    match form {
        TypeForm::Integer(basic) => is_character_basic(*basic),
        TypeForm::Void => false,
        TypeForm::Array(..) => false,
        TypeForm::Struct(_) => false,
        TypeForm::Enum(..) => false,
        TypeForm::Pointer(_) => false,
        TypeForm::Function(..) => false,
    }
}

/// Whether a type is that of arrays of characters.
pub fn is_character_array(form: &TypeForm) -> bool
    ensures { result ≡ w.is_character_array (form_of form.now) }
{
    match form {
        TypeForm::Array(element, _) => is_character(element.form()),
        TypeForm::Integer(_) => false,
        TypeForm::Void => false,
        TypeForm::Struct(_) => false,
        TypeForm::Enum(..) => false,
        TypeForm::Pointer(_) => false,
        TypeForm::Function(..) => false,
    }
}

fn is_same_structure(a: &TypeForm, b: &TypeForm) -> bool
    ensures { result ≡ (p.is_struct (form_of a.now) && same_form (form_of a.now) (form_of b.now)) }
{
    match (a, b) {
        (TypeForm::Struct(a), TypeForm::Struct(b)) => a.0 == b.0,
        _ => false,
    }
}

/// Whether a type is a scalar one.
pub fn is_scalar(form: &TypeForm) -> bool
    ensures { result ≡ p.is_scalar (form_of form.now) }
{
    match form {
        TypeForm::Integer(_) => true,
        TypeForm::Enum(..) => true,
        TypeForm::Pointer(_) => true,
        TypeForm::Void => false,
        TypeForm::Array(..) => false,
        TypeForm::Struct(_) => false,
        TypeForm::Function(..) => false,
    }
}

fn takes_whole(bare: &Bare, form: &TypeForm) -> bool
    ensures { result ≡ w.takes_whole (bare_of bare.now) (form_of form.now) }
{
    match bare {
        Bare::String => is_character_array(form),
        Bare::ValueOf(ty) => is_same_structure(form, ty.form()),
    }
}

/// Whether what stands without braces is for an object of this form itself.
pub fn takes(bare: &Bare, form: &TypeForm) -> bool
    ensures { result ≡ w.takes (bare_of bare.now) (form_of form.now) }
{
    is_scalar(form) || takes_whole(bare, form)
}

/// A count, with one more where a structure is complete.
fn counted(structs: &Structs, id: StructId, count: u32) -> u32
    requires { count < 4294967295 }
    ensures { result ≡ (if is_some (members_of structs.now id) then count + 1 else count) }
{
    match structs.find_members(id) {
        Some(_) => count + 1,
        None => count,
    }
}

/// How many structures are complete.
fn complete_count(structs: &Structs) -> u32
    ensures { result ≡ l.complete_count structs.now }
{
    let mut count = 0;
    for at in 0..structs.count() {
        count = counted(structs, StructId(at), count);
    }
    count
}

/// Goes inward, from the subobject to which a way leads, to the first that takes what stands without braces.
pub fn taker(
    alloc: Global,
    structs: &Structs,
    bare: &Bare,
    object: &CType,
    way: &mut Way,
) -> Result<bool, NoMemory>
    ensures { IfOk result (λ found. as_way found way.new ≡ w.taker structs.now (bare_of bare.now) object.now way.old) }
{
    go_inward(alloc, structs, complete_count(structs), bare, object, way)
}

/// Goes inward, in structures that lie in one another at most this deep.
#[cycle(taker)]
#[tactic(auto, using(crate::proofs::InwardLaws::taken_here, crate::proofs::InwardLaws::taken_inside))]
fn go_inward(
    alloc: Global,
    structs: &Structs,
    depth: u32,
    bare: &Bare,
    object: &CType,
    way: &mut Way,
) -> Result<bool, NoMemory>
    ensures { IfOk result (λ found. as_way found way.new ≡ find (is_taken (bare_of bare.now) object.now) (w.inward (w.inward_struct depth structs.now) (w.reached object.now way.old) way.old)) }
{
    let whole = way.reached(object).copy(alloc)?;
    if takes(bare, whole.form()) {
        Ok(true)
    } else {
        enter(alloc, structs, depth, bare, object, &whole, way)
    }
}

#[cycle(taker)]
fn enter(
    alloc: Global,
    structs: &Structs,
    depth: u32,
    bare: &Bare,
    object: &CType,
    whole: &CType,
    way: &mut Way,
) -> Result<bool, NoMemory>
    ensures { IfOk result (λ found. as_way found way.new ≡ find (is_taken (bare_of bare.now) object.now) (w.inward_form (w.inward_struct depth structs.now) whole.now (form_of_type whole.now) way.old)) }
{
    match whole.form() {
        TypeForm::Array(element, _) => {
            let part = element.copy(alloc)?;
            let whole = whole.copy(alloc)?;
            way.put(Step {
                whole,
                rank: 0,
                part,
            })?;
            go_inward(alloc, structs, depth, bare, object, way)
        }
        TypeForm::Struct(id) => enter_structure(
            alloc, structs, depth, bare, object, whole, *id, way,
        ),
        TypeForm::Void => Ok(false),
        TypeForm::Integer(_) => Ok(false),
        TypeForm::Enum(..) => Ok(false),
        TypeForm::Pointer(_) => Ok(false),
        TypeForm::Function(..) => Ok(false),
    }
}

#[cycle(taker)]
fn enter_structure(
    alloc: Global,
    structs: &Structs,
    depth: u32,
    bare: &Bare,
    object: &CType,
    whole: &CType,
    id: StructId,
    way: &mut Way,
) -> Result<bool, NoMemory>
    ensures { IfOk result (λ found. as_way found way.new ≡ find (is_taken (bare_of bare.now) object.now) (w.inward_struct depth structs.now whole.now id way.old)) }
{
    if depth == 0 {
        return Ok(false);
    }
    if step_to(alloc, structs, whole, 0, way)? {
        go_inward(alloc, structs, depth - 1, bare, object, way)
    } else {
        Ok(false)
    }
}
