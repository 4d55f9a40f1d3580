//! Where designators lead (6.7.11, paragraph 7).
ghost use Rattle.std.specs.Prelude.{◌≡◌, [], Result, Ok, Err, IfErr, OnOk};
ghost use Rattle.model_types.specs.Types.{form_of_type};
ghost use Rattle.model_core.specs.TypedParts as t;
ghost use Rattle.c_types.specs.Forms.{form_of};
ghost use Rattle.model_checking.specs.Ways as w;
ghost use Rattle.model_checking.specs.Ways.{reached};
ghost use Rattle.model_checking.specs.Placing as p;
ghost use Rattle.check_base.specs.Broken.{Broken};
ghost use Rattle.check_ways.specs.Seen.{as_way};
ghost use Rattle.given_tree.specs.GivenViews.{step_of, steps_of};

use c_types::{CType, Structs, TypeForm};
use cake_base::Place;
use check_base::{CheckError, constraint};
use check_ways::{Way, member_rank, step_to};
use given_tree::GivenStep;
use std::alloc::Global;

/// Whether a type is that of arrays.
pub fn is_array(form: &TypeForm) -> bool
    ensures { result ≡ t.is_array (form_of form.now) }
{
    match form {
        TypeForm::Array(..) => true,
        TypeForm::Integer(_) => false,
        TypeForm::Enum(..) => false,
        TypeForm::Pointer(_) => false,
        TypeForm::Void => false,
        TypeForm::Struct(_) => false,
        TypeForm::Function(..) => false,
    }
}

/// One step, to the element or member of a rank; C34 where there is none.
fn enter(
    alloc: Global,
    structs: &Structs,
    whole: &CType,
    rank: u64,
    place: Place,
    way: &mut Way,
) -> Result<(), CheckError>
    ensures ok { OnOk result (p.or_breaks (w.step_to structs.now whole.now rank way.old) place 34 ≡ Ok way.new) }
    ensures err { IfErr result (λ e. Broken e (p.or_breaks (w.step_to structs.now whole.now rank way.old) place 34)) }
{
    if step_to(alloc, structs, whole, rank, way)? {
        Ok(())
    } else {
        Err(CheckError::Fault(constraint(place, 34)))
    }
}

fn designated_one(
    alloc: Global,
    structs: &Structs,
    whole: &CType,
    step: &GivenStep,
    way: &mut Way,
) -> Result<(), CheckError>
    ensures ok { OnOk result (p.designated_one structs.now whole.now (step_of step.now) way.old ≡ Ok way.new) }
    ensures err { IfErr result (λ e. Broken e (p.designated_one structs.now whole.now (step_of step.now) way.old)) }
{
    match step {
        GivenStep::Element { index, place } => {
            if is_array(whole.form()) {
                enter(alloc, structs, whole, *index, *place, way)
            } else {
                Err(CheckError::Fault(constraint(*place, 34)))
            }
        }
        GivenStep::NoElement { place } => Err(CheckError::Fault(constraint(*place, 34))),
        GivenStep::FaultyIndex { fault, place } => {
            if is_array(whole.form()) {
                Err(CheckError::Fault(*fault))
            } else {
                Err(CheckError::Fault(constraint(*place, 34)))
            }
        }
        GivenStep::Member { name, place } => {
            match member_rank(structs, whole, name.as_slice()) {
                Some(rank) => enter(alloc, structs, whole, rank, *place, way),
                None => Err(CheckError::Fault(constraint(*place, 34))),
            }
        }
    }
}

fn designated_from(
    alloc: Global,
    structs: &Structs,
    object: &CType,
    step: &GivenStep,
    way: &mut Way,
) -> Result<(), CheckError>
    ensures ok { OnOk result (p.designated_one structs.now (reached object.now way.old) (step_of step.now) way.old ≡ Ok way.new) }
    ensures err { IfErr result (λ e. Broken e (p.designated_one structs.now (reached object.now way.old) (step_of step.now) way.old)) }
{
    let whole = way.reached(object).copy(alloc)?;
    designated_one(alloc, structs, &whole, step, way)
}

/// Goes on from a way as designators lead.
fn designated(
    alloc: Global,
    structs: &Structs,
    object: &CType,
    steps: &[GivenStep],
    way: &mut Way,
) -> Result<(), CheckError>
    ensures ok { OnOk result (p.designated structs.now object.now (steps_of steps.now) way.old ≡ Ok way.new) }
    ensures err { IfErr result (λ e. Broken e (p.designated structs.now object.now (steps_of steps.now) way.old)) }
{
    for step in steps {
        designated_from(alloc, structs, object, step, way)?;
    }
    Ok(())
}

/// Goes to where an initializer in a list begins: where its designators lead, else behind the one before it, if there is
/// something behind; C33 where there isn't, C34 where designators lead nowhere.
pub fn begin(
    alloc: Global,
    structs: &Structs,
    object: &CType,
    there: bool,
    steps: &[GivenStep],
    first: Place,
    way: &mut Way,
) -> Result<(), CheckError>
    ensures ok { OnOk result (p.begin structs.now object.now (as_way there way.old) (steps_of steps.now) first ≡ Ok way.new) }
    ensures err { IfErr result (λ e. Broken e (p.begin structs.now object.now (as_way there way.old) (steps_of steps.now) first)) }
{
    match steps.split_first() {
        None => {
            if there {
                Ok(())
            } else {
                Err(CheckError::Fault(constraint(first, 33)))
            }
        }
        Some(_) => {
            *way = Way::new(alloc);
            designated(alloc, structs, object, steps, way)
        }
    }
}
