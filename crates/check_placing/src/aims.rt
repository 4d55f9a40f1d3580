//! Which subobject takes what is given, from where it begins.
ghost use Rattle.std.specs.Prelude.{◌≡◌, Result, Ok, Err, IfOk, IfErr, OnOk};
ghost use Rattle.model_types.specs.Types.{form_of_type};
ghost use Rattle.model_checking.specs.Ways as w;
ghost use Rattle.model_checking.specs.Placing as p;
ghost use Rattle.check_base.specs.Broken.{Broken};
ghost use Rattle.check_ways.specs.Seen.{as_way, bare_of};
ghost use Rattle.given_tree.specs.GivenViews.{given_of, steps_of};

use crate::designators::{begin, is_array};
use crate::faults::{given_first, value_type, with_own};
use c_types::{CType, Structs};
use cake_base::{NoMemory, Place};
use check_base::{CheckError, constraint};
use check_ways::{Bare, Way, taker, takes};
use given_tree::{GivenForm, GivenStep};
use std::alloc::Global;

/// Goes inward to what takes a string or a value; C35 where nothing does.
fn to_taker(
    alloc: Global,
    structs: &Structs,
    object: &CType,
    bare: &Bare,
    first: Place,
    way: &mut Way,
) -> Result<(), CheckError>
    ensures ok { OnOk result (p.or_breaks (w.taker structs.now (bare_of bare.now) object.now way.old) first 35 ≡ Ok way.new) }
    ensures err { IfErr result (λ e. Broken e (p.or_breaks (w.taker structs.now (bare_of bare.now) object.now way.old) first 35)) }
{
    if taker(alloc, structs, bare, object, way)? {
        Ok(())
    } else {
        Err(CheckError::Fault(constraint(first, 35)))
    }
}

fn aimed_from(
    alloc: Global,
    structs: &Structs,
    object: &CType,
    given: &GivenForm,
    way: &mut Way,
) -> Result<(), CheckError>
    ensures ok { OnOk result (p.aimed_from structs.now object.now (given_of given.now) way.old ≡ Ok way.new) }
    ensures err { IfErr result (λ e. Broken e (p.aimed_from structs.now object.now (given_of given.now) way.old)) }
{
    match given {
        GivenForm::Value { operand, .. } => {
            let ty = value_type(alloc, &operand.value)?;
            to_taker(
                alloc,
                structs,
                object,
                &Bare::ValueOf(ty),
                operand.first,
                way,
            )
        }
        GivenForm::Text { first, .. } => to_taker(
            alloc,
            structs,
            object,
            &Bare::String,
            *first,
            way,
        ),
        GivenForm::Braces { .. } => Ok(()),
        GivenForm::Faulty { fault, .. } => Err(CheckError::Fault(*fault)),
    }
}

/// Goes to the subobject that takes an initializer in a list.
pub fn aimed(
    alloc: Global,
    structs: &Structs,
    object: &CType,
    there: bool,
    steps: &[GivenStep],
    given: &GivenForm,
    way: &mut Way,
) -> Result<(), CheckError>
    ensures ok { OnOk result (p.aimed structs.now object.now (given_of given.now) (p.begin structs.now object.now (as_way there way.old) (steps_of steps.now) (p.given_first (given_of given.now))) ≡ Ok way.new) }
    ensures err { IfErr result (λ e. Broken e (p.aimed structs.now object.now (given_of given.now) (p.begin structs.now object.now (as_way there way.old) (steps_of steps.now) (p.given_first (given_of given.now))))) }
{
    match begin(
        alloc,
        structs,
        object,
        there,
        steps,
        given_first(given),
        way,
    ) {
        Ok(()) => aimed_from(alloc, structs, object, given, way),
        Err(CheckError::Fault(fault)) => Err(CheckError::Fault(with_own(structs, given, fault))),
        Err(CheckError::Limit(hit)) => Err(CheckError::Limit(hit)),
        Err(CheckError::NotBuilt(place)) => Err(CheckError::NotBuilt(place)),
        Err(CheckError::NoMemory) => Err(CheckError::NoMemory),
    }
}

/// Whether an object's initializer is for the object as a whole.
pub fn fits_whole(alloc: Global, object: &CType, given: &GivenForm) -> Result<bool, NoMemory>
    ensures { IfOk result (λ fits. fits ≡ p.fits_whole (form_of_type object.now) (given_of given.now)) }
{
    match given {
        GivenForm::Braces { .. } => Ok(true),
        GivenForm::Text { .. } => Ok(takes(&Bare::String, object.form())),
        GivenForm::Value { operand, .. } => {
            let ty = value_type(alloc, &operand.value)?;
            Ok(takes(&Bare::ValueOf(ty), object.form()))
        }
        GivenForm::Faulty { .. } => Ok(!is_array(object.form())),
    }
}
