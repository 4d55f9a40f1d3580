//! Strings, for arrays of characters and for scalars.
ghost use Rattle.std.specs.Prelude.{◌≡◌, if◌then◌else◌, List, ℕ, Option, Some, None, option_map, Result};
ghost use Rattle.model_types.specs.Types.{form_of_type};
ghost use Rattle.c_types.specs.Forms.{form_of};
ghost use Rattle.core_tree.specs.CoreTrees.{expr_tree};
ghost use Rattle.model_checking.specs.Parts.{Given, GivenItems, more_given};
ghost use Rattle.model_checking.specs.Placing as p;
ghost use Rattle.given_tree.specs.GivenTrees.{given_tree};
ghost use Rattle.given_tree.specs.GivenViews.{given_of, items_of, steps_of};
ghost use Rattle.check_placing.specs.Walks.{Walks};

use crate::placed::{Content, PlacedList, put};
use c_types::{CType, TypeForm};
use cake_base::{Bytes, Place};
use check_base::{CheckError, constraint};
use check_ways::is_character_array;
use core_tree::{CoreExpr, DeclId};
use given_tree::{GivenForm, GivenItem};
use sqlite_items::Items;
use std::alloc::Global;

/// Whether an array has room for the bytes of a string, its final zero aside.
fn is_long_enough(form: &TypeForm, bytes: &Bytes) -> bool
    ensures { result ≡ p.is_long_enough (form_of form.now) bytes.now }
{
    match form {
        TypeForm::Array(_, Some(count)) => bytes.as_slice().len() as u64 <= *count,
        TypeForm::Array(_, None) => true,
        TypeForm::Integer(_) => true,
        TypeForm::Enum(..) => true,
        TypeForm::Pointer(_) => true,
        TypeForm::Void => true,
        TypeForm::Struct(_) => true,
        TypeForm::Function(..) => true,
    }
}

/// Places a string; C33 where it is longer than its array.
pub fn place_string(
    alloc: Global,
    part: &CType,
    path: Items<u64>,
    object: DeclId,
    bytes: &Bytes,
    address: &CoreExpr,
    first: Place,
    out: &mut PlacedList,
) -> Result<(), CheckError>
    ensures { Walks out.old (p.string_at part.now path object.0 bytes.now (expr_tree address.now) first) result out.new }
{
    if !is_long_enough(part.form(), bytes) {
        return Err(CheckError::Fault(constraint(first, 33)));
    }
    let bytes = Bytes::of(alloc, bytes.as_slice())?;
    let address = address.copy(alloc)?;
    put(
        alloc,
        part,
        path,
        Content::Text {
            object,
            bytes,
            address,
        },
        first,
        out,
    )?;
    Ok(())
}

/// A string that is given.
#[derive(Drop)]
pub struct GivenString<'a> {
    pub object: DeclId,
    pub bytes: &'a Bytes,
    pub address: &'a CoreExpr,
    pub first: Place,
}

/// A string by which an array of characters is initialised.
fn array_string<'a>(part: &CType, given: &'a GivenForm) -> Option<GivenString<'a>>
    ensures { (path : List ℕ) → option_map (λ s. p.string_at part.now path s.object.0 s.bytes.now (expr_tree s.address.now) s.first) result ≡ p.whole_string part.now path (Some (given_of given.now)) }
{
    match given {
        GivenForm::Text {
            object,
            bytes,
            address,
            first,
        } => {
            if is_character_array(part.form()) {
                Some(GivenString {
                    object: *object,
                    bytes,
                    address,
                    first: *first,
                })
            } else {
                None
            }
        }
        GivenForm::Value { .. } => None,
        GivenForm::Braces { .. } => None,
        GivenForm::Faulty { .. } => None,
    }
}

fn are_no_more(items: &[GivenItem]) -> bool
    ensures { result ≡ p.are_no_more (items_of items.now) }
{
    match items.split_first() {
        Some(_) => false,
        None => true,
    }
}

fn has_no_steps(item: &GivenItem) -> bool
    ensures { (first : Given) → (others : GivenItems) → p.lone (more_given (steps_of item.now.steps) first others) ≡ (if result then (if p.are_no_more others then Some first else None) else None) }
{
    match item.steps.as_slice().split_first() {
        Some(_) => false,
        None => true,
    }
}

/// A string that stands alone in the braces of an array of characters.
pub fn whole_string<'a>(part: &CType, items: &'a [GivenItem]) -> Option<GivenString<'a>>
    ensures { (path : List ℕ) → option_map (λ s. p.string_at part.now path s.object.0 s.bytes.now (expr_tree s.address.now) s.first) result ≡ p.whole_string part.now path (p.lone (items_of items.now)) }
{
    match items.split_first() {
        Some((item, others)) => {
            if has_no_steps(item) && are_no_more(others) {
                array_string(part, item.first.form())
            } else {
                None
            }
        }
        None => None,
    }
}
