//! The walk over an object's initializer.
ghost use Rattle.std.specs.Prelude.{◌≡◌, ◌++◌, [], Result, Ok, Err, IfOk, IfErr, OnOk};
ghost use Rattle.model_scopes.specs.DeclarationRules.{constraint_at};
ghost use Rattle.check_base.specs.Meanings.{value_in};
ghost use Rattle.model_checking.specs.Parts as m;
ghost use Rattle.model_checking.specs.Ways as w;
ghost use Rattle.model_checking.specs.Placing as p;
ghost use Rattle.check_ways.specs.Seen.{as_way};
ghost use Rattle.given_tree.specs.GivenTrees.{given_tree};
ghost use Rattle.given_tree.specs.GivenViews.{given_of, items_of, steps_of};
ghost use Rattle.check_placing.specs.Walks.{Walks, Stopped, behind_all, placement_of};

use crate::aims::{aimed, fits_whole};
use crate::faults::{given_first, with_own};
use crate::placed::{Content, PlacedList, Placement, copy_value, put};
use crate::strings::{place_string, whole_string};
use c_types::{CType, Structs};
use cake_base::{Fault, NoMemory, Place};
use check_base::{CheckError, Operand, constraint};
use check_ways::{Way, behind, start};
use given_tree::{Given, GivenForm, GivenItem};
use sqlite_items::Items;
use std::alloc::Global;

fn place_value(
    alloc: Global,
    part: &CType,
    path: Items<u64>,
    operand: &Operand,
    later: Option<Fault>,
    out: &mut PlacedList,
) -> Result<(), CheckError>
    ensures { Walks out.old (p.alone (record { path = path; type = part.now; content = p.Value (value_in operand.now.value) later; first = operand.now.first })) result out.new }
{
    let value = copy_value(alloc, &operand.value)?;
    put(
        alloc,
        part,
        path,
        Content::Value { value, later },
        operand.first,
        out,
    )?;
    Ok(())
}

fn copy_path(alloc: Global, path: &[u64]) -> Result<Items<u64>, NoMemory>
    ensures { IfOk result (λ made. made ≡ path.now) }
{
    let copy = Items::from_slice(alloc, path)?;
    Ok(copy)
}

/// Places what is given for a subobject.
#[cycle(place)]
fn place_at(
    alloc: Global,
    structs: &Structs,
    part: &CType,
    path: Items<u64>,
    given: &Given,
    out: &mut PlacedList,
) -> Result<(), CheckError>
    ensures { Walks out.old (p.place_at structs.now part.now path (given_tree given.now)) result out.new }
{
    match given.form() {
        GivenForm::Value { operand, later } => place_value(alloc, part, path, operand, *later, out),
        GivenForm::Text {
            object,
            bytes,
            address,
            first,
        } => place_string(alloc, part, path, *object, bytes, address, *first, out),
        GivenForm::Braces { items, place } => {
            place_braces(alloc, structs, part, path, items.as_slice(), *place, out)
        }
        GivenForm::Faulty { fault, .. } => Err(CheckError::Fault(*fault)),
    }
}

/// Places what stands in braces, behind the zeros with which they begin.
#[cycle(place)]
fn place_braces(
    alloc: Global,
    structs: &Structs,
    part: &CType,
    path: Items<u64>,
    items: &[GivenItem],
    place: Place,
    out: &mut PlacedList,
) -> Result<(), CheckError>
    ensures { Walks out.old (p.place_at structs.now part.now path (m.in_braces (items_of items.now) place)) result out.new }
{
    let inner = copy_path(alloc, path.as_slice())?;
    put(alloc, part, path, Content::Zeros, place, out)?;
    match whole_string(part, items) {
        Some(s) => place_string(
            alloc, part, inner, s.object, s.bytes, s.address, s.first, out,
        ),
        None => place_list(alloc, structs, part, inner.as_slice(), items, out),
    }
}

/// Places an initializer of a list.
#[cycle(place)]
fn place_item(
    alloc: Global,
    structs: &Structs,
    object: &CType,
    path: &[u64],
    there: bool,
    item: &GivenItem,
    way: &mut Way,
    out: &mut PlacedList,
) -> Result<(), CheckError>
    ensures ok { OnOk result (p.aimed structs.now object.now (given_tree item.now.first) (p.begin structs.now object.now (as_way there way.old) (steps_of item.now.steps) (p.given_first (given_tree item.now.first))) ≡ Ok way.new) }
    ensures walks { Walks out.old (p.on_way (p.aimed structs.now object.now (given_tree item.now.first) (p.begin structs.now object.now (as_way there way.old) (steps_of item.now.steps) (p.given_first (given_tree item.now.first)))) (λ to. p.place_at structs.now (w.reached object.now to) (path.now ++ w.ranks to) (given_tree item.now.first))) result out.new }
{
    aimed(
        alloc,
        structs,
        object,
        there,
        item.steps.as_slice(),
        item.first.form(),
        way,
    )?;
    let inner = way.path(alloc, path)?;
    place_at(alloc, structs, way.reached(object), inner, &item.first, out)
}

/// Places an initializer of a list, and goes to the subobject behind, if there is one.
#[cycle(place)]
fn pass_item(
    alloc: Global,
    structs: &Structs,
    object: &CType,
    path: &[u64],
    there: bool,
    item: &GivenItem,
    way: &mut Way,
    out: &mut PlacedList,
) -> Result<bool, CheckError>
    ensures ok { IfOk result (λ found. (others : m.GivenItems) → behind_all out.old (p.place_list structs.now object.now path.now (as_way there way.old) (m.more_given (steps_of item.now.steps) item.now.first others)) ≡ behind_all out.new (p.place_list structs.now object.now path.now (as_way found way.new) others)) }
    ensures err { IfErr result (λ e. (others : m.GivenItems) → Stopped e out.new (behind_all out.old (p.place_list structs.now object.now path.now (as_way there way.old) (m.more_given (steps_of item.now.steps) item.now.first others)))) }
{
    place_item(alloc, structs, object, path, there, item, way, out)?;
    Ok(behind(alloc, structs, way)?)
}

#[cycle(place)]
fn place_list(
    alloc: Global,
    structs: &Structs,
    object: &CType,
    path: &[u64],
    items: &[GivenItem],
    out: &mut PlacedList,
) -> Result<(), CheckError>
    ensures { Walks out.old (p.place_list structs.now object.now path.now (w.start structs.now object.now) (items_of items.now)) result out.new }
{
    let mut way = Way::new(alloc);
    let mut there = start(alloc, structs, object, &mut way)?;
    for item in items {
        there = pass_item(alloc, structs, object, path, there, item, &mut way, out)?;
    }
    Ok(())
}

fn not_whole(structs: &Structs, given: &GivenForm) -> Fault
    ensures { result ≡ p.with_own structs.now (given_of given.now) (constraint_at (p.given_first (given_of given.now)) 35) }
{
    with_own(structs, given, constraint(given_first(given), 35))
}

/// What an object's initializer is for, in the order of the source, up to the first of C33, C34 and C35 or of the faults
/// that values and indices have by themselves (6.7.11).
pub fn placement(
    alloc: Global,
    structs: &Structs,
    object: &CType,
    given: &Given,
) -> Result<Placement, NoMemory>
    ensures { IfOk result (λ made. placement_of made ≡ p.placement structs.now object.now (given_tree given.now)) }
{
    let mut placed = PlacedList::new(alloc);
    if !fits_whole(alloc, object, given.form())? {
        let fault = not_whole(structs, given.form());
        return Ok(Placement {
            placed,
            fault: Some(fault),
        });
    }
    let path = Items::new(alloc);
    match place_at(alloc, structs, object, path, given, &mut placed) {
        Ok(()) => Ok(Placement {
            placed,
            fault: None,
        }),
        Err(CheckError::Fault(fault)) => Ok(Placement {
            placed,
            fault: Some(fault),
        }),
        Err(_) => Err(NoMemory),
    }
}
