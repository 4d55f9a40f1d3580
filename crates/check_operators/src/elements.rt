//! `[]` (ISO/IEC 9899:2024, 6.5.3.2).
ghost use Rattle.std.specs.Prelude.{◌≡◌, true, ◌||◌, None, Ok, IfOk, IfErr};
ghost use Rattle.model_core.specs.TypedExpr.{form_of};
ghost use Rattle.model_checking.specs.Faults as f;
ghost use Rattle.model_checking.specs.PointerRules as m;
ghost use Rattle.check_base.specs.Broken.{Broken};
ghost use Rattle.check_base.specs.Meanings.{meaning_of, operand_of};
ghost use Rattle.check_operators.specs.Rules as r;
ghost use Rattle.check_operators.specs.Seen.{seen};

use crate::faults::{moved_fault, or_fault};
use crate::sums::are_moved;
use crate::values::{Values, values_of};
use c_types::Structs;
use cake_base::{Fault, NoMemory};
use check_base::{CheckError, Meaning, Operand, constraint};
use check_types::is_pointer;
use check_values::used_fault;
use core_tree::{CoreLvalue, CoreLvalueForm, Mark};
use std::alloc::Global;

/// An element that a pointer and an integer designate.
fn element_place(
    alloc: Global,
    structs: &Structs,
    mark: Mark,
    both: Values,
) -> Result<Meaning, NoMemory>
    requires kinds { m.are_moved (form_of both.left.value) (form_of both.right.value) || m.are_moved (form_of both.right.value) (form_of both.left.value) ≡ true }
    requires moved { f.or_fault (m.moved_fault structs.now (seen both.left)) (m.moved_fault structs.now (seen both.right)) ≡ None }
    ensures { IfOk result (λ made. meaning_of made ≡ m.element_place mark both.left.value both.right.value) }
{
    let (first, second) = (both.left.value, both.right.value);
    let _first = first.form();
    let _second = second.form();
    let is_second = is_pointer(second.ty());
    let object = CoreLvalue::new(
        alloc,
        CoreLvalueForm::Index {
            is_second,
            first,
            second,
            mark,
        },
    )?;
    Ok(Meaning::Place {
        object,
        known: None,
    })
}

/// What the pointer of an index breaks.
fn pointer_fault(structs: &Structs, both: &Values) -> Option<Fault>
    ensures { result ≡ f.or_fault (m.moved_fault structs.now (seen both.now.left)) (m.moved_fault structs.now (seen both.now.right)) }
{
    let Values { left, right } = both;
    or_fault(
        moved_fault(structs, left.value.ty(), left.first),
        moved_fault(structs, right.value.ty(), right.first),
    )
}

fn of_values(
    alloc: Global,
    structs: &Structs,
    mark: Mark,
    both: Values,
) -> Result<Meaning, CheckError>
    ensures ok { IfOk result (λ made. r.element structs.now mark (seen both.left) (seen both.right) ≡ Ok (meaning_of made)) }
    ensures err { IfErr result (λ e. Broken e (r.element structs.now mark (seen both.left) (seen both.right))) }
{
    let (left, right) = (both.left.value.ty(), both.right.value.ty());
    if !(are_moved(left, right) || are_moved(right, left)) {
        drop(both);
        return Err(CheckError::Fault(constraint(mark.at, 9)));
    }
    match pointer_fault(structs, &both) {
        None => Ok(element_place(alloc, structs, mark, both)?),
        Some(fault) => {
            drop(both);
            Err(CheckError::Fault(fault))
        }
    }
}

#[tactic(auto, using(crate::proofs::ScalarLaws::no_scalar_element))]
fn of_operands(
    alloc: Global,
    structs: &Structs,
    mark: Mark,
    array: Operand,
    index: Operand,
) -> Result<Meaning, CheckError>
    ensures ok { IfOk result (λ made. r.element structs.now mark (operand_of array) (operand_of index) ≡ Ok (meaning_of made)) }
    ensures err { IfErr result (λ e. Broken e (r.element structs.now mark (operand_of array) (operand_of index))) }
{
    match values_of(alloc, array, index)? {
        Some(both) => of_values(alloc, structs, mark, both),
        None => Err(CheckError::Fault(constraint(mark.at, 9))),
    }
}

/// The element that a pointer and an integer designate, in either order. C21 and C22 of the left operand, where its
/// value can't be used; C09 at the `[`, where the operands are no pointer and integer; C12 at the pointer, where it
/// is to no complete object. On refusal the operands are dropped.
pub fn index(
    alloc: Global,
    structs: &Structs,
    mark: Mark,
    array: Operand,
    index: Operand,
) -> Result<Meaning, CheckError>
    ensures ok { IfOk result (λ made. m.index structs.now mark (operand_of array) (operand_of index) ≡ Ok (meaning_of made)) }
    ensures err { IfErr result (λ e. Broken e (m.index structs.now mark (operand_of array) (operand_of index))) }
{
    match used_fault(structs, &array) {
        None => of_operands(alloc, structs, mark, array, index),
        Some(fault) => {
            drop(array);
            drop(index);
            Err(CheckError::Fault(fault))
        }
    }
}
