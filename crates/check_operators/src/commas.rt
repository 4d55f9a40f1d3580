//! The comma operator (ISO/IEC 9899:2024, 6.5.18).
ghost use Rattle.std.specs.Prelude.{◌≡◌, true, None, Ok, IfOk, IfErr};
ghost use Rattle.model_core.specs.Core as unit;
ghost use Rattle.model_checking.specs.MadeCore as c;
ghost use Rattle.model_checking.specs.Meanings.{a_value};
ghost use Rattle.model_checking.specs.ChoiceRules as m;
ghost use Rattle.check_base.specs.Broken.{Broken};
ghost use Rattle.check_base.specs.Meanings.{meaning_of, operand_of};
ghost use Rattle.core_tree.specs.CoreTrees.{expr_tree};
ghost use Rattle.check_operators.specs.Designated.{loads_no_array};

use crate::faults::or_fault;
use crate::values::load;
use c_types::Structs;
use cake_base::NoMemory;
use check_base::{CheckError, Meaning, Operand, OperandValue};
use check_values::unread_fault;
use core_tree::{CoreExpr, CoreExprForm, Mark};
use std::alloc::Global;

/// The value of an operand that isn't an object without a value.
#[tactic(auto, using(crate::proofs::ScalarLaws::read_is_stored))]
fn read(alloc: Global, structs: &Structs, operand: Operand) -> Result<CoreExpr, NoMemory>
    requires array { loads_no_array (operand_of operand).value ≡ true }
    requires known { c.unread_fault structs.now (operand_of operand) ≡ None }
    ensures { IfOk result (λ made. expr_tree made ≡ (operand_of operand).value) }
{
    match operand.value {
        OperandValue::Read(value) => Ok(value),
        OperandValue::Unread(object) => load(alloc, object),
    }
}

fn in_order(
    alloc: Global,
    structs: &Structs,
    mark: Mark,
    first: Operand,
    second: Operand,
) -> Result<Meaning, NoMemory>
    requires first_array { loads_no_array (operand_of first).value ≡ true }
    requires second_array { loads_no_array (operand_of second).value ≡ true }
    requires first_known { c.unread_fault structs.now (operand_of first) ≡ None }
    requires second_known { c.unread_fault structs.now (operand_of second) ≡ None }
    ensures { IfOk result (λ made. meaning_of made ≡ a_value (unit.Comma (operand_of first).value (operand_of second).value mark)) }
{
    let first = read(alloc, structs, first)?;
    let second = read(alloc, structs, second)?;
    let _first = first.form();
    let _second = second.form();
    let value = CoreExpr::new(
        alloc,
        CoreExprForm::Comma {
            first,
            second,
            mark,
        },
    )?;
    Ok(Meaning::Value(value))
}

/// The first operand and then the second, whose values may be `void`. C21 and C22 of an operand that is an object
/// without a value, the first before the second. On refusal the operands are dropped.
pub fn comma(
    alloc: Global,
    structs: &Structs,
    mark: Mark,
    first: Operand,
    second: Operand,
) -> Result<Meaning, CheckError>
    requires first { loads_no_array (operand_of first).value ≡ true }
    requires second { loads_no_array (operand_of second).value ≡ true }
    ensures ok { IfOk result (λ made. m.comma structs.now mark (operand_of first) (operand_of second) ≡ Ok (meaning_of made)) }
    ensures err { IfErr result (λ e. Broken e (m.comma structs.now mark (operand_of first) (operand_of second))) }
{
    let fault = or_fault(
        unread_fault(structs, &first),
        unread_fault(structs, &second),
    );
    match fault {
        None => Ok(in_order(alloc, structs, mark, first, second)?),
        Some(fault) => {
            drop(first);
            drop(second);
            Err(CheckError::Fault(fault))
        }
    }
}
