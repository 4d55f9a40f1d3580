//! The binary operators (ISO/IEC 9899:2024, 6.5.6 to 6.5.13).
ghost use Rattle.std.specs.Prelude.{◌≡◌, Ok, IfOk, IfErr};
ghost use Rattle.model_checking.specs.BinaryRules as m;
ghost use Rattle.check_base.specs.Broken.{Broken};
ghost use Rattle.check_base.specs.Meanings.{meaning_of, operand_of};
ghost use Rattle.check_operators.specs.Seen.{seen};

use crate::comparisons::comparison;
use crate::operations::{arithmetic, shift};
use crate::sums::sum;
use crate::values::{Values, values_of};
use c_types::{BinOp, Structs};
use check_base::{CheckError, Meaning, Operand, constraint};
use check_values::used_fault;
use core_tree::Mark;
use std::alloc::Global;

fn of_values(
    alloc: Global,
    structs: &Structs,
    op: BinOp,
    mark: Mark,
    both: Values,
) -> Result<Meaning, CheckError>
    ensures ok { IfOk result (λ made. m.operation structs.now op mark (seen both.left) (seen both.right) ≡ Ok (meaning_of made)) }
    ensures err { IfErr result (λ e. Broken e (m.operation structs.now op mark (seen both.left) (seen both.right))) }
{
    match op {
        BinOp::Mul => arithmetic(alloc, BinOp::Mul, mark, both),
        BinOp::Div => arithmetic(alloc, BinOp::Div, mark, both),
        BinOp::Rem => arithmetic(alloc, BinOp::Rem, mark, both),
        BinOp::Add => sum(alloc, structs, BinOp::Add, mark, both),
        BinOp::Sub => sum(alloc, structs, BinOp::Sub, mark, both),
        BinOp::ShiftLeft => shift(alloc, BinOp::ShiftLeft, mark, both),
        BinOp::ShiftRight => shift(alloc, BinOp::ShiftRight, mark, both),
        BinOp::Less => comparison(alloc, BinOp::Less, mark, both),
        BinOp::Greater => comparison(alloc, BinOp::Greater, mark, both),
        BinOp::LessEqual => comparison(alloc, BinOp::LessEqual, mark, both),
        BinOp::GreaterEqual => comparison(alloc, BinOp::GreaterEqual, mark, both),
        BinOp::Equal => comparison(alloc, BinOp::Equal, mark, both),
        BinOp::NotEqual => comparison(alloc, BinOp::NotEqual, mark, both),
        BinOp::BitAnd => arithmetic(alloc, BinOp::BitAnd, mark, both),
        BinOp::BitXor => arithmetic(alloc, BinOp::BitXor, mark, both),
        BinOp::BitOr => arithmetic(alloc, BinOp::BitOr, mark, both),
    }
}

#[tactic(auto, using(crate::proofs::ScalarLaws::no_scalar_operation))]
fn operation(
    alloc: Global,
    structs: &Structs,
    op: BinOp,
    mark: Mark,
    left: Operand,
    right: Operand,
) -> Result<Meaning, CheckError>
    ensures ok { IfOk result (λ made. m.operation structs.now op mark (operand_of left) (operand_of right) ≡ Ok (meaning_of made)) }
    ensures err { IfErr result (λ e. Broken e (m.operation structs.now op mark (operand_of left) (operand_of right))) }
{
    match values_of(alloc, left, right)? {
        Some(both) => of_values(alloc, structs, op, mark, both),
        None => Err(CheckError::Fault(constraint(mark.at, 9))),
    }
}

/// A binary operator, with the conversions that it implies. C21 and C22 of the left operand, where its value can't be
/// used; C09 at the operator, where it doesn't take the operands; C12 at a pointer that is moved, but to no complete
/// object; C19 at the operator, where two pointers don't agree. On refusal the operands are dropped.
pub fn binary(
    alloc: Global,
    structs: &Structs,
    op: BinOp,
    mark: Mark,
    left: Operand,
    right: Operand,
) -> Result<Meaning, CheckError>
    ensures ok { IfOk result (λ made. m.binary structs.now op mark (operand_of left) (operand_of right) ≡ Ok (meaning_of made)) }
    ensures err { IfErr result (λ e. Broken e (m.binary structs.now op mark (operand_of left) (operand_of right))) }
{
    match used_fault(structs, &left) {
        None => operation(alloc, structs, op, mark, left, right),
        Some(fault) => {
            drop(left);
            drop(right);
            Err(CheckError::Fault(fault))
        }
    }
}
