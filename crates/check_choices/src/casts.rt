//! Casts: C18 (ISO/IEC 9899:2024, 6.5.5).
ghost use Rattle.std.specs.Prelude.{◌≡◌, ◌&&◌, true, Ok, IfOk, IfErr};
ghost use Rattle.model_types.specs.declared.marks.Origin.TheVariants.{Written};
ghost use Rattle.model_types.specs.Types.{form_of_type};
ghost use Rattle.model_core.specs.CoreTypes as t;
ghost use Rattle.model_core.specs.SameTypes as s;
ghost use Rattle.model_core.specs.TypedParts as p;
ghost use Rattle.model_core.specs.Core as unit;
ghost use Rattle.model_checking.specs.Meanings.{a_value};
ghost use Rattle.model_checking.specs.CastRules as m;
ghost use Rattle.core_tree.specs.CoreTrees.{expr_tree};
ghost use Rattle.check_base.specs.Broken.{Broken};
ghost use Rattle.check_base.specs.Meanings.{meaning_of, operand_of, value_in};
ghost use Rattle.typed_rule_laws.specs.TypedMeanings.{is_typed_operand};

use crate::named::is_struct;
use c_types::{CType, Structs};
use cake_base::NoMemory;
use check_assignments::{ValueFacts, facts, read, refuse};
use check_base::{CheckError, Meaning, Operand, constraint};
use check_types::unqualified;
use check_values::{converts, unread_fault};
use core_tree::{CoreExpr, CoreExprForm, Mark, Origin};
use std::alloc::Global;

/// Whether a value may be cast to a type: to `void`, integers to integers, null pointer constants to pointers, pointers
/// to objects or functions to such, and pointers to `bool`.
fn may_be_cast(to: &CType, from: &ValueFacts) -> bool
    ensures { result ≡ (p.converts from.now.is_null (form_of_type from.now.ty) (form_of_type to.now) && p.origin_fits Written from.now.is_null (form_of_type from.now.ty) (form_of_type to.now)) }
{
    converts(from.is_null, &from.ty, to) && !is_struct(to)
}

fn written(alloc: Global, mark: Mark, ty: &CType, value: CoreExpr) -> Result<Meaning, NoMemory>
    requires { m.may_be_cast ty.now (expr_tree value) ≡ true }
    ensures { IfOk result (λ made. meaning_of made ≡ a_value (unit.Convert Written (t.unqualified ty.now) (expr_tree value) mark)) }
{
    let _typed = value.form();
    let ty = unqualified(alloc, ty)?;
    let made = CoreExpr::new(
        alloc,
        CoreExprForm::Convert {
            origin: Origin::Written,
            ty,
            operand: value,
            mark,
        },
    )?;
    Ok(Meaning::Value(made))
}

/// A cast to a type, at the `(`: C18, where the value can't be cast to it; C21 or C22 at the first token of the operand,
/// where it is an object that has no value. On refusal the operand is dropped.
#[tactic(auto, using(crate::proofs::CastLaws::unread_has_value))]
pub fn cast(
    alloc: Global,
    structs: &Structs,
    mark: Mark,
    ty: &CType,
    value: Operand,
) -> Result<Meaning, CheckError>
    requires { is_typed_operand structs.now (value_in value.value) ≡ true }
    ensures ok { IfOk result (λ made. m.cast structs.now mark ty.now (operand_of value) ≡ Ok (meaning_of made)) }
    ensures err { IfErr result (λ e. Broken e (m.cast structs.now mark ty.now (operand_of value))) }
{
    let from = facts(alloc, &value.value)?;
    if !may_be_cast(ty, &from) {
        return Err(CheckError::Fault(constraint(mark.at, 18)));
    }
    refuse(unread_fault(structs, &value))?;
    let value = read(alloc, value.value)?;
    let made = written(alloc, mark, ty, value)?;
    Ok(made)
}
