//! What may be given to an object of a type: C16 and C17 (ISO/IEC 9899:2024, 6.5.3.3, 6.5.17.2, 6.7.11, 6.8.7.5).
ghost use Rattle.std.specs.Prelude.{◌≡◌, ◌&&◌, if◌then◌else◌, not, true, Ok, IfOk, IfErr};
ghost use Rattle.model_types.specs.Types.{form_of_type};
ghost use Rattle.model_core.specs.CoreTypes.{type_of};
ghost use Rattle.model_core.specs.SameTypes as s;
ghost use Rattle.model_core.specs.TypedParts as p;
ghost use Rattle.model_checking.specs.Conversion as m;
ghost use Rattle.model_checking.specs.Qualifiers as q;
ghost use Rattle.core_tree.specs.CoreTrees.{expr_tree};
ghost use Rattle.check_base.specs.Broken.{Broken};
ghost use Rattle.check_base.specs.Meanings.{value_in};

use crate::operands::{ValueFacts, facts, read, refuse};
use crate::qualifiers::loses_behind;
use c_types::{CType, Structs};
use cake_base::{Fault, NoMemory};
use check_base::{CheckError, Operand, constraint};
use check_values::{converted, converts, implied_fits, used_fault};
use core_tree::CoreExpr;
use std::alloc::Global;

/// Whether a value may become one of a type by an implied conversion.
fn may_become(alloc: Global, to: &CType, from: &ValueFacts) -> Result<bool, NoMemory>
    ensures { IfOk result (λ fit. fit ≡ (p.converts from.now.is_null (form_of_type from.now.ty) (form_of_type to.now) && p.implied_fits from.now.is_null (form_of_type from.now.ty) (form_of_type to.now))) }
{
    let implied = implied_fits(alloc, from.is_null, &from.ty, to)?;
    Ok(converts(from.is_null, &from.ty, to) && implied)
}

/// Whether a value loses no qualifiers of what it points to.
fn keeps_qualifiers(to: &CType, from: &ValueFacts) -> bool
    ensures { result ≡ (if from.now.is_null then true else not (q.loses_behind (form_of_type from.now.ty) (form_of_type to.now))) }
{
    from.is_null || !loses_behind(&from.ty, to)
}

/// What is broken where a value is given to an object of a type, at the value's first token: C16, C17, or C21 or C22.
fn passed_fault(
    alloc: Global,
    structs: &Structs,
    to: &CType,
    value: &Operand,
) -> Result<Option<Fault>, NoMemory>
    ensures { IfOk result (λ fault. fault ≡ m.passed_fault structs.now value.now.first to.now (value_in value.now.value)) }
{
    let from = facts(alloc, &value.value)?;
    if !may_become(alloc, to, &from)? {
        return Ok(Some(constraint(value.first, 16)));
    }
    if !keeps_qualifiers(to, &from) {
        return Ok(Some(constraint(value.first, 17)));
    }
    Ok(used_fault(structs, value))
}

/// A value as an object of a type gets it: an argument, an assigned, returned or initial value. C16, where it can't
/// become one of the type; C17, where a pointer loses qualifiers of what it points to; C21 or C22, where there is no
/// value: each at the first token of the value. On refusal the value is dropped.
#[tactic(auto, using(crate::proofs::GivenLaws::passed_converts, crate::proofs::GivenLaws::passed_fits, crate::proofs::GivenLaws::passed_has_value, crate::proofs::GivenLaws::passed_of_type))]
pub fn given(
    alloc: Global,
    structs: &Structs,
    to: &CType,
    value: Operand,
) -> Result<CoreExpr, CheckError>
    ensures ok { IfOk result (λ made. m.passed structs.now value.first to.now (value_in value.value) ≡ Ok (expr_tree made)) }
    ensures of_type { IfOk result (λ made. s.same_value_type to.now (type_of (expr_tree made)) ≡ true) }
    ensures err { IfErr result (λ e. Broken e (m.passed structs.now value.first to.now (value_in value.value))) }
{
    refuse(passed_fault(alloc, structs, to, &value)?)?;
    let value = read(alloc, value.value)?;
    let made = converted(alloc, to, value)?;
    Ok(made)
}
