//! The unary operators `&`, `*`, `+`, `-`, `~` and `!` (ISO/IEC 9899:2024, 6.5.4.1 to 6.5.4.4).
ghost use Rattle.std.specs.Prelude.{◌≡◌, true, false, None, Ok, IfOk, IfErr, IfSome, IfNone};
ghost use Rattle.model_types.specs.Types.{form_of_type};
ghost use Rattle.model_types.specs.declared.marks.Origin.TheVariants.{Written};
ghost use Rattle.check_operators.specs.Rules as r;
ghost use Rattle.model_core.specs.SameTypes as s;
ghost use Rattle.model_core.specs.TypedParts as p;
ghost use Rattle.model_core.specs.TypedExpr.{form_of, object_form};
ghost use Rattle.model_core.specs.Core as unit;
ghost use Rattle.model_checking.specs.Meanings.{a_place, a_value};
ghost use Rattle.model_checking.specs.MadeCore as c;
ghost use Rattle.model_checking.specs.HeldValues as h;
ghost use Rattle.model_checking.specs.UnaryRules as m;
ghost use Rattle.check_base.specs.Broken.{Broken};
ghost use Rattle.check_base.specs.Meanings.{meaning_of, operand_of};
ghost use Rattle.check_values.specs.Readable.{is_readable};
ghost use Rattle.core_tree.specs.CoreTrees.{expr_tree, lvalue_tree};
ghost use Rattle.check_operators.specs.Designated.{is_of_object};
ghost use Rattle.check_operators.specs.Seen.{seen};

use crate::faults::points_to_object;
use crate::values::{Value, value_of};
use c_types::{CType, Structs};
use cake_base::{NoMemory, Place};
use check_base::{CheckError, Meaning, Operand, constraint};
use check_types::is_integer;
use check_values::{is_function_pointer, is_scalar, is_void, operand, promoted_value};
use core_tree::{CoreExpr, CoreExprForm, CoreLvalue, CoreLvalueForm, DeclId, Mark, Origin};
use model_grammar::syntax::PrefixOp;
use model_types::operators::UnaryOp;
use std::alloc::Global;

/// Whether an lvalue is the object that holds a structure's value, or a member of it: no lvalue of the source.
fn is_held(object: &CoreLvalue) -> bool
    ensures { result ≡ h.is_held (lvalue_tree object.now) }
{
    match object.form() {
        CoreLvalueForm::Literal { origin, .. } => *origin == Origin::Implied,
        CoreLvalueForm::Field { structure, .. } => is_held(structure),
        CoreLvalueForm::Object { .. } => false,
        CoreLvalueForm::Deref { .. } => false,
        CoreLvalueForm::Index { .. } => false,
        CoreLvalueForm::Arrow { .. } => false,
    }
}

/// The address of an object; C11 at the first token of the operand, where that designates no object, or one of type
/// `void`.
fn object_address(
    alloc: Global,
    mark: Mark,
    first: Place,
    object: CoreLvalue,
) -> Result<Meaning, CheckError>
    requires { p.is_function (object_form (lvalue_tree object)) ≡ false }
    ensures ok { IfOk result (λ made. m.address mark first (a_place (lvalue_tree object) None) ≡ Ok (meaning_of made)) }
    ensures err { IfErr result (λ e. Broken e (m.address mark first (a_place (lvalue_tree object) None))) }
{
    if is_held(&object) || is_void(object.ty()) {
        drop(object);
        return Err(CheckError::Fault(constraint(first, 11)));
    }
    let _typed = object.form();
    let value = CoreExpr::new(
        alloc,
        CoreExprForm::Address {
            origin: Origin::Written,
            object,
            mark,
        },
    )?;
    Ok(Meaning::Value(value))
}

/// The address of a function, no longer by its name alone.
fn function_address(alloc: Global, id: DeclId, ty: CType, mark: Mark) -> Result<Meaning, NoMemory>
    requires { p.is_function (form_of_type ty) ≡ true }
    ensures { IfOk result (λ made. meaning_of made ≡ a_value (unit.FunctionRef id.0 ty false mark)) }
{
    let value = CoreExpr::new(
        alloc,
        CoreExprForm::FunctionRef {
            id,
            ty,
            by_name: false,
            mark,
        },
    )?;
    Ok(Meaning::Value(value))
}

/// `&`: C11 at the first token of the operand, where it is neither an object nor a function.
fn address(alloc: Global, mark: Mark, first: Place, meaning: Meaning) -> Result<Meaning, CheckError>
    requires readable { is_readable (meaning_of meaning) ≡ true }
    requires of_object { is_of_object (meaning_of meaning) ≡ true }
    ensures ok { IfOk result (λ made. m.address mark first (meaning_of meaning) ≡ Ok (meaning_of made)) }
    ensures err { IfErr result (λ e. Broken e (m.address mark first (meaning_of meaning))) }
{
    match meaning {
        Meaning::Place { object, .. } => object_address(alloc, mark, first, object),
        Meaning::Value(value) => {
            drop(value);
            Err(CheckError::Fault(constraint(first, 11)))
        }
        Meaning::Function {
            id,
            ty,
            mark: at,
            ..
        } => Ok(function_address(alloc, id, ty, at)?),
        Meaning::Target(pointer) => Ok(Meaning::Value(pointer)),
    }
}

/// The object that a pointer points to.
fn pointed_object(alloc: Global, mark: Mark, pointer: CoreExpr) -> Result<Meaning, NoMemory>
    requires { p.is_object_pointer (form_of (expr_tree pointer)) ≡ true }
    ensures { IfOk result (λ made. meaning_of made ≡ a_place (unit.Deref (expr_tree pointer) mark) None) }
{
    let _typed = pointer.form();
    let object = CoreLvalue::new(alloc, CoreLvalueForm::Deref { pointer, mark })?;
    Ok(Meaning::Place {
        object,
        known: None,
    })
}

/// What a value points to; C12 at its first token, where that is no complete object and no function.
fn followed_value(
    alloc: Global,
    structs: &Structs,
    mark: Mark,
    operand: Value,
) -> Result<Meaning, CheckError>
    ensures ok { IfOk result (λ made. m.followed structs.now mark (seen operand) ≡ Ok (meaning_of made)) }
    ensures err { IfErr result (λ e. Broken e (m.followed structs.now mark (seen operand))) }
{
    let Value { value, first } = operand;
    if is_function_pointer(value.ty()) {
        Ok(Meaning::Target(value))
    } else if points_to_object(structs, value.ty()) {
        Ok(pointed_object(alloc, mark, value)?)
    } else {
        drop(value);
        Err(CheckError::Fault(constraint(first, 12)))
    }
}

/// What an operand points to; C12 at its first token, where that is no complete object and no function.
#[tactic(auto, using(crate::proofs::ScalarLaws::no_scalar_followed))]
fn followed(
    alloc: Global,
    structs: &Structs,
    mark: Mark,
    operand: Operand,
) -> Result<Meaning, CheckError>
    ensures ok { IfOk result (λ made. m.followed structs.now mark (operand_of operand) ≡ Ok (meaning_of made)) }
    ensures err { IfErr result (λ e. Broken e (m.followed structs.now mark (operand_of operand))) }
{
    let first = operand.first;
    match value_of(alloc, operand)? {
        Some(value) => followed_value(alloc, structs, mark, value),
        None => Err(CheckError::Fault(constraint(first, 12))),
    }
}

/// `*`: a function is followed to itself, no longer by its name alone.
fn indirection(
    alloc: Global,
    structs: &Structs,
    mark: Mark,
    first: Place,
    meaning: Meaning,
) -> Result<Meaning, CheckError>
    requires { is_readable (meaning_of meaning) ≡ true }
    ensures ok { IfOk result (λ made. m.indirection structs.now mark first (meaning_of meaning) ≡ Ok (meaning_of made)) }
    ensures err { IfErr result (λ e. Broken e (m.indirection structs.now mark first (meaning_of meaning))) }
{
    match meaning {
        Meaning::Function { id, ty, mark, .. } => Ok(Meaning::Function {
            id,
            ty,
            by_name: false,
            mark,
        }),
        Meaning::Place { object, known } => {
            let operand = operand(alloc, first, Meaning::Place { object, known })?;
            followed(alloc, structs, mark, operand)
        }
        Meaning::Value(value) => {
            let operand = operand(alloc, first, Meaning::Value(value))?;
            followed(alloc, structs, mark, operand)
        }
        Meaning::Target(pointer) => {
            let operand = operand(alloc, first, Meaning::Target(pointer))?;
            followed(alloc, structs, mark, operand)
        }
    }
}

/// The promoted value of an operand; none where it is no integer.
#[tactic(auto, using(crate::proofs::ScalarLaws::no_scalar_integer))]
fn promoted_integer(
    alloc: Global,
    first: Place,
    meaning: Meaning,
) -> Result<Option<CoreExpr>, NoMemory>
    requires { is_readable (meaning_of meaning) ≡ true }
    ensures integer { IfOk result (λ maybe. IfSome maybe (λ made. s.is_integer (form_of (c.value_of (meaning_of meaning))) ≡ true)) }
    ensures there { IfOk result (λ maybe. IfSome maybe (λ made. expr_tree made ≡ c.promoted_value (c.value_of (meaning_of meaning)))) }
    ensures none { IfOk result (λ maybe. IfNone maybe (s.is_integer (form_of (c.value_of (meaning_of meaning))) ≡ false)) }
{
    let operand = operand(alloc, first, meaning)?;
    match value_of(alloc, operand)? {
        Some(Value { value, .. }) => {
            if is_integer(value.ty()) {
                Ok(Some(promoted_value(alloc, value)?))
            } else {
                drop(value);
                Ok(None)
            }
        }
        None => Ok(None),
    }
}

/// An operation on a value that the operator takes.
fn on_value(alloc: Global, op: UnaryOp, mark: Mark, operand: CoreExpr) -> Result<Meaning, NoMemory>
    requires { p.takes_one op (form_of (expr_tree operand)) ≡ true }
    ensures { IfOk result (λ made. meaning_of made ≡ a_value (unit.Unary op (expr_tree operand) mark)) }
{
    let _typed = operand.form();
    let value = CoreExpr::new(alloc, CoreExprForm::Unary { op, operand, mark })?;
    Ok(Meaning::Value(value))
}

/// Unary `+`, a promotion; C09 at the operator, where the operand is no integer.
fn plus(alloc: Global, mark: Mark, first: Place, meaning: Meaning) -> Result<Meaning, CheckError>
    requires { is_readable (meaning_of meaning) ≡ true }
    ensures ok { IfOk result (λ made. m.on_integer mark (c.operand first (meaning_of meaning)) (λ e. e) ≡ Ok (meaning_of made)) }
    ensures err { IfErr result (λ e. Broken e (m.on_integer mark (c.operand first (meaning_of meaning)) (λ e. e))) }
{
    match promoted_integer(alloc, first, meaning)? {
        Some(value) => Ok(Meaning::Value(value)),
        None => Err(CheckError::Fault(constraint(mark.at, 9))),
    }
}

/// `-` and `~`; C09 at the operator, where the operand is no integer.
#[tactic(auto, using(crate::proofs::ScalarLaws::promoted_taken))]
fn inverse(
    alloc: Global,
    op: UnaryOp,
    mark: Mark,
    first: Place,
    meaning: Meaning,
) -> Result<Meaning, CheckError>
    requires readable { is_readable (meaning_of meaning) ≡ true }
    requires operator { r.is_inverse op ≡ true }
    ensures ok { IfOk result (λ made. m.on_integer mark (c.operand first (meaning_of meaning)) (λ e. unit.Unary op e mark) ≡ Ok (meaning_of made)) }
    ensures err { IfErr result (λ e. Broken e (m.on_integer mark (c.operand first (meaning_of meaning)) (λ e. unit.Unary op e mark))) }
{
    match promoted_integer(alloc, first, meaning)? {
        Some(value) => Ok(on_value(alloc, op, mark, value)?),
        None => Err(CheckError::Fault(constraint(mark.at, 9))),
    }
}

/// `!`; C09 at the operator, where the operand is no integer and no pointer.
fn negation(
    alloc: Global,
    mark: Mark,
    first: Place,
    meaning: Meaning,
) -> Result<Meaning, CheckError>
    requires { is_readable (meaning_of meaning) ≡ true }
    ensures ok { IfOk result (λ made. m.negation mark (c.operand first (meaning_of meaning)) ≡ Ok (meaning_of made)) }
    ensures err { IfErr result (λ e. Broken e (m.negation mark (c.operand first (meaning_of meaning)))) }
{
    let operand = operand(alloc, first, meaning)?;
    match value_of(alloc, operand)? {
        Some(Value { value, .. }) => {
            if is_scalar(value.ty()) {
                Ok(on_value(alloc, UnaryOp::Not, mark, value)?)
            } else {
                drop(value);
                Err(CheckError::Fault(constraint(mark.at, 9)))
            }
        }
        None => Err(CheckError::Fault(constraint(mark.at, 9))),
    }
}

/// A unary operator, with the first token of its operand. C11 and C12 at the operand of `&` and `*`; C09 at the
/// others, where they don't take the operand. On refusal the meaning is dropped.
pub fn unary(
    alloc: Global,
    structs: &Structs,
    op: PrefixOp,
    mark: Mark,
    first: Place,
    meaning: Meaning,
) -> Result<Meaning, CheckError>
    requires readable { is_readable (meaning_of meaning) ≡ true }
    requires of_object { is_of_object (meaning_of meaning) ≡ true }
    ensures ok { IfOk result (λ made. m.unary structs.now op mark first (meaning_of meaning) ≡ Ok (meaning_of made)) }
    ensures err { IfErr result (λ e. Broken e (m.unary structs.now op mark first (meaning_of meaning))) }
{
    match op {
        PrefixOp::Address => address(alloc, mark, first, meaning),
        PrefixOp::Indirection => indirection(alloc, structs, mark, first, meaning),
        PrefixOp::Plus => plus(alloc, mark, first, meaning),
        PrefixOp::Minus => inverse(alloc, UnaryOp::Minus, mark, first, meaning),
        PrefixOp::Complement => inverse(alloc, UnaryOp::Complement, mark, first, meaning),
        PrefixOp::Not => negation(alloc, mark, first, meaning),
    }
}
