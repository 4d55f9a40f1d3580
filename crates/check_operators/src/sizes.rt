//! `sizeof` and `alignof` (ISO/IEC 9899:2024, 6.5.4.5).
ghost use Rattle.std.specs.Prelude.{◌≡◌, true, pos, Ok, IfOk, IfErr};
ghost use Rattle.model_types.specs.declared.numbers.Basic.TheVariants.{UnsignedLong};
ghost use Rattle.model_types.specs.Operations.{fits};
ghost use Rattle.std.specs.Option.{unwrap_or};
ghost use Rattle.model_core.specs.CoreTypes as t;
ghost use Rattle.model_core.specs.BuiltinTypes.{size_type};
ghost use Rattle.model_checking.specs.MadeCore.{constant};
ghost use Rattle.core_tree.specs.CoreTrees.{expr_tree};
ghost use Rattle.model_types.specs.Layout as l;
ghost use Rattle.model_checking.specs.SizeRules as m;
ghost use Rattle.check_base.specs.Broken.{Broken};
ghost use Rattle.check_base.specs.Meanings.{meaning_of};

use c_types::{Basic, CType, Structs, TypeForm, align_of, is_complete, size_of};
use cake_base::{NoMemory, Place};
use check_base::{CheckError, Meaning, constraint};
use check_types::plain;
use check_values::meaning_type;
use core_tree::{CoreExpr, CoreExprForm, Mark};
use std::alloc::Global;

/// A constant of the type `size_t`.
#[tactic(auto, using(crate::proofs::SizeLaws::size_is_typed))]
fn size_constant(alloc: Global, size: u64, mark: Mark) -> Result<CoreExpr, NoMemory>
    requires { fits UnsignedLong (pos size) ≡ true }
    ensures { IfOk result (λ made. expr_tree made ≡ constant (pos size) size_type mark) }
{
    let ty = plain(alloc, TypeForm::Integer(Basic::UnsignedLong))?;
    let value = size as i128;
    CoreExpr::new(alloc, CoreExprForm::Constant { value, ty, mark })
}

/// A measure of a type; C22, where the type isn't complete.
fn measured(
    alloc: Global,
    structs: &Structs,
    mark: Mark,
    first: Place,
    ty: &CType,
    measure: u64,
) -> Result<Meaning, CheckError>
    requires { l.is_complete structs.now ty.now ≡ true → fits UnsignedLong (pos measure) ≡ true }
    ensures ok { IfOk result (λ made. m.measured structs.now mark first ty.now measure ≡ Ok (meaning_of made)) }
    ensures err { IfErr result (λ e. Broken e (m.measured structs.now mark first ty.now measure)) }
{
    if !is_complete(structs, ty) {
        return Err(CheckError::Fault(constraint(first, 22)));
    }
    let value = size_constant(alloc, measure, mark)?;
    Ok(Meaning::Value(value))
}

/// `sizeof` of a type, at its first token; C22, where it isn't complete.
#[tactic(auto, using(crate::proofs::SizeLaws::size_fits))]
pub fn size_of_name(
    alloc: Global,
    structs: &Structs,
    mark: Mark,
    first: Place,
    ty: &CType,
) -> Result<Meaning, CheckError>
    ensures ok { IfOk result (λ made. m.size_of_name structs.now mark first ty.now ≡ Ok (meaning_of made)) }
    ensures err { IfErr result (λ e. Broken e (m.size_of_name structs.now mark first ty.now)) }
{
    let size = size_in(structs, ty);
    measured(alloc, structs, mark, first, ty, size)
}

/// `sizeof` of an expression, which isn't evaluated, at its first token; C22, where its type isn't complete.
pub fn size_of_operand(
    alloc: Global,
    structs: &Structs,
    mark: Mark,
    first: Place,
    meaning: &Meaning,
) -> Result<Meaning, CheckError>
    ensures ok { IfOk result (λ made. m.size_of_operand structs.now mark first (meaning_of meaning.now) ≡ Ok (meaning_of made)) }
    ensures err { IfErr result (λ e. Broken e (m.size_of_operand structs.now mark first (meaning_of meaning.now))) }
{
    let ty = meaning_type(alloc, meaning)?;
    size_of_name(alloc, structs, mark, first, &ty)
}

/// `alignof` of a type, at its first token; C22, where it isn't complete.
#[tactic(auto, using(crate::proofs::SizeLaws::alignment_fits))]
pub fn alignment_of_name(
    alloc: Global,
    structs: &Structs,
    mark: Mark,
    first: Place,
    ty: &CType,
) -> Result<Meaning, CheckError>
    ensures ok { IfOk result (λ made. m.alignment_of_name structs.now mark first ty.now ≡ Ok (meaning_of made)) }
    ensures err { IfErr result (λ e. Broken e (m.alignment_of_name structs.now mark first ty.now)) }
{
    let alignment = alignment_in(structs, ty);
    measured(alloc, structs, mark, first, ty, alignment)
}

fn size_in(structs: &Structs, ty: &CType) -> u64
    ensures { result ≡ t.size_in structs.now ty.now }
{
    match size_of(structs, ty) {
        Some(size) => size,
        None => 0,
    }
}

fn alignment_in(structs: &Structs, ty: &CType) -> u64
    ensures { result ≡ unwrap_or (l.align_of structs.now ty.now) 1 }
{
    match align_of(structs, ty) {
        Some(alignment) => alignment,
        None => 1,
    }
}
