//! Conversions that operators imply, which stand where their operand does (ISO/IEC 9899:2024, 6.3.2, 6.3.3).
ghost use Rattle.std.specs.Prelude.{◌≡◌, true, false, IfOk};
ghost use Rattle.model_types.specs.Types.{form_of_type, Integer};
ghost use Rattle.model_types.specs.Conversions.{is_shift};
ghost use Rattle.model_core.specs.CoreTypes as t;
ghost use Rattle.model_core.specs.SameTypes.{is_integer, is_null_constant};
ghost use Rattle.model_core.specs.TypedParts.{converts, implied_fits, is_promoted};
ghost use Rattle.model_core.specs.TypedExpr.{form_of};
ghost use Rattle.model_core.specs.SourceMarks.{expr_mark};
ghost use Rattle.model_types.specs.declared.marks.Origin.TheVariants.{Implied};
ghost use Rattle.model_core.specs.Core as unit;
ghost use Rattle.model_checking.specs.MadeCore as m;
ghost use Rattle.core_tree.specs.CoreTrees.{expr_tree};

use c_types::{Basic, BinOp, CType, TypeForm, common, promoted};
use cake_base::NoMemory;
use check_types::{basic_of, plain, same_value_type, unqualified};
use core_tree::{CoreExpr, CoreExprForm, Mark, Origin};
use std::alloc::Global;

fn implied(alloc: Global, ty: &CType, e: CoreExpr) -> Result<CoreExpr, NoMemory>
    requires converts { converts (is_null_constant (expr_tree e)) (form_of (expr_tree e)) (form_of_type ty.now) ≡ true }
    requires implied { implied_fits (is_null_constant (expr_tree e)) (form_of (expr_tree e)) (form_of_type ty.now) ≡ true }
    ensures { IfOk result (λ made. expr_tree made ≡ unit.Convert Implied (t.unqualified ty.now) (expr_tree e) (expr_mark (expr_tree e))) }
{
    let _typed = e.form();
    let mark = e.mark();
    let ty = unqualified(alloc, ty)?;
    CoreExpr::new(
        alloc,
        CoreExprForm::Convert {
            origin: Origin::Implied,
            ty,
            operand: e,
            mark,
        },
    )
}

/// A value in a type that an implied conversion may give it; itself, where it is of that type already. On
/// refusal the value is dropped.
pub fn converted(alloc: Global, ty: &CType, e: CoreExpr) -> Result<CoreExpr, NoMemory>
    requires converts { converts (is_null_constant (expr_tree e)) (form_of (expr_tree e)) (form_of_type ty.now) ≡ true }
    requires implied { implied_fits (is_null_constant (expr_tree e)) (form_of (expr_tree e)) (form_of_type ty.now) ≡ true }
    ensures { IfOk result (λ made. expr_tree made ≡ m.converted ty.now (expr_tree e)) }
{
    if same_value_type(ty, e.ty()) {
        Ok(e)
    } else {
        implied(alloc, ty, e)
    }
}

/// The value of an integer in another integer type. On refusal the integer is dropped.
#[tactic(auto, using(crate::proofs::ConversionLaws::integer_may_convert, crate::proofs::ConversionLaws::integer_may_imply))]
pub fn integer_value(alloc: Global, basic: Basic, e: CoreExpr) -> Result<CoreExpr, NoMemory>
    requires { is_integer (form_of (expr_tree e)) ≡ true }
    ensures { IfOk result (λ made. expr_tree made ≡ m.converted (m.integer_type basic) (expr_tree e)) }
{
    let ty = plain(alloc, TypeForm::Integer(basic))?;
    converted(alloc, &ty, e)
}

/// The value of an integer after the integer promotions (6.3.2.1). On refusal the integer is dropped.
pub fn promoted_value(alloc: Global, e: CoreExpr) -> Result<CoreExpr, NoMemory>
    requires { is_integer (form_of (expr_tree e)) ≡ true }
    ensures { IfOk result (λ made. expr_tree made ≡ m.promoted_value (expr_tree e)) }
{
    let basic = promoted(basic_of(e.ty()));
    integer_value(alloc, basic, e)
}

#[tactic(auto, using(crate::proofs::ConversionLaws::same_integers_fit))]
fn joined(
    alloc: Global,
    op: BinOp,
    basic: Basic,
    mark: Mark,
    a: CoreExpr,
    b: CoreExpr,
) -> Result<CoreExpr, NoMemory>
    requires shift { is_shift op ≡ false }
    requires promoted { is_promoted (Integer basic) ≡ true }
    requires left { form_of (expr_tree a) ≡ Integer basic }
    requires right { form_of (expr_tree b) ≡ Integer basic }
    ensures { IfOk result (λ made. expr_tree made ≡ unit.Binary op (expr_tree a) (expr_tree b) mark) }
{
    let _left = a.form();
    let _right = b.form();
    CoreExpr::new(
        alloc,
        CoreExprForm::Binary {
            op,
            left: a,
            right: b,
            mark,
        },
    )
}

/// An operation, no shift, on two integers in their common type (6.3.2.8). On refusal the integers are dropped.
#[tactic(auto, using(crate::proofs::ConversionLaws::common_promoted, crate::proofs::ConversionLaws::integer_form))]
pub fn in_common_type(
    alloc: Global,
    op: BinOp,
    mark: Mark,
    a: CoreExpr,
    b: CoreExpr,
) -> Result<CoreExpr, NoMemory>
    requires shift { is_shift op ≡ false }
    requires left { is_integer (form_of (expr_tree a)) ≡ true }
    requires right { is_integer (form_of (expr_tree b)) ≡ true }
    ensures { IfOk result (λ made. expr_tree made ≡ m.in_common_type op mark (expr_tree a) (expr_tree b)) }
{
    let basic = common(basic_of(a.ty()), basic_of(b.ty()));
    let a = integer_value(alloc, basic, a)?;
    let b = integer_value(alloc, basic, b)?;
    joined(alloc, op, basic, mark, a, b)
}
