//! Expressions (ISO/IEC 9899:1990, 6.3): parentheses stand round each operation.
ghost use Rattle.std.specs.Prelude.{◌≡◌, ◌++◌, codes, decimal, OnOk};
ghost use Rattle.model_c89.specs.SpellingParts89.{expr_text, arguments_text, more_arguments_text};
ghost use Rattle.model_c89.specs.Signs89.{suffix_text};
ghost use Rattle.c89_tree.specs.UnitExprForms.{suffix_of};
ghost use Rattle.c89_tree.specs.UnitTrees.{expr_tree};
ghost use Rattle.c89_tree.specs.ProgramNodes89.{exprs};

use crate::numbers::push_decimal;
use crate::signs::{logic_sign, prefix, sign, suffix};
use crate::types::push_type;
use c89_tree::{OutExpr, OutExprForm, OutSuffix};
use cake_base::{Bytes, NoMemory};

fn push_constant(out: &mut Bytes, number: u64, letters: OutSuffix) -> Result<(), NoMemory>
    ensures { OnOk result (out.new ≡ out.old ++ (decimal number ++ suffix_text (suffix_of letters))) }
{
    push_decimal(out, number)?;
    out.push(suffix(letters))
}

/// An operand, a sign between blanks, and an operand, in parentheses.
#[cycle(expression)]
fn push_operation(
    out: &mut Bytes,
    left: &OutExpr,
    sign: &[u8],
    right: &OutExpr,
) -> Result<(), NoMemory>
    ensures { OnOk result (out.new ≡ out.old ++ (codes "(" ++ (expr_text (expr_tree left.now) ++ (codes " " ++ (sign.now ++ (codes " " ++ (expr_text (expr_tree right.now) ++ codes ")"))))))) }
{
    out.push(b"(")?;
    push_expr(out, left)?;
    out.push(b" ")?;
    out.push(sign)?;
    out.push(b" ")?;
    push_expr(out, right)?;
    out.push(b")")
}

/// Appends an expression.
#[cycle(expression)]
pub fn push_expr(out: &mut Bytes, expr: &OutExpr) -> Result<(), NoMemory>
    ensures { OnOk result (out.new ≡ out.old ++ expr_text (expr_tree expr.now)) }
{
    match expr.form() {
        OutExprForm::Name { name } => out.push(name.as_slice()),
        OutExprForm::Constant { number, suffix } => push_constant(out, *number, *suffix),
        OutExprForm::Index { left, right } => {
            push_expr(out, left)?;
            out.push(b"[")?;
            push_expr(out, right)?;
            out.push(b"]")
        }
        OutExprForm::Dot { structure, name } => {
            push_expr(out, structure)?;
            out.push(b".")?;
            out.push(name.as_slice())
        }
        OutExprForm::Arrow { pointer, name } => {
            push_expr(out, pointer)?;
            out.push(b"->")?;
            out.push(name.as_slice())
        }
        OutExprForm::Call {
            function,
            arguments,
        } => {
            push_expr(out, function)?;
            out.push(b"(")?;
            push_arguments(out, arguments.as_slice())?;
            out.push(b")")
        }
        OutExprForm::Unary { op, operand } => {
            out.push(b"(")?;
            out.push(prefix(*op))?;
            push_expr(out, operand)?;
            out.push(b")")
        }
        OutExprForm::Binary { op, left, right } => push_operation(out, left, sign(*op), right),
        OutExprForm::Logic { op, left, right } => push_operation(out, left, logic_sign(*op), right),
        OutExprForm::Choice {
            condition,
            first,
            second,
        } => {
            out.push(b"(")?;
            push_expr(out, condition)?;
            out.push(b" ? ")?;
            push_expr(out, first)?;
            out.push(b" : ")?;
            push_expr(out, second)?;
            out.push(b")")
        }
        OutExprForm::Cast { ty, operand } => {
            out.push(b"((")?;
            push_type(out, ty)?;
            out.push(b")")?;
            push_expr(out, operand)?;
            out.push(b")")
        }
    }
}

#[cycle(expression)]
fn push_arguments(out: &mut Bytes, arguments: &[OutExpr]) -> Result<(), NoMemory>
    ensures { OnOk result (out.new ≡ out.old ++ arguments_text (exprs arguments.now)) }
{
    let Some((first, others)) = arguments.split_first() else {
        return Ok(());
    };
    push_expr(out, first)?;
    push_more_arguments(out, others)
}

#[cycle(expression)]
fn push_more_arguments(out: &mut Bytes, arguments: &[OutExpr]) -> Result<(), NoMemory>
    ensures { OnOk result (out.new ≡ out.old ++ more_arguments_text (exprs arguments.now)) }
{
    for argument in arguments {
        out.push(b", ")?;
        push_expr(out, argument)?;
    }
    Ok(())
}
