//! The C89 program of a first unit, and its text.
ghost use Rattle.std.specs.Prelude.{◌≡◌, IfOk};
ghost use Rattle.model_c89.specs.Spelling89.{canonical};
ghost use Rattle.model_core.specs.Types89 as types;
ghost use Rattle.c89_tree.specs.UnitTrees.{expr_tree, function_tree, outer_tree, program_tree, type_tree};
ghost use Rattle.cake_cli.specs.Views.{target_of};
ghost use Rattle.cake_cli.specs.Lowered.{main_of, main_declared, program_of};

use crate::expression::Expr;
use c89_tree::{
    C89Form, C89Unit, OutBase, OutExpr, OutExprForm, OutFunction, OutFunctionForm, OutOuter,
    OutOuterForm, OutStat, OutStatForm, OutStats, OutStatsForm, OutStorage, OutSuffix, OutType,
    OutTypeForm,
};
use c89_writer::write;
use cake_base::{Bytes, NoMemory};
use sqlite_items::Items;
use std::alloc::Global;

// The depth is at most that of a unit within the limit on nesting.
fn lowered(alloc: Global, value: &Expr) -> Result<OutExpr, NoMemory>
    ensures { IfOk result (λ made. expr_tree made ≡ target_of value.now) }
{
    match value {
        Expr::Constant(number, _) => OutExpr::new(
            alloc,
            OutExprForm::Constant {
                number: number.value as u64,
                suffix: OutSuffix::Plain,
            },
        ),
        Expr::Binary(op, left, right, _) => {
            let left = lowered(alloc, left)?;
            let right = lowered(alloc, right)?;
            OutExpr::new(
                alloc,
                OutExprForm::Binary {
                    op: *op,
                    left,
                    right,
                },
            )
        }
    }
}

fn int_type(alloc: Global) -> Result<OutType, NoMemory>
    ensures { IfOk result (λ made. type_tree made ≡ types.int_type) }
{
    OutType::new(
        alloc,
        OutTypeForm::Based {
            is_const: false,
            base: OutBase::Int,
        },
    )
}

/// The line that declares `main`.
fn main_outer(alloc: Global) -> Result<OutOuter, NoMemory>
    ensures { IfOk result (λ made. outer_tree made ≡ main_declared) }
{
    let result = int_type(alloc)?;
    let ty = OutType::new(
        alloc,
        OutTypeForm::Function {
            result,
            parameters: Items::new(alloc),
            is_variadic: false,
        },
    )?;
    OutOuter::new(
        alloc,
        OutOuterForm {
            storage: OutStorage::Plainly,
            ty,
            name: Bytes::of(alloc, b"main")?,
            init: None,
        },
    )
}

/// `main`, which returns this value.
fn main_function(alloc: Global, value: OutExpr) -> Result<OutFunction, NoMemory>
    ensures { IfOk result (λ made. function_tree made ≡ main_of (expr_tree value)) }
{
    let stat = OutStat::new(alloc, OutStatForm::Return { value })?;
    let mut stats = Items::new(alloc);
    stats.push(stat)?;
    let body = OutStats::new(alloc, OutStatsForm { stats })?;
    let result = int_type(alloc)?;
    OutFunction::new(
        alloc,
        OutFunctionForm {
            is_static: false,
            result,
            name: Bytes::of(alloc, b"main")?,
            parameters: Items::new(alloc),
            is_variadic: false,
            objects: Items::new(alloc),
            body,
        },
    )
}

/// The program whose `main` returns this value.
fn program(alloc: Global, value: &Expr) -> Result<C89Unit, NoMemory>
    ensures { IfOk result (λ made. program_tree made ≡ program_of (target_of value.now)) }
{
    let value = lowered(alloc, value)?;
    let mut outers = Items::new(alloc);
    outers.push(main_outer(alloc)?)?;
    let mut functions = Items::new(alloc);
    functions.push(main_function(alloc, value)?)?;
    C89Unit::new(
        alloc,
        C89Form {
            structures: Items::new(alloc),
            outers,
            functions,
        },
    )
}

/// The one text of the program whose `main` returns this value.
pub fn text_of(alloc: Global, value: &Expr) -> Result<Bytes, NoMemory>
    ensures { IfOk result (λ text. text ≡ canonical (program_of (target_of value.now))) }
{
    let unit = program(alloc, value)?;
    write(alloc, &unit)
}
