//! Each form of an expression and of an lvalue of the core, made, copied and read, with its type.
ghost use Rattle.std.specs.Prelude.{◌≡◌, Bool, pos, IfOk};
ghost use Rattle.model_types.specs.declared.marks.Origin.TheVariants as origin;
ghost use Rattle.model_types.specs.Types as t;
ghost use Rattle.model_core.specs.CoreTypes as p;
ghost use Rattle.model_core.specs.Core as m;
ghost use Rattle.core_tree.specs.CoreTrees.{expr_tree, lvalue_tree};

use c_types::{Basic, BinOp, CType, StructId, TypeForm, TypeList};
use cake_base::{NoMemory, Place};
use check_types::plain;
use core_tree::{
    CoreAssignment, CoreExpr, CoreExprForm, CoreLvalue, CoreLvalueForm, DeclId, Mark, Origin,
};
use model_types::operators::{LogicOp, StepOp, StepSide, UnaryOp};
use sqlite_items::Items;
use std::alloc::Global;
use std::test::Fail;

pub const HERE: Place = Place {
    file: 0,
    line: 1,
    column: 1,
    order: 0,
};

pub const MARK: Mark = Mark {
    at: HERE,
    first: HERE,
    outer: HERE,
};

/// A form of an expression.
#[derive(Clone, Copy, Debug, PartialEq, Eq)]
enum Sort {
    Constant,
    Load,
    Address,
    FunctionRef,
    Unary,
    Binary,
    Logic,
    Choice,
    Convert,
    Call,
    Assign,
    Step,
    MemberValue,
    Comma,
}

/// A form of an lvalue.
#[derive(Clone, Copy, Debug, PartialEq, Eq)]
enum Designator {
    Object,
    Deref,
    Index,
    Field,
    Arrow,
    Literal,
}

/// What a type is.
#[derive(Clone, Copy, Debug, PartialEq, Eq)]
enum Typed {
    Int,
    Long,
    Pointer,
    Structure,
    Other,
}

/// The expressions that are made, with their types (ISO/IEC 9899:2024, 6.5).
const EXPRESSIONS: [(Sort, Typed); 14] = [
    (Sort::Constant, Typed::Int),
    (Sort::Load, Typed::Structure),
    (Sort::Address, Typed::Pointer),
    (Sort::FunctionRef, Typed::Pointer),
    (Sort::Unary, Typed::Int),
    // of two pointers
    (Sort::Binary, Typed::Long),
    (Sort::Logic, Typed::Int),
    (Sort::Choice, Typed::Pointer),
    (Sort::Convert, Typed::Long),
    (Sort::Call, Typed::Int),
    (Sort::Assign, Typed::Int),
    (Sort::Step, Typed::Int),
    (Sort::MemberValue, Typed::Int),
    (Sort::Comma, Typed::Pointer),
];

const LVALUES: [(Designator, Typed); 6] = [
    (Designator::Object, Typed::Int),
    (Designator::Deref, Typed::Int),
    (Designator::Index, Typed::Int),
    (Designator::Field, Typed::Int),
    (Designator::Arrow, Typed::Long),
    (Designator::Literal, Typed::Structure),
];

fn sort_of(form: &CoreExprForm) -> Sort {
    match form {
        CoreExprForm::Constant { .. } => Sort::Constant,
        CoreExprForm::Load { .. } => Sort::Load,
        CoreExprForm::Address { .. } => Sort::Address,
        CoreExprForm::FunctionRef { .. } => Sort::FunctionRef,
        CoreExprForm::Unary { .. } => Sort::Unary,
        CoreExprForm::Binary { .. } => Sort::Binary,
        CoreExprForm::Logic { .. } => Sort::Logic,
        CoreExprForm::Choice { .. } => Sort::Choice,
        CoreExprForm::Convert { .. } => Sort::Convert,
        CoreExprForm::Call { .. } => Sort::Call,
        CoreExprForm::Assign { .. } => Sort::Assign,
        CoreExprForm::Step { .. } => Sort::Step,
        CoreExprForm::MemberValue { .. } => Sort::MemberValue,
        CoreExprForm::Comma { .. } => Sort::Comma,
    }
}

fn designator_of(form: &CoreLvalueForm) -> Designator {
    match form {
        CoreLvalueForm::Object { .. } => Designator::Object,
        CoreLvalueForm::Deref { .. } => Designator::Deref,
        CoreLvalueForm::Index { .. } => Designator::Index,
        CoreLvalueForm::Field { .. } => Designator::Field,
        CoreLvalueForm::Arrow { .. } => Designator::Arrow,
        CoreLvalueForm::Literal { .. } => Designator::Literal,
    }
}

fn typed_as(ty: &CType) -> Typed {
    match ty.form() {
        TypeForm::Integer(Basic::Int) => Typed::Int,
        TypeForm::Integer(Basic::Long) => Typed::Long,
        TypeForm::Pointer(_) => Typed::Pointer,
        TypeForm::Struct(_) => Typed::Structure,
        _ => Typed::Other,
    }
}

pub fn int(alloc: Global) -> Result<CType, NoMemory>
    ensures { IfOk result (λ made. made ≡ p.int_type) }
{
    plain(alloc, TypeForm::Integer(Basic::Int))
}

fn structure(alloc: Global) -> Result<CType, NoMemory>
    ensures { IfOk result (λ made. made ≡ p.plain (t.Struct record { 0 = 0 })) }
{
    plain(alloc, TypeForm::Struct(StructId(0)))
}

/// `int (void)`.
pub fn function(alloc: Global) -> Result<CType, NoMemory>
    ensures { IfOk result (λ made. made ≡ p.plain (t.Function p.int_type t.no_types Bool.false)) }
{
    let result = int(alloc)?;
    plain(
        alloc,
        TypeForm::Function(result, TypeList::new(alloc), false),
    )
}

/// 7.
pub fn number(alloc: Global) -> Result<CoreExpr, NoMemory>
    ensures { IfOk result (λ made. expr_tree made ≡ m.Constant (pos 7) p.int_type MARK) }
{
    let ty = int(alloc)?;
    CoreExpr::new(
        alloc,
        CoreExprForm::Constant {
            value: 7,
            ty,
            mark: MARK,
        },
    )
}

/// The object of id 1, an int.
fn object(alloc: Global) -> Result<CoreLvalue, NoMemory>
    ensures { IfOk result (λ made. lvalue_tree made ≡ m.Object 1 p.int_type MARK) }
{
    let ty = int(alloc)?;
    CoreLvalue::new(
        alloc,
        CoreLvalueForm::Object {
            id: DeclId(1),
            ty,
            mark: MARK,
        },
    )
}

/// The object of id 2, a structure.
fn structure_object(alloc: Global) -> Result<CoreLvalue, NoMemory>
    ensures { IfOk result (λ made. lvalue_tree made ≡ m.Object 2 (p.plain (t.Struct record { 0 = 0 })) MARK) }
{
    let ty = structure(alloc)?;
    CoreLvalue::new(
        alloc,
        CoreLvalueForm::Object {
            id: DeclId(2),
            ty,
            mark: MARK,
        },
    )
}

/// The address of the int.
fn address(alloc: Global) -> Result<CoreExpr, NoMemory>
    ensures { IfOk result (λ made. expr_tree made ≡ m.Address origin.Written (m.Object 1 p.int_type MARK) MARK) }
{
    let object = object(alloc)?;
    CoreExpr::new(
        alloc,
        CoreExprForm::Address {
            origin: Origin::Written,
            object,
            mark: MARK,
        },
    )
}

/// The address of the structure.
fn structure_address(alloc: Global) -> Result<CoreExpr, NoMemory>
    ensures { IfOk result (λ made. expr_tree made ≡ m.Address origin.Written (m.Object 2 (p.plain (t.Struct record { 0 = 0 })) MARK) MARK) }
{
    let object = structure_object(alloc)?;
    CoreExpr::new(
        alloc,
        CoreExprForm::Address {
            origin: Origin::Written,
            object,
            mark: MARK,
        },
    )
}

/// The value of the structure.
fn load(alloc: Global) -> Result<CoreExpr, NoMemory>
    ensures { IfOk result (λ made. expr_tree made ≡ m.Load (m.Object 2 (p.plain (t.Struct record { 0 = 0 })) MARK) MARK) }
{
    let object = structure_object(alloc)?;
    CoreExpr::new(alloc, CoreExprForm::Load { object, mark: MARK })
}

fn function_ref(alloc: Global) -> Result<CoreExpr, NoMemory>
    ensures { IfOk result (λ made. expr_tree made ≡ m.FunctionRef 3 (p.plain (t.Function p.int_type t.no_types Bool.false)) Bool.true MARK) }
{
    let ty = function(alloc)?;
    CoreExpr::new(
        alloc,
        CoreExprForm::FunctionRef {
            id: DeclId(3),
            ty,
            by_name: true,
            mark: MARK,
        },
    )
}

fn unary(alloc: Global) -> Result<CoreExpr, NoMemory> {
    let operand = number(alloc)?;
    CoreExpr::new(
        alloc,
        CoreExprForm::Unary {
            op: UnaryOp::Minus,
            operand,
            mark: MARK,
        },
    )
}

fn difference(alloc: Global) -> Result<CoreExpr, NoMemory> {
    let left = address(alloc)?;
    let right = address(alloc)?;
    CoreExpr::new(
        alloc,
        CoreExprForm::Binary {
            op: BinOp::Sub,
            left,
            right,
            mark: MARK,
        },
    )
}

fn logic(alloc: Global) -> Result<CoreExpr, NoMemory> {
    let left = number(alloc)?;
    let right = address(alloc)?;
    CoreExpr::new(
        alloc,
        CoreExprForm::Logic {
            op: LogicOp::And,
            left,
            right,
            mark: MARK,
        },
    )
}

fn choice(alloc: Global) -> Result<CoreExpr, NoMemory> {
    let condition = number(alloc)?;
    let first = address(alloc)?;
    let second = address(alloc)?;
    CoreExpr::new(
        alloc,
        CoreExprForm::Choice {
            condition,
            first,
            second,
            mark: MARK,
        },
    )
}

fn convert(alloc: Global) -> Result<CoreExpr, NoMemory> {
    let operand = number(alloc)?;
    let ty = plain(alloc, TypeForm::Integer(Basic::Long))?;
    CoreExpr::new(
        alloc,
        CoreExprForm::Convert {
            origin: Origin::Implied,
            ty,
            operand,
            mark: MARK,
        },
    )
}

fn call(alloc: Global) -> Result<CoreExpr, NoMemory> {
    let function = function_ref(alloc)?;
    CoreExpr::new(
        alloc,
        CoreExprForm::Call {
            function,
            arguments: Items::new(alloc),
            mark: MARK,
        },
    )
}

fn assign(alloc: Global) -> Result<CoreExpr, NoMemory> {
    let ty = int(alloc)?;
    let object = object(alloc)?;
    let value = number(alloc)?;
    CoreExpr::new(
        alloc,
        CoreExprForm::Assign {
            assignment: CoreAssignment::Compound { op: BinOp::Add, ty },
            object,
            value,
            mark: MARK,
        },
    )
}

fn step(alloc: Global) -> Result<CoreExpr, NoMemory> {
    let ty = int(alloc)?;
    let object = object(alloc)?;
    CoreExpr::new(
        alloc,
        CoreExprForm::Step {
            op: StepOp::Increment,
            side: StepSide::Postfix,
            ty,
            object,
            mark: MARK,
        },
    )
}

fn member_value(alloc: Global) -> Result<CoreExpr, NoMemory> {
    let structure = load(alloc)?;
    let ty = int(alloc)?;
    CoreExpr::new(
        alloc,
        CoreExprForm::MemberValue {
            structure,
            rank: 0,
            ty,
            name: HERE,
            mark: MARK,
        },
    )
}

fn comma(alloc: Global) -> Result<CoreExpr, NoMemory> {
    let first = number(alloc)?;
    let second = address(alloc)?;
    CoreExpr::new(
        alloc,
        CoreExprForm::Comma {
            first,
            second,
            mark: MARK,
        },
    )
}

fn expression(alloc: Global, sort: Sort) -> Result<CoreExpr, NoMemory> {
    match sort {
        Sort::Constant => number(alloc),
        Sort::Load => load(alloc),
        Sort::Address => address(alloc),
        Sort::FunctionRef => function_ref(alloc),
        Sort::Unary => unary(alloc),
        Sort::Binary => difference(alloc),
        Sort::Logic => logic(alloc),
        Sort::Choice => choice(alloc),
        Sort::Convert => convert(alloc),
        Sort::Call => call(alloc),
        Sort::Assign => assign(alloc),
        Sort::Step => step(alloc),
        Sort::MemberValue => member_value(alloc),
        Sort::Comma => comma(alloc),
    }
}

fn deref(alloc: Global) -> Result<CoreLvalue, NoMemory> {
    let pointer = address(alloc)?;
    CoreLvalue::new(
        alloc,
        CoreLvalueForm::Deref {
            pointer,
            mark: MARK,
        },
    )
}

/// `7[&object]`.
fn index(alloc: Global) -> Result<CoreLvalue, NoMemory> {
    let first = number(alloc)?;
    let second = address(alloc)?;
    CoreLvalue::new(
        alloc,
        CoreLvalueForm::Index {
            is_second: true,
            first,
            second,
            mark: MARK,
        },
    )
}

fn field(alloc: Global) -> Result<CoreLvalue, NoMemory> {
    let structure = structure_object(alloc)?;
    let ty = int(alloc)?;
    CoreLvalue::new(
        alloc,
        CoreLvalueForm::Field {
            structure,
            rank: 0,
            ty,
            name: HERE,
            mark: MARK,
        },
    )
}

fn arrow(alloc: Global) -> Result<CoreLvalue, NoMemory> {
    let pointer = structure_address(alloc)?;
    let ty = plain(alloc, TypeForm::Integer(Basic::Long))?;
    CoreLvalue::new(
        alloc,
        CoreLvalueForm::Arrow {
            pointer,
            rank: 1,
            ty,
            name: HERE,
            mark: MARK,
        },
    )
}

/// A compound literal of zeros.
fn literal(alloc: Global) -> Result<CoreLvalue, NoMemory> {
    let ty = structure(alloc)?;
    CoreLvalue::new(
        alloc,
        CoreLvalueForm::Literal {
            origin: Origin::Written,
            id: DeclId(4),
            ty,
            values: Items::new(alloc),
            mark: MARK,
        },
    )
}

fn lvalue(alloc: Global, designator: Designator) -> Result<CoreLvalue, NoMemory> {
    match designator {
        Designator::Object => object(alloc),
        Designator::Deref => deref(alloc),
        Designator::Index => index(alloc),
        Designator::Field => field(alloc),
        Designator::Arrow => arrow(alloc),
        Designator::Literal => literal(alloc),
    }
}

#[test]
fn expressions_are_made_and_copied(rt: HostRuntime) -> Result<(), Fail> {
    let alloc = rt.alloc();
    for (sort, want) in EXPRESSIONS {
        let copy = expression(alloc, sort)?.copy(alloc)?;
        assert_eq!(rt; sort_of(copy.form()), sort);
        assert_eq!(rt; typed_as(copy.ty()), want, "{sort:?}");
    }
    Ok(())
}

#[test]
fn lvalues_are_made_and_copied(rt: HostRuntime) -> Result<(), Fail> {
    let alloc = rt.alloc();
    for (designator, want) in LVALUES {
        let copy = lvalue(alloc, designator)?.copy(alloc)?;
        assert_eq!(rt; designator_of(copy.form()), designator);
        assert_eq!(rt; typed_as(copy.ty()), want, "{designator:?}");
    }
    Ok(())
}
