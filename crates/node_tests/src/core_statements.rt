//! Each form of a statement of the core, and its labels, initial values, objects, functions and the whole, made, copied
//! and read; a deep expression and a long block.
ghost use Rattle.std.specs.Prelude.{◌≡◌, pos, [], ◌∷◌, IfOk, IsTrue};
ghost use Rattle.model_core.specs.CoreTypes.{int_type, type_of};
ghost use Rattle.model_core.specs.TypedStat.{is_typed_stat, are_typed_stats};
ghost use Rattle.model_core.specs.Core as m;
ghost use Rattle.core_tree.specs.CoreNodes as n;
ghost use Rattle.core_tree.specs.CoreTrees.{expr_tree, initial_tree, stat_tree};

use crate::cores::{HERE, MARK, function, int, number};
use c_types::Structs;
use cake_base::NoMemory;
use core_tree::{
    Core, CoreCase, CoreCaseForm, CoreExpr, CoreExprForm, CoreForm, CoreFunction, CoreFunctionForm,
    CoreFunctionName, CoreInitial, CoreInitialForm, CoreObject, CoreObjectForm, CoreStat,
    CoreStatForm, CoreStorage, DeclId, Span,
};
use model_types::operators::UnaryOp;
use sqlite_items::Items;
use std::alloc::Global;
use std::test::Fail;

const SPAN: Span = Span {
    first: HERE,
    last: HERE,
};

/// A form of a statement.
#[derive(Clone, Copy, Debug, PartialEq, Eq)]
enum Sort {
    Evaluate,
    Start,
    Block,
    If,
    Switch,
    While,
    DoWhile,
    For,
    Break,
    Continue,
    Return,
    Defer,
}

const STATEMENTS: [Sort; 12] = [
    Sort::Evaluate,
    Sort::Start,
    Sort::Block,
    Sort::If,
    Sort::Switch,
    Sort::While,
    Sort::DoWhile,
    Sort::For,
    Sort::Break,
    Sort::Continue,
    Sort::Return,
    Sort::Defer,
];

fn sort_of(form: &CoreStatForm) -> Sort {
    match form {
        CoreStatForm::Evaluate { .. } => Sort::Evaluate,
        CoreStatForm::Start { .. } => Sort::Start,
        CoreStatForm::Block { .. } => Sort::Block,
        CoreStatForm::If { .. } => Sort::If,
        CoreStatForm::Switch { .. } => Sort::Switch,
        CoreStatForm::While { .. } => Sort::While,
        CoreStatForm::DoWhile { .. } => Sort::DoWhile,
        CoreStatForm::For { .. } => Sort::For,
        CoreStatForm::Break { .. } => Sort::Break,
        CoreStatForm::Continue { .. } => Sort::Continue,
        CoreStatForm::Return { .. } => Sort::Return,
        CoreStatForm::Defer { .. } => Sort::Defer,
    }
}

fn leave(alloc: Global) -> Result<CoreStat, NoMemory>
    ensures { IfOk result (λ made. stat_tree made ≡ m.Break HERE) }
{
    CoreStat::new(alloc, CoreStatForm::Break { place: HERE })
}

fn go_on(alloc: Global) -> Result<CoreStat, NoMemory> {
    CoreStat::new(alloc, CoreStatForm::Continue { place: HERE })
}

fn evaluate(alloc: Global) -> Result<CoreStat, NoMemory>
    ensures { IfOk result (λ made. IsTrue (is_typed_stat (stat_tree made))) }
{
    let value = number(alloc)?;
    CoreStat::new(alloc, CoreStatForm::Evaluate { value, span: SPAN })
}

/// 7 for the whole of an int.
fn initial(alloc: Global) -> Result<CoreInitial, NoMemory>
    ensures { IfOk result (λ made. initial_tree made ≡ record { path = []; offset = 0; type = int_type; value = m.Constant (pos 7) int_type MARK }) }
{
    let ty = int(alloc)?;
    let value = number(alloc)?;
    CoreInitial::new(
        alloc,
        CoreInitialForm {
            path: Items::new(alloc),
            offset: 0,
            ty,
            value,
        },
    )
}

/// A copy of it in a list.
fn initials(alloc: Global) -> Result<Items<CoreInitial>, NoMemory>
    ensures { IfOk result (λ made. made ≡ record { path = []; offset = 0; type = int_type; value = m.Constant (pos 7) int_type MARK } ∷ []) }
{
    let mut values = Items::new(alloc);
    values.push(initial(alloc)?.copy(alloc)?)?;
    Ok(values)
}

fn start(alloc: Global) -> Result<CoreStat, NoMemory> {
    let ty = int(alloc)?;
    let values = initials(alloc)?;
    CoreStat::new(
        alloc,
        CoreStatForm::Start {
            id: DeclId(1),
            ty,
            values,
            mark: MARK,
        },
    )
}

fn choice(alloc: Global) -> Result<CoreStat, NoMemory> {
    let condition = number(alloc)?;
    let first = leave(alloc)?;
    let second = leave(alloc)?;
    CoreStat::new(
        alloc,
        CoreStatForm::If {
            condition,
            first,
            second: Some(second),
            span: SPAN,
        },
    )
}

/// `case 7: default: break;`
fn cases(alloc: Global) -> Result<Items<CoreCase>, NoMemory>
    ensures { IfOk result (λ made. made ≡ n.CaseLabel (pos 7) HERE ∷ n.DefaultLabel HERE ∷ n.Statement (m.Break HERE) ∷ []) }
{
    let stat = leave(alloc)?;
    let mut made = Items::new(alloc);
    made.push(CoreCase::new(
        alloc,
        CoreCaseForm::Case {
            value: 7,
            place: HERE,
        },
    )?)?;
    made.push(CoreCase::new(alloc, CoreCaseForm::Default { place: HERE })?)?;
    made.push(CoreCase::new(alloc, CoreCaseForm::Statement { stat })?.copy(alloc)?)?;
    Ok(made)
}

fn switch(alloc: Global) -> Result<CoreStat, NoMemory> {
    let value = number(alloc)?;
    let body = cases(alloc)?;
    CoreStat::new(
        alloc,
        CoreStatForm::Switch {
            value,
            objects: Items::new(alloc),
            body,
            span: SPAN,
        },
    )
}

fn while_loop(alloc: Global) -> Result<CoreStat, NoMemory> {
    let condition = number(alloc)?;
    let body = leave(alloc)?;
    CoreStat::new(
        alloc,
        CoreStatForm::While {
            condition,
            body,
            span: SPAN,
        },
    )
}

fn do_while(alloc: Global) -> Result<CoreStat, NoMemory> {
    let body = leave(alloc)?;
    let condition = number(alloc)?;
    CoreStat::new(
        alloc,
        CoreStatForm::DoWhile {
            body,
            condition,
            span: SPAN,
        },
    )
}

fn for_loop(alloc: Global) -> Result<CoreStat, NoMemory> {
    let condition = number(alloc)?;
    let body = leave(alloc)?;
    CoreStat::new(
        alloc,
        CoreStatForm::For {
            first: None,
            condition: Some(condition),
            step: None,
            body,
            span: SPAN,
        },
    )
}

fn return_value(alloc: Global) -> Result<CoreStat, NoMemory>
    ensures { IfOk result (λ made. IsTrue (is_typed_stat (stat_tree made))) }
{
    let value = number(alloc)?;
    CoreStat::new(
        alloc,
        CoreStatForm::Return {
            value: Some(value),
            place: HERE,
        },
    )
}

fn defer(alloc: Global) -> Result<CoreStat, NoMemory> {
    let body = evaluate(alloc)?;
    CoreStat::new(
        alloc,
        CoreStatForm::Defer {
            body,
            place: HERE,
            span: SPAN,
        },
    )
}

/// So many times `break`.
#[tactic(auto, using(core_tree::proofs::CoreLists::typed_stats_push))]
fn many(alloc: Global, count: u32) -> Result<Items<CoreStat>, NoMemory>
    ensures { IfOk result (λ made. IsTrue (are_typed_stats (m.stats made))) }
{
    let mut made = Items::new(alloc);
    for _ in 0..count {
        made.push(leave(alloc)?)?;
    }
    Ok(made)
}

/// A block of so many times `break`.
fn block(alloc: Global, count: u32) -> Result<CoreStat, NoMemory> {
    let body = many(alloc, count)?;
    CoreStat::new(
        alloc,
        CoreStatForm::Block {
            objects: Items::new(alloc),
            body,
            span: SPAN,
        },
    )
}

fn statement(alloc: Global, sort: Sort) -> Result<CoreStat, NoMemory> {
    match sort {
        Sort::Evaluate => evaluate(alloc),
        Sort::Start => start(alloc),
        Sort::Block => block(alloc, 2),
        Sort::If => choice(alloc),
        Sort::Switch => switch(alloc),
        Sort::While => while_loop(alloc),
        Sort::DoWhile => do_while(alloc),
        Sort::For => for_loop(alloc),
        Sort::Break => leave(alloc),
        Sort::Continue => go_on(alloc),
        Sort::Return => return_value(alloc),
        Sort::Defer => defer(alloc),
    }
}

#[test]
fn statements_are_made_and_copied(rt: HostRuntime) -> Result<(), Fail> {
    let alloc = rt.alloc();
    for sort in STATEMENTS {
        let copy = statement(alloc, sort)?.copy(alloc)?;
        assert_eq!(rt; sort_of(copy.form()), sort);
    }
    Ok(())
}

fn minus(alloc: Global, operand: CoreExpr) -> Result<CoreExpr, NoMemory>
    requires { type_of (expr_tree operand) ≡ int_type }
    ensures { IfOk result (λ made. type_of (expr_tree made) ≡ int_type) }
{
    let _operand = operand.form();
    CoreExpr::new(
        alloc,
        CoreExprForm::Unary {
            op: UnaryOp::Minus,
            operand,
            mark: MARK,
        },
    )
}

/// 7 behind so many times `-`.
fn deep(alloc: Global, depth: u32) -> Result<CoreExpr, NoMemory> {
    let mut made = number(alloc)?;
    for _ in 0..depth {
        made = minus(alloc, made)?;
    }
    Ok(made)
}

#[test]
fn cores_may_be_deep_and_long(rt: HostRuntime) -> Result<(), Fail> {
    let alloc = rt.alloc();
    let copy = deep(alloc, 2_000)?.copy(alloc)?;
    assert!(rt; matches!(copy.form(), CoreExprForm::Unary { .. }));
    let copy = block(alloc, 100_000)?.copy(alloc)?;
    assert!(rt; matches!(copy.form(), CoreStatForm::Block { .. }));
    Ok(())
}

fn object(alloc: Global) -> Result<CoreObject, NoMemory> {
    let ty = int(alloc)?;
    let values = initials(alloc)?;
    CoreObject::new(
        alloc,
        CoreObjectForm {
            id: DeclId(1),
            name: None,
            ty,
            is_external: false,
            storage: CoreStorage::Static { values },
            is_address_taken: true,
            place: HERE,
            joint_place: HERE,
        },
    )
}

fn definition(alloc: Global) -> Result<CoreFunction, NoMemory> {
    let ty = function(alloc)?;
    let body = return_value(alloc)?;
    CoreFunction::new(
        alloc,
        CoreFunctionForm {
            id: DeclId(3),
            name: CoreFunctionName::Lambda { place: HERE },
            ty,
            is_external: false,
            parameters: Items::new(alloc),
            body: Some(body),
            place: HERE,
            joint_place: HERE,
        },
    )
}

fn empty(alloc: Global) -> Result<Core, NoMemory> {
    Core::new(
        alloc,
        CoreForm {
            objects: Items::new(alloc),
            functions: Items::new(alloc),
            structs: Structs::new(alloc),
            named_types: Items::new(alloc),
        },
    )
}

#[test]
fn units_are_made_and_copied(rt: HostRuntime) -> Result<(), Fail> {
    let alloc = rt.alloc();
    let copy = object(alloc)?.copy(alloc)?;
    assert_eq!(rt; copy.form().id, DeclId(1));
    let copy = definition(alloc)?.copy(alloc)?;
    assert_eq!(rt; copy.form().id, DeclId(3));
    let copy = empty(alloc)?.copy(alloc)?;
    assert_eq!(rt; copy.form().objects.len(), 0);
    assert_eq!(rt; copy.function_count(), 0);
    assert_eq!(rt; copy.object_count(), 0);
    assert_eq!(rt; copy.structs().count(), 0);
    Ok(())
}
