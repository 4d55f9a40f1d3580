//! A C89 program of copies, with a node of each kind, and its text; a deep expression and a long body.
use c89_tree::{
    C89Form, C89Unit, OutBase, OutDeclaration, OutDeclarationForm, OutExpr, OutExprForm,
    OutFunction, OutFunctionForm, OutInit, OutInitForm, OutItem, OutItemForm, OutLabel,
    OutLabelForm, OutOuter, OutOuterForm, OutPrefix, OutStat, OutStatForm, OutStats, OutStatsForm,
    OutStorage, OutStructure, OutStructureForm, OutSuffix, OutType, OutTypeForm,
};
use c89_writer::write;
use cake_base::{Bytes, NoMemory};
use sqlite_items::Items;
use std::alloc::Global;
use std::test::Fail;

/// The text of the program (ISO/IEC 9899:1990).
const TEXT: &[u8] = b"struct s_1 {
    int m_1;
};
static int x_1[2] = {7UL};

int f(int p_1)
{
    int v_1;
    switch (p_1) {
        case 7UL:
        default:
        break;
    }
}
";

fn int(alloc: Global) -> Result<OutType, NoMemory> {
    let ty = OutType::new(
        alloc,
        OutTypeForm::Based {
            is_const: false,
            base: OutBase::Int,
        },
    )?;
    ty.copy(alloc)
}

fn pair(alloc: Global) -> Result<OutType, NoMemory> {
    let of = int(alloc)?;
    OutType::new(alloc, OutTypeForm::Array { count: Some(2), of })
}

/// An int of a name.
fn declaration(alloc: Global, name: &[u8]) -> Result<OutDeclaration, NoMemory> {
    let ty = int(alloc)?;
    let name = Bytes::of(alloc, name)?;
    OutDeclaration::new(alloc, OutDeclarationForm { ty, name })?.copy(alloc)
}

/// The list of an int of a name.
fn declarations(alloc: Global, name: &[u8]) -> Result<Items<OutDeclaration>, NoMemory> {
    let mut list = Items::new(alloc);
    list.push(declaration(alloc, name)?)?;
    Ok(list)
}

fn variable(alloc: Global) -> Result<OutExpr, NoMemory> {
    let name = Bytes::of(alloc, b"p_1")?;
    OutExpr::new(alloc, OutExprForm::Name { name })
}

fn seven(alloc: Global) -> Result<OutExpr, NoMemory> {
    let seven = OutExpr::new(
        alloc,
        OutExprForm::Constant {
            number: 7,
            suffix: OutSuffix::UL,
        },
    )?;
    seven.copy(alloc)
}

fn breaks(alloc: Global, count: u32) -> Result<OutStats, NoMemory> {
    let mut stats = Items::new(alloc);
    for _ in 0..count {
        stats.push(OutStat::new(alloc, OutStatForm::Break)?)?;
    }
    OutStats::new(alloc, OutStatsForm { stats })
}

fn labels(alloc: Global) -> Result<Items<OutLabel>, NoMemory> {
    let value = seven(alloc)?;
    let mut labels = Items::new(alloc);
    labels.push(OutLabel::new(alloc, OutLabelForm::Case { value })?)?;
    labels.push(OutLabel::new(alloc, OutLabelForm::Default)?.copy(alloc)?)?;
    Ok(labels)
}

fn items(alloc: Global) -> Result<Items<OutItem>, NoMemory> {
    let labels = labels(alloc)?;
    let stat = OutStat::new(alloc, OutStatForm::Break)?;
    let mut items = Items::new(alloc);
    items.push(OutItem::new(alloc, OutItemForm { labels, stat })?.copy(alloc)?)?;
    Ok(items)
}

fn switch(alloc: Global) -> Result<OutStat, NoMemory> {
    let value = variable(alloc)?;
    let items = items(alloc)?;
    OutStat::new(alloc, OutStatForm::Switch { value, items })?.copy(alloc)
}

fn body(alloc: Global) -> Result<OutStats, NoMemory> {
    let mut stats = Items::new(alloc);
    stats.push(switch(alloc)?)?;
    OutStats::new(alloc, OutStatsForm { stats })?.copy(alloc)
}

fn structures(alloc: Global) -> Result<Items<OutStructure>, NoMemory> {
    let name = Bytes::of(alloc, b"s_1")?;
    let first = declaration(alloc, b"m_1")?;
    let made = OutStructure::new(
        alloc,
        OutStructureForm::Members {
            name,
            first,
            others: Items::new(alloc),
        },
    )?;
    let mut list = Items::new(alloc);
    list.push(made.copy(alloc)?)?;
    Ok(list)
}

fn braces(alloc: Global) -> Result<OutInit, NoMemory> {
    let value = seven(alloc)?;
    let first = OutInit::new(alloc, OutInitForm::Value { value })?;
    let made = OutInit::new(
        alloc,
        OutInitForm::Braces {
            first,
            others: Items::new(alloc),
        },
    )?;
    made.copy(alloc)
}

fn outer(alloc: Global) -> Result<OutOuter, NoMemory> {
    let ty = pair(alloc)?;
    let name = Bytes::of(alloc, b"x_1")?;
    let init = braces(alloc)?;
    let made = OutOuter::new(
        alloc,
        OutOuterForm {
            storage: OutStorage::Static,
            ty,
            name,
            init: Some(init),
        },
    )?;
    made.copy(alloc)
}

/// `int f(int p_1)` with this body behind `int v_1;`.
fn function(alloc: Global, body: OutStats) -> Result<Items<OutFunction>, NoMemory> {
    let result = int(alloc)?;
    let name = Bytes::of(alloc, b"f")?;
    let parameters = declarations(alloc, b"p_1")?;
    let objects = declarations(alloc, b"v_1")?;
    let made = OutFunction::new(
        alloc,
        OutFunctionForm {
            is_static: false,
            result,
            name,
            parameters,
            is_variadic: false,
            objects,
            body,
        },
    )?;
    let mut list = Items::new(alloc);
    list.push(made.copy(alloc)?)?;
    Ok(list)
}

fn program(alloc: Global) -> Result<C89Unit, NoMemory> {
    let structures = structures(alloc)?;
    let mut outers = Items::new(alloc);
    outers.push(outer(alloc)?)?;
    let functions = function(alloc, body(alloc)?)?;
    let made = C89Unit::new(
        alloc,
        C89Form {
            structures,
            outers,
            functions,
        },
    )?;
    made.copy(alloc)
}

#[test]
fn a_program_of_copies_is_written(rt: HostRuntime) -> Result<(), Fail> {
    let alloc = rt.alloc();
    let unit = program(alloc)?;
    assert_eq!(rt; unit.function_count(), 1);
    assert_eq!(rt; unit.object_count(), 1);
    assert_eq!(rt; unit.form().structures.len(), 1);
    let text = write(alloc, &unit)?;
    assert_eq!(rt; text.as_slice(), TEXT);
    Ok(())
}

/// Which types are those of objects (6.1.2.5).
#[test]
fn functions_are_no_objects(rt: HostRuntime) -> Result<(), Fail> {
    let alloc = rt.alloc();
    let result = int(alloc)?;
    let function = OutType::new(
        alloc,
        OutTypeForm::Function {
            result,
            parameters: Items::new(alloc),
            is_variadic: false,
        },
    )?;
    assert!(rt; !function.is_object());
    assert!(rt; pair(alloc)?.is_object());
    assert!(rt; outer(alloc)?.is_object());
    Ok(())
}

/// `7UL` behind so many times `-`.
fn deep(alloc: Global, depth: u32) -> Result<OutExpr, NoMemory> {
    let mut made = seven(alloc)?;
    for _ in 0..depth {
        let operand = made;
        made = OutExpr::new(
            alloc,
            OutExprForm::Unary {
                op: OutPrefix::Minus,
                operand,
            },
        )?;
    }
    Ok(made)
}

/// A body that evaluates a deep expression.
fn deep_body(alloc: Global, depth: u32) -> Result<OutStats, NoMemory> {
    let value = deep(alloc, depth)?;
    let mut stats = Items::new(alloc);
    stats.push(OutStat::new(alloc, OutStatForm::Evaluate { value })?)?;
    OutStats::new(alloc, OutStatsForm { stats })
}

/// The program of a function with this body.
fn program_of(alloc: Global, body: OutStats) -> Result<C89Unit, NoMemory> {
    let functions = function(alloc, body)?;
    C89Unit::new(
        alloc,
        C89Form {
            structures: Items::new(alloc),
            outers: Items::new(alloc),
            functions,
        },
    )
}

/// The bytes of `\nint f(int p_1)\n{\n    int v_1;\n` and of `}\n`.
const AROUND: usize = 33;

#[test]
fn programs_may_be_deep_and_long(rt: HostRuntime) -> Result<(), Fail> {
    let alloc = rt.alloc();
    let unit = program_of(alloc, deep_body(alloc, 2_000)?)?;
    // four blanks, `(-` and `)` of each, `7UL`, and `;\n`
    assert_eq!(rt; write(alloc, &unit)?.as_slice().len(), AROUND + 6_009);
    let unit = program_of(alloc, breaks(alloc, 100_000)?)?;
    // `    break;\n`
    assert_eq!(rt; write(alloc, &unit)?.as_slice().len(), AROUND + 1_100_000);
    Ok(())
}
