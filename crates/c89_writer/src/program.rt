//! The whole text: structures, what stands outside of functions, and functions.
ghost use Rattle.std.specs.Prelude.{◌≡◌, ◌++◌, IfOk, OnOk};
ghost use Rattle.model_c89.specs.Spelling89 as text;
ghost use Rattle.model_c89.specs.Spelling89.{canonical};
ghost use Rattle.model_c89.specs.SpellingParts89.{declaration_text};
ghost use Rattle.c89_tree.specs.UnitProgramForms.{function_of};
ghost use Rattle.c89_tree.specs.UnitTrees.{structure_tree, outer_tree, function_tree, program_tree};

use crate::declarations::{push_named, push_object, push_objects};
use crate::initializers::push_value;
use crate::signs::{function_storage, storage};
use crate::statements::push_stats;
use crate::types::{push_back, push_declared, push_front};
use c89_tree::{C89Unit, OutFunction, OutFunctionForm, OutOuter, OutStructure, OutStructureForm};
use cake_base::{Bytes, NoMemory};
use std::alloc::Global;

fn push_structure(out: &mut Bytes, structure: &OutStructure) -> Result<(), NoMemory>
    ensures { OnOk result (out.new ≡ out.old ++ text.structure_text (structure_tree structure.now)) }
{
    match structure.form() {
        OutStructureForm::Tag { name } => {
            out.push(b"struct ")?;
            out.push(name.as_slice())?;
            out.push(b";\n")
        }
        OutStructureForm::Members {
            name,
            first,
            others,
        } => {
            out.push(b"struct ")?;
            out.push(name.as_slice())?;
            out.push(b" {\n")?;
            push_object(out, 1, first)?;
            push_objects(out, 1, others.as_slice())?;
            out.push(b"};\n")
        }
    }
}

fn push_structures(out: &mut Bytes, structures: &[OutStructure]) -> Result<(), NoMemory>
    ensures { OnOk result (out.new ≡ out.old ++ text.structures_text structures.now) }
{
    for structure in structures {
        push_structure(out, structure)?;
    }
    Ok(())
}

fn push_outer(out: &mut Bytes, outer: &OutOuter) -> Result<(), NoMemory>
    ensures { OnOk result (out.new ≡ out.old ++ text.outer_text (outer_tree outer.now)) }
{
    let form = outer.form();
    out.push(storage(form.storage))?;
    push_declared(out, &form.ty, form.name.as_slice())?;
    push_value(out, &form.init)?;
    out.push(b";\n")
}

fn push_outers(out: &mut Bytes, outers: &[OutOuter]) -> Result<(), NoMemory>
    ensures { OnOk result (out.new ≡ out.old ++ text.outers_text outers.now) }
{
    for outer in outers {
        push_outer(out, outer)?;
    }
    Ok(())
}

/// A function's declaration, up to its body: the head stands where the declared name does.
fn push_head(out: &mut Bytes, form: &OutFunctionForm) -> Result<(), NoMemory>
    ensures { OnOk result (out.new ≡ out.old ++ declaration_text (function_of form.now).result (text.head_text (function_of form.now))) }
{
    push_front(out, &form.result, true)?;
    out.push(form.name.as_slice())?;
    out.push(b"(")?;
    push_named(out, form.parameters.as_slice(), form.is_variadic)?;
    out.push(b")")?;
    push_back(out, &form.result)
}

fn push_function(out: &mut Bytes, function: &OutFunction) -> Result<(), NoMemory>
    ensures { OnOk result (out.new ≡ out.old ++ text.function_text (function_tree function.now)) }
{
    let form = function.form();
    out.push(function_storage(form.is_static))?;
    push_head(out, form)?;
    out.push(b"\n{\n")?;
    push_objects(out, 1, form.objects.as_slice())?;
    push_stats(out, 1, &form.body)?;
    out.push(b"}\n")
}

fn push_functions(out: &mut Bytes, functions: &[OutFunction]) -> Result<(), NoMemory>
    ensures { OnOk result (out.new ≡ out.old ++ text.functions_text functions.now) }
{
    for function in functions {
        out.push(b"\n")?;
        push_function(out, function)?;
    }
    Ok(())
}

/// The one text of a C89 program (ISO/IEC 9899:1990, 6.1 to 6.7).
///
/// It reads as the program and as no other. Want of memory is the only refusal. The text is built once, in one buffer.
pub fn write(alloc: Global, unit: &C89Unit) -> Result<Bytes, NoMemory>
    ensures { IfOk result (λ text. text ≡ canonical (program_tree unit.now)) }
{
    let mut out = Bytes::new(alloc);
    let form = unit.form();
    push_structures(&mut out, form.structures.as_slice())?;
    push_outers(&mut out, form.outers.as_slice())?;
    push_functions(&mut out, form.functions.as_slice())?;
    Ok(out)
}
