//! Lines that declare objects and members (ISO/IEC 9899:1990, 6.5), and the names of parameters.
ghost use Rattle.std.specs.Prelude.{◌≡◌, ◌++◌, [], ◌∷◌, false, suc, IfOk, OnOk};
ghost use Rattle.model_c89.specs.SpellingParts89.{indent, objects_text};
ghost use Rattle.model_c89.specs.Spelling89.{named_text, more_named_text};
ghost use Rattle.c89_tree.specs.UnitTrees.{declaration_tree};

use crate::types::{push_declaration, push_dots};
use c89_tree::OutDeclaration;
use cake_base::{Bytes, NoMemory};

/// The level inside one. A level past 64 bits, for which no memory is large enough, is answered as want of it.
pub fn inside(level: u64) -> Result<u64, NoMemory>
    ensures { IfOk result (λ inner. inner ≡ suc level) }
{
    level.checked_add(1).ok_or(NoMemory)
}

/// So many levels of four blanks.
pub fn push_indent(out: &mut Bytes, level: u64) -> Result<(), NoMemory>
    ensures { OnOk result (out.new ≡ out.old ++ indent level) }
{
    for done in 0..level {
        out.push(b"    ")?;
    }
    Ok(())
}

/// A line that declares an object or a member.
pub fn push_object(out: &mut Bytes, level: u64, object: &OutDeclaration) -> Result<(), NoMemory>
    ensures { OnOk result (out.new ≡ out.old ++ objects_text level (declaration_tree object.now ∷ [])) }
{
    push_indent(out, level)?;
    push_declaration(out, object)?;
    out.push(b";\n")
}

/// A line for each declaration.
pub fn push_objects(out: &mut Bytes, level: u64, objects: &[OutDeclaration]) -> Result<(), NoMemory>
    ensures { OnOk result (out.new ≡ out.old ++ objects_text level objects.now) }
{
    for object in objects {
        push_object(out, level, object)?;
    }
    Ok(())
}

fn push_more_named(out: &mut Bytes, parameters: &[OutDeclaration]) -> Result<(), NoMemory>
    ensures { OnOk result (out.new ≡ out.old ++ more_named_text parameters.now false) }
{
    for parameter in parameters {
        out.push(b", ")?;
        push_declaration(out, parameter)?;
    }
    Ok(())
}

/// The parameters of a function that is defined, with their names.
pub fn push_named(
    out: &mut Bytes,
    parameters: &[OutDeclaration],
    is_variadic: bool,
) -> Result<(), NoMemory>
    ensures { OnOk result (out.new ≡ out.old ++ named_text parameters.now is_variadic) }
{
    let Some((first, others)) = parameters.split_first() else {
        return out.push(b"void");
    };
    push_declaration(out, first)?;
    push_more_named(out, others)?;
    push_dots(out, is_variadic)
}
