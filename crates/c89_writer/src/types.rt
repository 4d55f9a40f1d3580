//! Types and declarations (ISO/IEC 9899:1990, 6.5.4, 6.5.5). A declaration is written from the left: what stands
//! before the declared name, the name, and what stands behind it.
ghost use Rattle.std.specs.Prelude.{◌≡◌, ◌++◌, [], false, OnOk};
ghost use Rattle.model_c89.specs.Signs89.{base_text};
ghost use Rattle.model_c89.specs.SpellingParts89.{declaration_text, parameters_text, others_text, count_text};
ghost use Rattle.c89_tree.specs.UnitTypeForms.{base_of};
ghost use Rattle.c89_tree.specs.UnitTrees.{type_tree, declaration_tree};
ghost use Rattle.c89_tree.specs.ProgramNodes89.{types};
ghost use Rattle.c89_writer.specs.apparatus.Sides as sides;

use crate::numbers::push_decimal;
use crate::signs::constness;
use c89_tree::{OutBase, OutDeclaration, OutType, OutTypeForm};
use cake_base::{Bytes, NoMemory};

fn push_base(out: &mut Bytes, base: &OutBase) -> Result<(), NoMemory>
    ensures { OnOk result (out.new ≡ out.old ++ base_text (base_of base.now)) }
{
    match base {
        OutBase::Void => out.push(b"void"),
        OutBase::Char => out.push(b"char"),
        OutBase::SignedChar => out.push(b"signed char"),
        OutBase::UnsignedChar => out.push(b"unsigned char"),
        OutBase::Short => out.push(b"short"),
        OutBase::UnsignedShort => out.push(b"unsigned short"),
        OutBase::Int => out.push(b"int"),
        OutBase::UnsignedInt => out.push(b"unsigned int"),
        OutBase::Long => out.push(b"long"),
        OutBase::UnsignedLong => out.push(b"unsigned long"),
        OutBase::Struct { name } => {
            out.push(b"struct ")?;
            out.push(name.as_slice())
        }
    }
}

fn push_blank(out: &mut Bytes, named: bool) -> Result<(), NoMemory>
    ensures { OnOk result (out.new ≡ out.old ++ sides.blank named) }
{
    if named { out.push(b" ") } else { Ok(()) }
}

fn push_star(out: &mut Bytes, is_const: bool, named: bool) -> Result<(), NoMemory>
    ensures { OnOk result (out.new ≡ out.old ++ sides.star is_const named) }
{
    if !is_const {
        return out.push(b"*");
    }
    out.push(b"*const")?;
    push_blank(out, named)
}

fn opened(to: &OutType) -> &'static [u8]
    ensures { result.now ≡ sides.opened (type_tree to.now) }
{
    match to.form() {
        OutTypeForm::Based { .. } => b"",
        OutTypeForm::Pointer { .. } => b"",
        OutTypeForm::Array { .. } => b"(",
        OutTypeForm::Function { .. } => b"(",
    }
}

fn closed(to: &OutType) -> &'static [u8]
    ensures { result.now ≡ sides.closed (type_tree to.now) }
{
    match to.form() {
        OutTypeForm::Based { .. } => b"",
        OutTypeForm::Pointer { .. } => b"",
        OutTypeForm::Array { .. } => b")",
        OutTypeForm::Function { .. } => b")",
    }
}

/// What stands before the declared name, where there is one.
pub fn push_front(out: &mut Bytes, ty: &OutType, named: bool) -> Result<(), NoMemory>
    ensures { OnOk result (out.new ≡ out.old ++ sides.front (type_tree ty.now) named) }
{
    match ty.form() {
        OutTypeForm::Based { is_const, base } => {
            out.push(constness(*is_const))?;
            push_base(out, base)?;
            push_blank(out, named)
        }
        OutTypeForm::Pointer { is_const, to } => {
            push_front(out, to, true)?;
            out.push(opened(to))?;
            push_star(out, *is_const, named)
        }
        OutTypeForm::Array { of, .. } => push_front(out, of, true),
        OutTypeForm::Function { result, .. } => push_front(out, result, true),
    }
}

fn push_count(out: &mut Bytes, count: Option<u64>) -> Result<(), NoMemory>
    ensures { OnOk result (out.new ≡ out.old ++ count_text count) }
{
    match count {
        None => out.push(b"[]"),
        Some(count) => {
            out.push(b"[")?;
            push_decimal(out, count)?;
            out.push(b"]")
        }
    }
}

/// What stands behind the declared name.
#[cycle(declaration)]
pub fn push_back(out: &mut Bytes, ty: &OutType) -> Result<(), NoMemory>
    ensures { OnOk result (out.new ≡ out.old ++ sides.back (type_tree ty.now)) }
{
    match ty.form() {
        OutTypeForm::Based { .. } => Ok(()),
        OutTypeForm::Pointer { to, .. } => {
            out.push(closed(to))?;
            push_back(out, to)
        }
        OutTypeForm::Array { count, of } => {
            push_count(out, *count)?;
            push_back(out, of)
        }
        OutTypeForm::Function {
            result,
            parameters,
            is_variadic,
        } => {
            out.push(b"(")?;
            push_parameters(out, parameters.as_slice(), *is_variadic)?;
            out.push(b")")?;
            push_back(out, result)
        }
    }
}

/// The types of parameters without names.
#[cycle(declaration)]
fn push_parameters(
    out: &mut Bytes,
    parameters: &[OutType],
    is_variadic: bool,
) -> Result<(), NoMemory>
    ensures { OnOk result (out.new ≡ out.old ++ parameters_text (types parameters.now) is_variadic) }
{
    let Some((first, others)) = parameters.split_first() else {
        return out.push(b"void");
    };
    push_type(out, first)?;
    push_others(out, others)?;
    push_dots(out, is_variadic)
}

#[cycle(declaration)]
fn push_others(out: &mut Bytes, others: &[OutType]) -> Result<(), NoMemory>
    ensures { OnOk result (out.new ≡ out.old ++ others_text (types others.now) false) }
{
    for other in others {
        out.push(b", ")?;
        push_type(out, other)?;
    }
    Ok(())
}

/// What stands behind the parameters of a function that takes more arguments.
pub fn push_dots(out: &mut Bytes, is_variadic: bool) -> Result<(), NoMemory>
    ensures { OnOk result (out.new ≡ out.old ++ sides.dots is_variadic) }
{
    if is_variadic {
        out.push(b", ...")
    } else {
        Ok(())
    }
}

/// A type without a name (6.5.5).
#[cycle(declaration)]
pub fn push_type(out: &mut Bytes, ty: &OutType) -> Result<(), NoMemory>
    ensures { OnOk result (out.new ≡ out.old ++ declaration_text (type_tree ty.now) []) }
{
    push_front(out, ty, false)?;
    push_back(out, ty)
}

/// The declaration of a name that isn't empty, with its type.
pub fn push_declared(out: &mut Bytes, ty: &OutType, name: &[u8]) -> Result<(), NoMemory>
    ensures { OnOk result (out.new ≡ out.old ++ declaration_text (type_tree ty.now) name.now) }
{
    push_front(out, ty, !name.is_empty())?;
    out.push(name)?;
    push_back(out, ty)
}

/// A declaration of an object, a member or a parameter.
pub fn push_declaration(out: &mut Bytes, declaration: &OutDeclaration) -> Result<(), NoMemory>
    ensures { OnOk result (out.new ≡ out.old ++ declaration_text (declaration_tree declaration.now).type (declaration_tree declaration.now).name) }
{
    let form = declaration.form();
    push_declared(out, &form.ty, form.name.as_slice())
}
