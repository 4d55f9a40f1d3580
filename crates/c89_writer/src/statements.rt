//! Statements (ISO/IEC 9899:1990, 6.6): a line for each, an indent of four blanks a level.
ghost use Rattle.std.specs.Prelude.{◌≡◌, ◌++◌, ◌+◌, suc, codes, OnOk};
ghost use Rattle.model_c89.specs.SpellingParts89.{indent, expr_text, objects_text, label_text, labels_text, stat_text, stats_text, items_text};
ghost use Rattle.c89_tree.specs.UnitTrees.{expr_tree, stat_tree, stats_tree, label_tree};
ghost use Rattle.c89_tree.specs.ProgramNodes89.{items, stats};

use crate::declarations::{inside, push_indent, push_objects};
use crate::expressions::push_expr;
use c89_tree::{
    OutDeclaration, OutExpr, OutItem, OutLabel, OutLabelForm, OutStat, OutStatForm, OutStats,
};
use cake_base::{Bytes, NoMemory};

/// A line: words, an expression, and what ends it.
fn push_line(
    out: &mut Bytes,
    level: u64,
    words: &[u8],
    value: &OutExpr,
    end: &[u8],
) -> Result<(), NoMemory>
    ensures { OnOk result (out.new ≡ out.old ++ (indent level ++ (words.now ++ (expr_text (expr_tree value.now) ++ end.now)))) }
{
    push_indent(out, level)?;
    out.push(words)?;
    push_expr(out, value)?;
    out.push(end)
}

/// A line of words alone.
fn push_words(out: &mut Bytes, level: u64, words: &[u8]) -> Result<(), NoMemory>
    ensures { OnOk result (out.new ≡ out.old ++ (indent level ++ words.now)) }
{
    push_indent(out, level)?;
    out.push(words)
}

fn push_label(out: &mut Bytes, level: u64, label: &OutLabel) -> Result<(), NoMemory>
    ensures { OnOk result (out.new ≡ out.old ++ label_text level (label_tree label.now)) }
{
    match label.form() {
        OutLabelForm::Case { value } => push_line(out, level, b"case ", value, b":\n"),
        OutLabelForm::Default => push_words(out, level, b"default:\n"),
    }
}

fn push_labels(out: &mut Bytes, level: u64, labels: &[OutLabel]) -> Result<(), NoMemory>
    ensures { OnOk result (out.new ≡ out.old ++ labels_text level labels.now) }
{
    for label in labels {
        push_label(out, level, label)?;
    }
    Ok(())
}

/// What stands between the braces of a statement, and the indent of the closing one.
#[cycle(statement)]
fn push_body(
    out: &mut Bytes,
    level: u64,
    objects: &[OutDeclaration],
    body: &OutStats,
) -> Result<(), NoMemory>
    ensures { OnOk result (out.new ≡ out.old ++ (objects_text (suc level) objects.now ++ (stats_text (suc level) (stats_tree body.now) ++ indent level))) }
{
    let inner = inside(level)?;
    push_objects(out, inner, objects)?;
    push_stats(out, inner, body)?;
    push_indent(out, level)
}

/// Words, and a block up to its closing brace.
#[cycle(statement)]
fn push_block(
    out: &mut Bytes,
    level: u64,
    words: &[u8],
    objects: &[OutDeclaration],
    body: &OutStats,
) -> Result<(), NoMemory>
    ensures { OnOk result (out.new ≡ out.old ++ (indent level ++ (words.now ++ (objects_text (suc level) objects.now ++ (stats_text (suc level) (stats_tree body.now) ++ (indent level ++ codes "}\n")))))) }
{
    push_words(out, level, words)?;
    push_body(out, level, objects, body)?;
    out.push(b"}\n")
}

/// Appends a statement.
#[cycle(statement)]
fn push_stat(out: &mut Bytes, level: u64, stat: &OutStat) -> Result<(), NoMemory>
    ensures { OnOk result (out.new ≡ out.old ++ stat_text level (stat_tree stat.now)) }
{
    match stat.form() {
        OutStatForm::Evaluate { value } => push_line(out, level, b"", value, b";\n"),
        OutStatForm::Assign { left, right } => {
            push_line(out, level, b"", left, b" = ")?;
            push_expr(out, right)?;
            out.push(b";\n")
        }
        OutStatForm::Empty => push_words(out, level, b";\n"),
        OutStatForm::Block { objects, body } => {
            push_block(out, level, b"{\n", objects.as_slice(), body)
        }
        OutStatForm::If {
            condition,
            objects,
            body,
        } => {
            push_line(out, level, b"if (", condition, b") {\n")?;
            push_body(out, level, objects.as_slice(), body)?;
            out.push(b"}\n")
        }
        OutStatForm::IfElse {
            condition,
            objects,
            body,
            other_objects,
            other_body,
        } => {
            push_line(out, level, b"if (", condition, b") {\n")?;
            push_body(out, level, objects.as_slice(), body)?;
            out.push(b"} else {\n")?;
            push_body(out, level, other_objects.as_slice(), other_body)?;
            out.push(b"}\n")
        }
        OutStatForm::Forever { objects, body } => {
            push_block(out, level, b"for (;;) {\n", objects.as_slice(), body)
        }
        OutStatForm::Switch { value, items } => {
            push_line(out, level, b"switch (", value, b") {\n")?;
            push_items(out, inside(level)?, items.as_slice())?;
            push_words(out, level, b"}\n")
        }
        OutStatForm::Break => push_words(out, level, b"break;\n"),
        OutStatForm::Continue => push_words(out, level, b"continue;\n"),
        OutStatForm::ReturnNothing => push_words(out, level, b"return;\n"),
        OutStatForm::Return { value } => push_line(out, level, b"return ", value, b";\n"),
    }
}

/// Appends the statements of a list.
#[cycle(statement)]
pub fn push_stats(out: &mut Bytes, level: u64, list: &OutStats) -> Result<(), NoMemory>
    ensures { OnOk result (out.new ≡ out.old ++ stats_text level (stats_tree list.now)) }
{
    push_each(out, level, list.form().stats.as_slice())
}

#[cycle(statement)]
fn push_each(out: &mut Bytes, level: u64, list: &[OutStat]) -> Result<(), NoMemory>
    ensures { OnOk result (out.new ≡ out.old ++ stats_text level (stats list.now)) }
{
    for stat in list {
        push_stat(out, level, stat)?;
    }
    Ok(())
}

/// The body of a `switch`: statements, each behind its labels.
#[cycle(statement)]
fn push_items(out: &mut Bytes, level: u64, list: &[OutItem]) -> Result<(), NoMemory>
    ensures { OnOk result (out.new ≡ out.old ++ items_text level (items list.now)) }
{
    for item in list {
        let form = item.form();
        push_labels(out, level, form.labels.as_slice())?;
        push_stat(out, level, &form.stat)?;
    }
    Ok(())
}
