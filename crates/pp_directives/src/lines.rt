//! The lines of a file in turn, and those of the files that it includes.
ghost use Rattle.std.specs.Prelude.{◌≡◌, ◌≢◌, slice_get, IfOk, IfErr};
ghost use Rattle.std.specs.Option.{option_map};
ghost use Rattle.model_preprocessing.specs.Directives as directives;
ghost use Rattle.model_preprocessing.specs.Included as included;
ghost use Rattle.model_preprocessing.specs.Preprocessing as spec;
ghost use Rattle.model_preprocessing.specs.Processes.{Process};
ghost use Rattle.model_preprocessing.specs.Sources.{State};
ghost use Rattle.model_preprocessing.specs.Sources as sources;
ghost use Rattle.model_preprocessing.specs.Conditionals as conditionals;
ghost use Rattle.pp_directives.specs.Controls.{control_of};
ghost use Rattle.pp_directives.specs.Lines.{Finds, IsFault};
ghost use Rattle.pp_directives.specs.Outcomes.{Does, Runs};

use crate::branches::{Test, begin, else_line, endif_line, go_on};
use crate::control::{control_line, fault};
use crate::errors::PrepError;
use crate::options::Options;
use crate::rules::{CONDITIONAL_NOT_ENDED, MALFORMED_INCLUDE, TOO_MANY_LEVELS};
use crate::search::find;
use crate::taking::limit;
use crate::unit::Unit;
use cake_base::{Files, NoMemory, Place};
use model_preprocessing::directives::LineKind;
use pp_lines::{Conditionals, HeaderName, Lines, Part, direct_name, is_include, replaced_name};
use std::alloc::Global;
use std::rc::Rc;

/// The name on a line of `#include` (ISO/IEC 9899:2024, 6.10.3).
fn header_of(alloc: Global, unit: &mut Unit, part: &Part) -> Result<HeaderName, PrepError>
    ensures { Does (included.header_of part.now unit.old) result (λ header. (header, unit.new)) unit.new.log }
{
    let at = unit.here(part.at);
    let found = match direct_name(alloc, &part.tokens)? {
        Some(header) => Some(header),
        None => {
            let toks = unit.replaced(alloc, &part.tokens)?;
            replaced_name(alloc, &toks)?
        }
    };
    match found {
        Some(header) if !header.name.as_slice().is_empty() => Ok(header),
        _ => Err(fault(at, MALFORMED_INCLUDE)),
    }
}

/// A line in a group that is translated, and nothing in one that is skipped.
fn translated_only(
    alloc: Global,
    unit: &mut Unit,
    file: u32,
    part: &Part,
    opened: &Conditionals,
) -> Result<(), PrepError>
    ensures { Does (spec.translated_only opened.now unit.old (control_of file part.now.kind part.now unit.old)) result (λ _. (opened.now, unit.new)) unit.new.log }
{
    if opened.is_translated() {
        control_line(alloc, unit, file, part)
    } else {
        Ok(())
    }
}

/// A line that is no include, of the file of that number.
fn plain_line(
    alloc: Global,
    unit: &mut Unit,
    file: u32,
    part: &Part,
    opened: &mut Conditionals,
) -> Result<(), PrepError>
    ensures { (include : directives.Part → State → Process State) → part.now.kind ≢ LineKind.Include →
        Does (spec.line_of file include part.now.kind part.now opened.old unit.old) result (λ _. (opened.new, unit.new)) unit.new.log }
{
    match part.kind {
        LineKind::If => begin(alloc, unit, part, Test::Expression, opened),
        LineKind::Ifdef => begin(alloc, unit, part, Test::Defined, opened),
        LineKind::Ifndef => begin(alloc, unit, part, Test::Undefined, opened),
        LineKind::Elif => go_on(alloc, unit, part, Test::Expression, opened),
        LineKind::Elifdef => go_on(alloc, unit, part, Test::Defined, opened),
        LineKind::Elifndef => go_on(alloc, unit, part, Test::Undefined, opened),
        LineKind::Else => else_line(unit, part, opened),
        LineKind::Endif => endif_line(unit, part, opened),
        LineKind::Line => Ok(()),
        LineKind::Null => Ok(()),
        LineKind::Include => Ok(()),
        LineKind::Text => translated_only(alloc, unit, file, part, opened),
        LineKind::Embed => translated_only(alloc, unit, file, part, opened),
        LineKind::Define => translated_only(alloc, unit, file, part, opened),
        LineKind::Undef => translated_only(alloc, unit, file, part, opened),
        LineKind::Error => translated_only(alloc, unit, file, part, opened),
        LineKind::Warning => translated_only(alloc, unit, file, part, opened),
        LineKind::Pragma => translated_only(alloc, unit, file, part, opened),
        LineKind::Unknown => translated_only(alloc, unit, file, part, opened),
    }
}

/// At the end of a file no conditional may be open: P13 at the `#` of the outermost.
fn end_of_file(unit: &Unit, opened: &Conditionals) -> Result<(), PrepError>
    ensures { Does (spec.ended unit.now (conditionals.outermost opened.now)) result (λ _. unit.now) unit.now.log }
{
    match opened.outermost() {
        Some(at) => Err(fault(at, CONDITIONAL_NOT_ENDED)),
        None => Ok(()),
    }
}

/// The lines of the file of that number, or L01 of it; none where there is no such file.
fn lines_of(unit: &Unit, file: u32) -> Result<Option<Rc<Lines>>, PrepError>
    ensures found { IfOk result (λ lines. Finds (option_map (λ s. s.lines) (slice_get unit.now.sources file)) (option_map (λ rc. rc.value) lines)) }
    ensures fault { IfErr result (λ e. IsFault unit.now (option_map (λ s. s.lines) (slice_get unit.now.sources file)) e) }
{
    let Some(lines) = unit.sources.lines(file)? else {
        return Ok(None);
    };
    if let Some(mut fault) = lines.as_ref().fault() {
        fault.place = unit.here(fault.place);
        return Err(PrepError::Fault(fault));
    }
    Ok(Some(lines))
}

/// `#include` in the file of that number, with so many levels left.
#[cycle(inclusion)]
fn include<F: Files>(
    alloc: Global,
    files: &mut F,
    options: &Options,
    unit: &mut Unit,
    file: u32,
    part: &Part,
    levels: u32,
) -> Result<(), PrepError>
    ensures { Runs (F.shows files.old) (F.shows files.new) (included.include_line (included.levels options.now.dirs levels) options.now.dirs file part.now unit.old) result (λ _. unit.new) unit.new.log }
{
    let at = unit.here(part.at);
    let header = header_of(alloc, unit, part)?;
    if levels == 0 {
        return Err(limit(at, TOO_MANY_LEVELS));
    }
    match find(alloc, files, options, unit, file, at, &header)? {
        Some(found) => translate(alloc, files, options, unit, found, levels - 1),
        None => Ok(()),
    }
}

/// One line of the file of that number.
#[cycle(inclusion)]
fn line<F: Files>(
    alloc: Global,
    files: &mut F,
    options: &Options,
    unit: &mut Unit,
    file: u32,
    part: &Part,
    opened: &mut Conditionals,
    levels: u32,
) -> Result<(), PrepError>
    ensures { Runs (F.shows files.old) (F.shows files.new) (spec.line_of file (included.include_line (included.levels options.now.dirs levels) options.now.dirs file) part.now.kind part.now opened.old unit.old) result (λ _. (opened.new, unit.new)) unit.new.log }
{
    if !is_include(part.kind) {
        return plain_line(alloc, unit, file, part, opened);
    }
    if opened.is_translated() {
        include(alloc, files, options, unit, file, part, levels)
    } else {
        Ok(())
    }
}

/// Preprocesses the lines of the file of that number, with so many levels of includes left
/// (ISO/IEC 9899:2024, 6.10).
#[cycle(inclusion)]
pub fn translate<F: Files>(
    alloc: Global,
    files: &mut F,
    options: &Options,
    unit: &mut Unit,
    file: u32,
    levels: u32,
) -> Result<(), PrepError>
    ensures { Runs (F.shows files.old) (F.shows files.new) (included.translated (included.levels options.now.dirs levels) options.now.dirs file unit.old) result (λ _. unit.new) unit.new.log }
{
    let Some(lines) = lines_of(unit, file)? else {
        return Ok(());
    };
    let mut opened = Conditionals::new(alloc);
    for part in lines.as_ref().parts() {
        line(alloc, files, options, unit, file, part, &mut opened, levels)?;
    }
    end_of_file(unit, &opened)
}
