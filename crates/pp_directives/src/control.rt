//! What a line does that is text or no conditional's.
ghost use Rattle.std.specs.Prelude.{◌≡◌, ◌++◌, drop, option_copied, IfOk, OnOk};
ghost use Rattle.model_preprocessing.specs.ControlLines as spec;
ghost use Rattle.model_preprocessing.specs.Sources as sources;
ghost use Rattle.pp_directives.specs.Outcomes.{Does};
ghost use Rattle.pp_directives.specs.Controls.{name_of, control_of};
ghost use Rattle.pp_directives.specs.declared.errors.PrepError.TheVariants as prep_error;
ghost use Rattle.pp_definitions.specs.Answers.{rule_at};

use crate::errors::PrepError;
use crate::rules::{
    ERROR_DIRECTIVE, LEFT_OUT, MALFORMED_PRAGMA, NO_MACRO_NAME, RESERVED_NAME, UNKNOWN_DIRECTIVE,
};
use crate::unit::Unit;
use c_tokens::{PpKind, PpList};
use cake_base::{Act, Bytes, Family, Fault, Mark, NoMemory, Note, Place, Rule};
use model_preprocessing::directives::{LineKind, Pragma};
use pp_lines::{Part, pragma_of};
use pp_macros::{is_reserved, read_macro};
use std::alloc::Global;

/// The rule of the family P with that number, broken at a place.
pub fn fault(place: Place, number: u32) -> PrepError
    ensures { result ≡ prep_error.Fault (rule_at place number) }
{
    PrepError::Fault(Fault {
        place,
        rule: Rule {
            family: Family::P,
            number,
        },
    })
}

/// A run of text lines: its tokens are replaced, and come after the tokens so far.
fn text_run(alloc: Global, unit: &mut Unit, part: &Part) -> Result<(), PrepError>
    ensures { Does (spec.text_run part.now unit.old) result (λ _. unit.new) unit.new.log }
{
    let list = unit.replaced(alloc, &part.tokens)?;
    unit.tokens.append(alloc, &list)
}

/// `#define` (ISO/IEC 9899:2024, 6.10.5).
fn define_line(alloc: Global, unit: &mut Unit, part: &Part) -> Result<(), PrepError>
    ensures { Does (spec.define_line part.now unit.old) result (λ _. unit.new) unit.new.log }
{
    let at = unit.here(part.at);
    let line = unit.tokens_here(alloc, &part.tokens)?;
    let def = read_macro(alloc, at, &line)?;
    unit.table.define(def)?;
    Ok(())
}

/// The macro name that has to follow on the line, if it does.
pub fn macro_name(toks: &PpList) -> Option<&[u8]>
    ensures { option_copied result ≡ name_of toks.now }
{
    match toks.get(0) {
        Some(tok) => {
            if tok.kind == PpKind::Name {
                Some(tok.spelling())
            } else {
                None
            }
        }
        None => None,
    }
}

/// `#undef` (6.10.5.6).
fn undef_line(unit: &mut Unit, part: &Part) -> Result<(), PrepError>
    ensures { Does (spec.undef_line part.now unit.old) result (λ _. unit.new) unit.new.log }
{
    let at = unit.here(part.at);
    let Some(name) = macro_name(&part.tokens) else {
        return Err(fault(at, NO_MACRO_NAME));
    };
    if is_reserved(name) {
        return Err(fault(at, RESERVED_NAME));
    }
    let _ = unit.table.undef(name);
    Ok(())
}

/// The spellings of the tokens, parted by one space.
fn note_text(alloc: Global, toks: &PpList) -> Result<Bytes, NoMemory>
    ensures { IfOk result (λ text. text ≡ spec.note_text toks.now) }
{
    let mut text = Bytes::new(alloc);
    let Some(first) = toks.get(0) else {
        return Ok(text);
    };
    text.push(first.spelling())?;
    for at in 1..toks.count() {
        let Some(tok) = toks.get(at) else {
            return Ok(text);
        };
        text.push(b" ")?;
        text.push(tok.spelling())?;
    }
    Ok(text)
}

/// Makes the note of `#error` or `#warning` (6.10.7).
fn note(alloc: Global, unit: &mut Unit, part: &Part) -> Result<(), NoMemory>
    ensures { OnOk result (unit.new ≡ spec.noted part.now unit.old) }
{
    let place = unit.here(part.at);
    let text = note_text(alloc, &part.tokens)?;
    unit.log.add_note(Note { place, text })
}

/// `#error`.
fn error_line(alloc: Global, unit: &mut Unit, part: &Part) -> Result<(), PrepError>
    ensures { Does (spec.error_line part.now unit.old) result (λ _. unit.new) unit.new.log }
{
    let at = unit.here(part.at);
    note(alloc, unit, part)?;
    Err(fault(at, ERROR_DIRECTIVE))
}

/// `#warning`.
fn warning_line(alloc: Global, unit: &mut Unit, part: &Part) -> Result<(), PrepError>
    ensures { Does (control_of 0 LineKind.Warning part.now unit.old) result (λ _. unit.new) unit.new.log }
{
    note(alloc, unit, part)?;
    Ok(())
}

/// A mark of a diagnostic pragma.
fn mark(unit: &mut Unit, at: Place, act: Act) -> Result<(), PrepError>
    ensures { Does (spec.marked unit.old at act) result (λ _. unit.new) unit.new.log }
{
    if unit.marks.pops_nothing(act) {
        return Err(fault(at, MALFORMED_PRAGMA));
    }
    let before = unit.tokens.count();
    unit.marks.push(Mark { before, act })?;
    Ok(())
}

/// `#pragma` (6.10.8), in the file of that number.
fn pragma_line(unit: &mut Unit, file: u32, part: &Part) -> Result<(), PrepError>
    ensures { Does (spec.pragma_line file part.now unit.old) result (λ _. unit.new) unit.new.log }
{
    let at = unit.here(part.at);
    match pragma_of(&part.tokens) {
        Pragma::Once => {
            unit.sources.mark_once(file);
            Ok(())
        }
        Pragma::Marks(act) => mark(unit, at, act),
        Pragma::Malformed => Err(fault(at, MALFORMED_PRAGMA)),
        Pragma::Dropped => Ok(()),
    }
}

/// A line that is refused as it is: P20 of `#embed`, P16 of an unknown directive.
fn refused_line(unit: &mut Unit, part: &Part, number: u32) -> Result<(), PrepError>
    ensures { Does (sources.faults unit.old (sources.here unit.old part.now.at) number) result (λ _. unit.new) unit.new.log }
{
    Err(fault(unit.here(part.at), number))
}

/// A line of the file of that number, in a group that is translated.
pub fn control_line(alloc: Global, unit: &mut Unit, file: u32, part: &Part) -> Result<(), PrepError>
    ensures { Does (control_of file part.now.kind part.now unit.old) result (λ _. unit.new) unit.new.log }
{
    match part.kind {
        LineKind::Text => text_run(alloc, unit, part),
        LineKind::Embed => refused_line(unit, part, LEFT_OUT),
        LineKind::Define => define_line(alloc, unit, part),
        LineKind::Undef => undef_line(unit, part),
        LineKind::Error => error_line(alloc, unit, part),
        LineKind::Warning => warning_line(alloc, unit, part),
        LineKind::Pragma => pragma_line(unit, file, part),
        LineKind::Unknown => refused_line(unit, part, UNKNOWN_DIRECTIVE),
        LineKind::If => Ok(()),
        LineKind::Ifdef => Ok(()),
        LineKind::Ifndef => Ok(()),
        LineKind::Elif => Ok(()),
        LineKind::Elifdef => Ok(()),
        LineKind::Elifndef => Ok(()),
        LineKind::Else => Ok(()),
        LineKind::Endif => Ok(()),
        LineKind::Include => Ok(()),
        LineKind::Line => Ok(()),
        LineKind::Null => Ok(()),
    }
}
