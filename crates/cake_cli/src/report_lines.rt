//! The lines that are reported.
ghost use Rattle.std.specs.Prelude.{◌≡◌, ◌++◌, OnOk, unwrap_or};
ghost use Rattle.std.specs.Fmt.{decimal};
ghost use Rattle.cake_cli.specs.ReportLines as spec;

use crate::texts::{limit_text, rule_text};
use cake_base::{Bytes, Family, Fault, LimitHit, NoMemory, Note, Place};
use itoa::Buffer;
use pp_directives::PrepLog;

fn push_number(out: &mut Bytes, number: u32) -> Result<(), NoMemory>
    ensures { OnOk result (out.new ≡ out.old ++ decimal number) }
{
    let mut digits = Buffer::new();
    out.push(digits.format(number).as_bytes())
}

/// A number of two digits at least.
fn push_two_digits(out: &mut Bytes, number: u32) -> Result<(), NoMemory>
    ensures { OnOk result (out.new ≡ out.old ++ spec.two_digits number) }
{
    if number < 10 {
        out.push(b"0")?;
    }
    push_number(out, number)
}

/// NAME:LINE:COLUMN.
fn push_place(out: &mut Bytes, log: &PrepLog, place: Place) -> Result<(), NoMemory>
    ensures { OnOk result (out.new ≡ out.old ++ spec.place_text log.now place) }
{
    let name = log.file_name(place.file).unwrap_or("");
    out.push(name.as_bytes())?;
    out.push(b":")?;
    push_number(out, place.line)?;
    out.push(b":")?;
    push_number(out, place.column)
}

fn letter(family: Family) -> &'static [u8]
    ensures { result.now ≡ spec.letter_of family }
{
    match family {
        Family::P => b"P",
        Family::L => b"L",
        Family::S => b"S",
        Family::C => b"C",
        Family::F => b"F",
        Family::G => b"G",
    }
}

/// The line on a broken rule.
pub fn push_fault(out: &mut Bytes, log: &PrepLog, fault: &Fault) -> Result<(), NoMemory>
    ensures { OnOk result (out.new ≡ out.old ++ spec.fault_line log.now fault.now) }
{
    push_place(out, log, fault.place)?;
    out.push(b": error ")?;
    out.push(letter(fault.rule.family))?;
    push_two_digits(out, fault.rule.number)?;
    out.push(b": ")?;
    out.push(rule_text(fault.rule).as_bytes())?;
    out.push(b"\n")
}

/// The line on a limit that is passed.
pub fn push_limit(out: &mut Bytes, log: &PrepLog, hit: &LimitHit) -> Result<(), NoMemory>
    ensures { OnOk result (out.new ≡ out.old ++ spec.limit_line log.now hit.now) }
{
    push_place(out, log, hit.place)?;
    out.push(b": limit M")?;
    push_two_digits(out, hit.limit.number)?;
    out.push(b": ")?;
    out.push(limit_text(hit.limit).as_bytes())?;
    out.push(b"\n")
}

/// The line on a unit that isn't built yet.
pub fn push_not_built(out: &mut Bytes, log: &PrepLog, place: Place) -> Result<(), NoMemory>
    ensures { OnOk result (out.new ≡ out.old ++ spec.not_built_line log.now place) }
{
    push_place(out, log, place)?;
    out.push(b": not built yet\n")
}

/// The line on a file that can't be read.
pub fn push_cannot_read(out: &mut Bytes, name: &str) -> Result<(), NoMemory>
    ensures { OnOk result (out.new ≡ out.old ++ spec.cannot_read_line name.now) }
{
    out.push(b"cake: cannot read ")?;
    out.push(name.as_bytes())?;
    out.push(b"\n")
}

fn push_note(out: &mut Bytes, log: &PrepLog, note: &Note) -> Result<(), NoMemory>
    ensures { OnOk result (out.new ≡ out.old ++ spec.note_line log.now note.now) }
{
    push_place(out, log, note.place)?;
    out.push(b": note: ")?;
    out.push(note.text.as_slice())?;
    out.push(b"\n")
}

/// The lines of all notes.
pub fn push_notes(out: &mut Bytes, log: &PrepLog) -> Result<(), NoMemory>
    ensures { OnOk result (out.new ≡ out.old ++ spec.notes_text log.now) }
{
    let notes = log.notes();
    for at in 0..notes.count() {
        let Some(note) = notes.get(at) else {
            unreachable!();
        };
        push_note(out, log, note)?;
    }
    Ok(())
}
