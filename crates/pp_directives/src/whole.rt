//! Preprocessing of a unit.
ghost use Rattle.std.specs.Prelude.{◌≡◌, ◌<◌, ◌≤◌, [], length, IfOk, IfErr};
ghost use Rattle.cake_base.specs.Outside.{ReadKeeps};
ghost use Rattle.model_preprocessing.specs.Place as places;
ghost use Rattle.model_preprocessing.specs.PreprocessedUnit as whole;
ghost use Rattle.model_preprocessing.specs.Processes as process;
ghost use Rattle.pp_directives.specs.Outcomes.{Runs};
ghost use Rattle.pp_directives.specs.Promise.{IsDue, FailedRead, MissedMain, Kept, IsAnswered, MainUnread};
ghost use Rattle.pp_directives.specs.Reads.{Answers};

use crate::errors::PrepError;
use crate::lines::translate;
use crate::log::PrepLog;
use crate::options::Options;
use crate::unit::{Unit, first_log};
use c_tokens::PpList;
use cake_base::{Files, NoMemory, Place, ReadFault};
use model_preprocessing::directives::ReadCause;
use model_preprocessing::positions::Position;
use pp_lists::Marks;
use std::alloc::Global;
use std::marker::Model;

/// The most includes within one another.
const MOST_LEVELS: u32 = 200;

/// A unit that is preprocessed. Contracts see the record of its parts.
#[derive(Debug, Drop)]
pub struct Prep {
    tokens: PpList,
    marks: Marks,
    end: Place,
}

impl Model for Prep {
    ghost use Rattle.pp_directives.specs.Promise as promise;

    ghost Value = { promise.Prep };

    ghost view = { λ p. record { tokens = p.tokens; marks = p.marks; end = p.end } };
}

impl Prep {
    /// The preprocessed tokens; the order of each is its rank.
    pub fn tokens(&self) -> &PpList
        ensures { result.now ≡ self.now.tokens }
    {
        &self.tokens
    }

    /// The marks of diagnostic pragmas.
    pub fn marks(&self) -> &Marks
        ensures { result.now ≡ self.now.marks }
    {
        &self.marks
    }

    /// The place after the last byte of the main file.
    pub fn end(&self) -> Place
        ensures { result ≡ self.now.end }
    {
        self.end
    }
}

/// The position behind these bytes.
fn behind_all(text: &[u8]) -> Position
    requires { length text.now ≤ 16777216 }
    ensures { result ≡ places.behind_all places.first_position text.now }
{
    let mut at = Position { line: 1, column: 1 };
    for byte in text {
        at = if *byte == b'\n' {
            Position {
                line: at.line + 1,
                column: 1,
            }
        } else {
            Position {
                line: at.line,
                column: at.column + 1,
            }
        };
    }
    at
}

/// The answer for these tokens and marks, where the main file has this text.
fn prepared(tokens: PpList, marks: Marks, text: &[u8]) -> Prep
    requires few { length tokens ≤ 1000000 }
    requires short { length text.now ≤ 16777216 }
    ensures { result ≡ record { tokens = tokens; marks = marks; end = places.main_place (places.behind_all places.first_position text.now) (length tokens) } }
{
    let behind = behind_all(text);
    let end = Place {
        file: 0,
        line: behind.line,
        column: behind.column,
        order: tokens.count() as u32,
    };
    Prep { tokens, marks, end }
}

/// Reads the main file.
fn read_main<F: Files>(alloc: Global, files: &mut F, name: &str) -> Result<Vec<u8>, PrepError>
    ensures keeps { ReadKeeps (F.shows files.old) (F.shows files.new) }
    ensures text { IfOk result (λ text. Answers (F.shows files.old) (F.shows files.new) name.now (process.Contents text.items)) }
    ensures unread { IfErr result (λ e. MainUnread (F.shows files.old) (F.shows files.new) name.now e) }
{
    let mut text = Vec::new(alloc);
    match files.read(alloc, name, &mut text) {
        Ok(()) => Ok(text),
        Err(ReadFault::Missing) => Err(PrepError::Read(0, ReadCause::MainMissing)),
        Err(ReadFault::TooLarge) => Err(PrepError::Read(0, ReadCause::TooLarge)),
        Err(ReadFault::Failed) => Err(PrepError::Read(0, ReadCause::Failed)),
        Err(ReadFault::NoMemory) => Err(PrepError::NoMemory),
    }
}

/// The definitions of the command, and then the main file.
fn both_files<F: Files>(
    alloc: Global,
    files: &mut F,
    options: &Options,
    unit: &mut Unit,
) -> Result<(), PrepError>
    ensures { Runs (F.shows files.old) (F.shows files.new) (whole.both_files options.now unit.old) result (λ _. unit.new) unit.new.log }
{
    translate(alloc, files, options, unit, 1, MOST_LEVELS)?;
    translate(alloc, files, options, unit, 0, MOST_LEVELS)
}

/// Preprocesses the unit: what comes of the answers of the files.
fn prepare<F: Files>(
    alloc: Global,
    files: &mut F,
    options: &Options,
    name: &str,
    log: &mut PrepLog,
) -> Result<Prep, PrepError>
    requires { length (whole.command_lines options.now.defines) < 4294967295 }
    ensures { IsAnswered (F.shows files.old) (F.shows files.new) options.now name.now result log.new }
{
    *log = first_log(alloc, name)?;
    let text = read_main(alloc, files, name)?;
    let mut unit = Unit::new(alloc, options, name, text.as_slice())?;
    let done = both_files(alloc, files, options, &mut unit);
    let (tokens, marks, kept) = unit.into_parts();
    *log = kept;
    done?;
    Ok(prepared(tokens, marks, text.as_slice()))
}

/// Preprocesses the unit of the main file of that name, with its headers (ISO/IEC 9899:2024, 5.1.1.2
/// phases 1 to 4 and 6.10). The log is empty at the call, and the definitions of the options have
/// together fewer than 4,294,967,295 bytes, each with `#define `, a blank and a line end.
///
/// The error is the first in the order of translation: a rule P01 to P20 or L01, a limit M01 to M05,
/// or a file that isn't read, by its number in the log. The log then has the names of all files that
/// were met, that one among them, and the notes.
pub fn preprocess<F: Files>(
    alloc: Global,
    files: &mut F,
    options: &Options,
    name: &str,
    log: &mut PrepLog,
) -> Result<Prep, PrepError>
    requires empty { log.old ≡ record { names = []; notes = [] } }
    requires lines { length (whole.command_lines options.now.defines) < 4294967295 }

    // Where the files tell what they hold, the answer, the names and the notes are those that are due.
    ensures due { IsDue (F.shows files.old).held options.now name.now result log.new }

    // A failed read comes only where the count of faults rose, with what stands where that read fails.
    ensures failed { FailedRead (F.shows files.old) (F.shows files.new) options.now name.now result log.new }

    // A missing main file comes only where the count of misses rose, or where it isn't held.
    ensures missed { MissedMain (F.shows files.old) (F.shows files.new) result }

    // No read changes what the files hold, and no count falls.
    ensures kept { Kept (F.shows files.old) (F.shows files.new) }

    // The same of files that tell nothing: what comes of the answers that they gave.
    ensures answered { IsAnswered (F.shows files.old) (F.shows files.new) options.now name.now result log.new }
{
    prepare(alloc, files, options, name, log)
}
