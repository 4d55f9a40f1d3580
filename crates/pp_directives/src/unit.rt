//! The state that the lines of a unit change.
ghost use Rattle.std.specs.Prelude.{◌≡◌, ◌++◌, ◌∷◌, ◌<◌, ◌≤◌, [], ℕ, map, length, slice_get, Some, None, is_none, IfOk, OnOk};
ghost use Rattle.std.specs.Option.{option_map};
ghost use Rattle.model_macros.specs.Macros as macros;
ghost use Rattle.model_preprocessing.specs.PreprocessedUnit as whole;
ghost use Rattle.model_preprocessing.specs.Sources as spec;
ghost use Rattle.pp_directives.specs.Replaced.{Replaced};

use crate::errors::PrepError;
use crate::log::PrepLog;
use crate::marks::OpenMarks;
use crate::options::Options;
use crate::output::{Output, standing};
use c_tokens::PpList;
use cake_base::{Bytes, FileName, NoMemory, Place};
use pp_lines::{FileNumbers, Sources};
use pp_lists::Marks;
use pp_macros::{MacroTable, Work, expand};
use std::alloc::Global;
use std::marker::Model;

/// What preprocessing knows at a line. Contracts see the record of its parts.
#[derive(Drop)]
pub struct Unit {
    pub table: MacroTable,
    pub log: PrepLog,
    /// The files that were read, the main file among them.
    pub held: FileNumbers,
    /// The built-in headers that were taken.
    pub built_in: FileNumbers,
    pub sources: Sources,
    pub marks: OpenMarks,
    pub tokens: Output,
    pub work: Work,
    /// The bytes of all files that were read.
    pub bytes: u64,
}

impl Model for Unit {
    ghost use Rattle.model_preprocessing.specs.Sources as spec;

    ghost Value = { spec.State };

    ghost view = { λ u. record { table = u.table; log = u.log; held = u.held; built_in = u.built_in; sources = u.sources; marks = u.marks; tokens = u.tokens; made = u.work.made; bytes = u.bytes } };
}

/// The tokens, each with this number of tokens before it.
fn standing_all(alloc: Global, count: u32, toks: &PpList) -> Result<PpList, NoMemory>
    ensures { IfOk result (λ list. list ≡ spec.standing_all count toks.now) }
{
    let mut list = PpList::new(alloc);
    for at in 0..toks.count() {
        let Some(tok) = toks.get(at) else {
            return Ok(list);
        };
        let mut copy = tok.copy(alloc)?;
        copy.place = standing(count, copy.place);
        list.push(copy)?;
    }
    Ok(list)
}

impl Unit {
    /// The place where a line stands among the tokens so far.
    pub fn here(&self, place: Place) -> Place
        ensures { result ≡ spec.here self.now place }
    {
        standing(self.tokens.count(), place)
    }

    /// The tokens of a line where it stands.
    pub fn tokens_here(&self, alloc: Global, toks: &PpList) -> Result<PpList, NoMemory>
        ensures { IfOk result (λ list. list ≡ spec.tokens_here self.now toks.now) }
    {
        standing_all(alloc, self.tokens.count(), toks)
    }

    /// What the tokens of a line are replaced by.
    pub fn replaced(&mut self, alloc: Global, toks: &PpList) -> Result<PpList, PrepError>
        ensures { Replaced self.old toks.now result self.new }
    {
        let line = self.tokens_here(alloc, toks)?;
        let list = expand(alloc, &self.table, &line, &mut self.work)?;
        Ok(list)
    }

    /// Gives the next number to a file of that name.
    pub fn name_next(&mut self, alloc: Global, name: &str) -> Result<u32, NoMemory>
        ensures { IfOk result (λ file. (file ≡ spec.next_file self.old) × (self.new ≡ spec.named name.now self.old)) }
    {
        let Ok(file) = u32::try_from(self.log.count()) else {
            return Err(NoMemory);
        };
        self.table.name_file(file, name)?;
        self.log.add_name(FileName::new(alloc, name)?)?;
        Ok(file)
    }
}

/// Adds the line that defines a macro of the command.
fn push_define(text: &mut Bytes, name: &[u8], value: &[u8]) -> Result<(), NoMemory>
    ensures { OnOk result (text.new ≡ text.old ++ whole.define_text (name.now, value.now)) }
{
    text.push(b"#define ")?;
    text.push(name)?;
    text.push(b" ")?;
    text.push(value)?;
    text.push(b"\n")?;
    Ok(())
}

/// The lines that define the macros of the command.
fn command_lines(alloc: Global, options: &Options) -> Result<Bytes, NoMemory>
    ensures { IfOk result (λ text. text ≡ whole.command_lines options.now.defines) }
{
    let mut text = Bytes::new(alloc);
    for at in 0..options.define_count() {
        let (Some(name), Some(value)) = (options.name(at), options.value(at)) else {
            return Ok(text);
        };
        push_define(&mut text, name, value)?;
    }
    Ok(text)
}

/// The predefined macros, with the names of the files 0 and 1.
fn first_macros(alloc: Global, name: &str) -> Result<MacroTable, NoMemory>
    ensures { IfOk result (λ table. table ≡ record macros.first_table { files = macros.with_file 1 whole.COMMAND_LINE (macros.with_file 0 name.now macros.first_table.files) }) }
{
    let mut table = MacroTable::new(alloc)?;
    table.name_file(0, name)?;
    table.name_file(1, COMMAND_LINE)?;
    Ok(table)
}

/// The main file, which was read.
fn first_held(alloc: Global, name: &str) -> Result<FileNumbers, NoMemory>
    ensures { IfOk result (λ held. held ≡ (name.now, 0) ∷ []) }
{
    let mut held = FileNumbers::new(alloc);
    held.add(alloc, name.as_bytes(), 0)?;
    Ok(held)
}

/// The main file, which has this text, and the definitions of the command.
fn first_sources(alloc: Global, options: &Options, text: &[u8]) -> Result<Sources, NoMemory>
    requires short { length text.now ≤ 16777216 }
    requires lines { length (whole.command_lines options.now.defines) < 4294967295 }
    ensures { IfOk result (λ sources. sources ≡ spec.source 0 text.now ∷ spec.source 1 (whole.command_lines options.now.defines) ∷ []) }
{
    let defines = command_lines(alloc, options)?;
    let mut sources = Sources::new(alloc);
    sources.add(alloc, 0, text)?;
    sources.add(alloc, 1, defines.as_slice())?;
    Ok(sources)
}

impl Unit {
    /// The state after the main file of that name was read, which has this text.
    pub fn new(alloc: Global, options: &Options, name: &str, text: &[u8]) -> Result<Unit, NoMemory>
        requires short { length text.now ≤ 16777216 }
        requires lines { length (whole.command_lines options.now.defines) < 4294967295 }
        ensures { IfOk result (λ unit. unit ≡ whole.beginning options.now name.now text.now) }
    {
        let log = first_log(alloc, name)?;
        let held = first_held(alloc, name)?;
        let sources = first_sources(alloc, options, text)?;
        let table = first_macros(alloc, name)?;
        Ok(Unit {
            table,
            log,
            held,
            built_in: FileNumbers::new(alloc),
            sources,
            marks: OpenMarks::new(alloc),
            tokens: Output::new(alloc),
            work: Work { made: 0 },
            bytes: text.len() as u64,
        })
    }

    /// The tokens, the marks and the log.
    pub fn into_parts(self) -> (PpList, Marks, PrepLog)
        ensures tokens { result.0 ≡ self.tokens }
        ensures marks { result.1 ≡ self.marks }
        ensures log { result.2 ≡ self.log }
        ensures bound { length result.0 ≤ 1000000 }
    {
        let Unit {
            table: _,
            log,
            held: _,
            built_in: _,
            sources: _,
            marks,
            tokens,
            work: _,
            bytes: _,
        } = self;
        (tokens.into_list(), marks.into_list(), log)
    }
}

/// The name of the file of the command's definitions.
const COMMAND_LINE: &str = "<command line>";

/// The log with the names of the files 0 and 1.
pub fn first_log(alloc: Global, name: &str) -> Result<PrepLog, NoMemory>
    ensures { IfOk result (λ log. log ≡ whole.first_log name.now) }
{
    let mut log = PrepLog::new(alloc);
    log.add_name(FileName::new(alloc, name)?)?;
    log.add_name(FileName::new(alloc, COMMAND_LINE)?)?;
    Ok(log)
}
