//! The search for a file to be included.
ghost use Rattle.std.specs.Prelude.{◌≡◌, slice_get, None, IfOk};
ghost use Rattle.model_preprocessing.specs.FileSearch as spec;
ghost use Rattle.model_preprocessing.specs.Included as included;
ghost use Rattle.model_preprocessing.specs.Sources.{number_of};
ghost use Rattle.model_preprocessing.specs.Processes.{Process};
ghost use Rattle.model_preprocessing.specs.Processes as process;
ghost use Rattle.pp_directives.specs.Outcomes.{Runs};
ghost use Rattle.pp_directives.specs.Looks.{Looks};

use crate::candidates::candidate;
use crate::errors::PrepError;
use crate::options::Options;
use crate::taking::{again, find_built_in, take, unread};
use crate::unit::Unit;
use cake_base::{Bytes, Files, NoMemory, Place, ReadFault};
use model_preprocessing::directives::ReadCause;
use pp_lines::HeaderName;
use std::alloc::Global;

/// What the search for one name gives.
#[derive(Drop)]
pub enum Looked {
    /// The name isn't held.
    Absent,
    /// The file is found; its lines stand in place of the directive, if it has a number here.
    Found(Option<u32>),
}

/// Asks the files for a name that was not read before.
fn ask<F: Files>(
    alloc: Global,
    files: &mut F,
    unit: &mut Unit,
    at: Place,
    name: &str,
) -> Result<Looked, PrepError>
    requires { number_of name.now unit.old.held ≡ None }
    ensures { (onward : Process spec.Found) → Looks (F.shows files.old) (F.shows files.new) (process.asks name.now (spec.read_file at name.now unit.old onward)) onward result unit.old unit.new }
{
    let mut text = Vec::new(alloc);
    match files.read(alloc, name, &mut text) {
        Ok(()) => {
            let file = take(alloc, unit, at, name, text.as_slice())?;
            Ok(Looked::Found(Some(file)))
        }
        Err(ReadFault::Missing) => Ok(Looked::Absent),
        Err(ReadFault::TooLarge) => Err(unread(alloc, unit, name, ReadCause::TooLarge)),
        Err(ReadFault::Failed) => Err(unread(alloc, unit, name, ReadCause::Failed)),
        Err(ReadFault::NoMemory) => Err(PrepError::NoMemory),
    }
}

/// Looks for a file of this full name: among those that were read, and then among the files.
fn look_up<F: Files>(
    alloc: Global,
    files: &mut F,
    unit: &mut Unit,
    at: Place,
    full: &[u8],
) -> Result<Looked, PrepError>
    ensures { (onward : Process spec.Found) → Looks (F.shows files.old) (F.shows files.new) (spec.looked_up at full.now unit.old onward (number_of full.now unit.old.held)) onward result unit.old unit.new }
{
    if let Some(file) = unit.held.find(full) {
        return Ok(Looked::Found(again(unit, file)));
    }
    match str::from_utf8(full) {
        Ok(name) => ask(alloc, files, unit, at, name),
        Err(_) => Ok(Looked::Absent),
    }
}

/// The name of the file of that number.
fn name_of(unit: &Unit, file: u32) -> &[u8]
    ensures { result.now ≡ included.name_of (slice_get unit.now.log.names file) }
{
    match unit.log.file_name(file) {
        Some(name) => name.as_bytes(),
        None => &[],
    }
}

/// The full name of this rank, counted from 0, under which a file is looked for.
fn full_name(
    alloc: Global,
    options: &Options,
    unit: &Unit,
    file: u32,
    header: &HeaderName,
    rank: usize,
) -> Result<Option<Bytes>, NoMemory>
    ensures { IfOk result (λ found. found ≡ slice_get (included.all_candidates options.now.dirs file header.now unit.now) rank) }
{
    candidate(alloc, options, name_of(unit, file), header, rank)
}

/// Looks for the file under each of its full names.
fn find_held<F: Files>(
    alloc: Global,
    files: &mut F,
    options: &Options,
    unit: &mut Unit,
    file: u32,
    at: Place,
    header: &HeaderName,
) -> Result<Looked, PrepError>
    ensures { let fulls = included.all_candidates options.now.dirs file header.now unit.old in
        Looks (F.shows files.old) (F.shows files.new) (spec.searched at header.now.name fulls unit.old) (spec.built_in_header at header.now.name unit.old (number_of header.now.name unit.old.built_in)) result unit.old unit.new }
{
    for rank in 0..options.dir_count() + 1 {
        let Some(full) = full_name(alloc, options, unit, file, header, rank)? else {
            return Ok(Looked::Absent);
        };
        match look_up(alloc, files, unit, at, full.as_slice())? {
            Looked::Found(found) => return Ok(Looked::Found(found)),
            Looked::Absent => {}
        }
    }
    Ok(Looked::Absent)
}

/// Looks for the file that a directive in the file of this number names (ISO/IEC 9899:2024, 6.10.3),
/// and gives the number of the file whose lines stand in place of the directive, if any do.
pub fn find<F: Files>(
    alloc: Global,
    files: &mut F,
    options: &Options,
    unit: &mut Unit,
    file: u32,
    at: Place,
    header: &HeaderName,
) -> Result<Option<u32>, PrepError>
    ensures { Runs (F.shows files.old) (F.shows files.new) (spec.searched at header.now.name (included.all_candidates options.now.dirs file header.now unit.old) unit.old) result (λ found. (found, unit.new)) unit.new.log }
{
    match find_held(alloc, files, options, unit, file, at, header)? {
        Looked::Found(found) => Ok(found),
        Looked::Absent => find_built_in(alloc, unit, at, header.name.as_slice()),
    }
}
