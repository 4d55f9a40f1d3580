//! Files that are taken.
ghost use Rattle.std.specs.Prelude.{◌≡◌, ◌<◌, ◌≤◌, length, slice_get, Some, None, IfOk};
ghost use Rattle.model_preprocessing.specs.FileSearch as spec;
ghost use Rattle.model_preprocessing.specs.Sources.{number_of};
ghost use Rattle.model_preprocessing.specs.Sources as sources;
ghost use Rattle.model_preprocessing.specs.Processes as process;
ghost use Rattle.model_preprocessing.specs.Headers.{built_in_text};
ghost use Rattle.pp_directives.specs.Outcomes.{Does};
ghost use Rattle.pp_directives.specs.Looks.{Unread, LimitIs, HasRoom};

use crate::control::fault;
use crate::errors::PrepError;
use crate::rules::{NO_SUCH_FILE, TOO_MANY_BYTES, TOO_MANY_FILES};
use crate::unit::Unit;
use cake_base::{Limit, LimitHit, NoMemory, Place};
use model_preprocessing::directives::ReadCause;
use pp_lines::built_in;
use std::alloc::Global;

/// The most files that are read.
const MOST_FILES: usize = 1024;

/// The most bytes of all files that are read.
const MOST_BYTES: u64 = 67_108_864;

/// The limit of that number, passed at a place.
pub fn limit(place: Place, number: u32) -> PrepError
    ensures { LimitIs place number result }
{
    PrepError::Limit(LimitHit {
        place,
        limit: Limit { number },
    })
}

/// The file whose lines a file that was taken before gives: none after `#pragma once`.
pub fn again(unit: &Unit, file: u32) -> Option<u32>
    ensures { spec.again file unit.now ≡ process.gives (result, unit.now) }
{
    match unit.sources.once(file) {
        Some(false) => Some(file),
        Some(true) => None,
        None => None,
    }
}

/// The bytes of all files with another one of that size, where it may be read.
fn check_room(unit: &Unit, at: Place, size: usize) -> Result<u64, PrepError>
    ensures { HasRoom unit.now at size result }
{
    if unit.held.count() >= MOST_FILES {
        return Err(limit(at, TOO_MANY_FILES));
    }
    let total = unit.bytes.saturating_add(size as u64);
    if total > MOST_BYTES {
        return Err(limit(at, TOO_MANY_BYTES));
    }
    Ok(total)
}

/// Takes a file of this text that was not read before (ISO/IEC 9899:2024, 6.10.3).
///
/// The limits are M02 and then M01, at the place of the directive's `#`.
pub fn take(
    alloc: Global,
    unit: &mut Unit,
    at: Place,
    name: &str,
    text: &[u8],
) -> Result<u32, PrepError>
    requires new { number_of name.now unit.old.held ≡ None }
    requires short { length text.now ≤ 16777216 }
    ensures { Does (spec.taken at name.now text.now unit.old) result (λ file. (Some file, unit.new)) unit.new.log }
{
    let file = unit.name_next(alloc, name)?;
    let total = check_room(unit, at, text.len())?;
    unit.held.add(alloc, name.as_bytes(), file)?;
    unit.sources.add(alloc, file, text)?;
    unit.bytes = total;
    Ok(file)
}

/// Takes the built-in header of that name, or answers P10.
fn take_built_in(alloc: Global, unit: &mut Unit, at: Place, name: &[u8]) -> Result<u32, PrepError>
    requires { number_of name.now unit.old.built_in ≡ None }
    ensures { Does (spec.new_built_in at name.now unit.old (built_in_text name.now)) result (λ file. (Some file, unit.new)) unit.new.log }
{
    let Some(header) = built_in(name) else {
        return Err(fault(at, NO_SUCH_FILE));
    };
    let file = unit.name_next(alloc, header.shown)?;
    unit.built_in.add(alloc, name, file)?;
    unit.sources.add(alloc, file, header.text)?;
    Ok(file)
}

/// Looks for a built-in header of that name, which comes last.
pub fn find_built_in(
    alloc: Global,
    unit: &mut Unit,
    at: Place,
    name: &[u8],
) -> Result<Option<u32>, PrepError>
    ensures { Does (spec.built_in_header at name.now unit.old (number_of name.now unit.old.built_in)) result (λ file. (file, unit.new)) unit.new.log }
{
    match unit.built_in.find(name) {
        Some(file) => Ok(again(unit, file)),
        None => {
            let file = take_built_in(alloc, unit, at, name)?;
            Ok(Some(file))
        }
    }
}

/// A file of that name isn't read, for that cause; it gets the next number.
pub fn unread(alloc: Global, unit: &mut Unit, name: &str, cause: ReadCause) -> PrepError
    ensures { Unread unit.old name.now cause result unit.new }
{
    match unit.name_next(alloc, name) {
        Ok(file) => PrepError::Read(file, cause),
        Err(NoMemory) => PrepError::NoMemory,
    }
}
