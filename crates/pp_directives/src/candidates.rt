//! The names under which a file to be included is looked for.
ghost use Rattle.std.specs.Prelude.{◌≡◌, slice_get, option_copied, IfOk};
ghost use Rattle.std.specs.Option.{option_map};
ghost use Rattle.model_preprocessing.specs.Includes as spec;

use crate::options::Options;
use cake_base::{Bytes, NoMemory};
use pp_lines::HeaderName;
use std::alloc::Global;

/// The directory of a file: what stands before the last `/` of its name.
fn directory(name: &[u8]) -> Option<&[u8]>
    ensures { option_copied result ≡ spec.directory name.now }
{
    let mut at = name.len();
    while at > 0 {
        at -= 1;
        if name[at] == b'/' {
            return Some(&name[..at]);
        }
    }
    None
}

/// A name in a directory.
fn within(alloc: Global, dir: &[u8], name: &[u8]) -> Result<Bytes, NoMemory>
    ensures { IfOk result (λ text. text ≡ spec.within dir.now name.now) }
{
    let mut text = Bytes::of(alloc, dir)?;
    text.push(b"/")?;
    text.push(name)?;
    Ok(text)
}

/// A name beside the file that includes it.
fn beside(alloc: Global, including: &[u8], name: &[u8]) -> Result<Bytes, NoMemory>
    ensures { IfOk result (λ text. text ≡ spec.beside (spec.directory including.now) name.now) }
{
    match directory(including) {
        Some(dir) => within(alloc, dir, name),
        None => Bytes::of(alloc, name),
    }
}

/// The name in the directory of this rank, if there is one.
fn in_directory(
    alloc: Global,
    options: &Options,
    name: &[u8],
    rank: usize,
) -> Result<Option<Bytes>, NoMemory>
    ensures { IfOk result (λ found. found ≡ option_map (λ dir. spec.within dir name.now) (slice_get options.now.dirs rank)) }
{
    match options.dir_name(rank) {
        Some(dir) => Ok(Some(within(alloc, dir.as_bytes(), name)?)),
        None => Ok(None),
    }
}

/// The full name of this rank, counted from 0, under which a file is looked for.
pub fn candidate(
    alloc: Global,
    options: &Options,
    including: &[u8],
    header: &HeaderName,
    rank: usize,
) -> Result<Option<Bytes>, NoMemory>
    ensures { IfOk result (λ found. found ≡ slice_get (spec.candidates including.now options.now.dirs header.now) rank) }
{
    let name = header.name.as_slice();
    if name.first() == Some(&b'/') {
        if rank > 0 {
            return Ok(None);
        }
        return Ok(Some(Bytes::of(alloc, name)?));
    }
    if !header.quoted {
        return in_directory(alloc, options, name, rank);
    }
    if rank == 0 {
        return Ok(Some(beside(alloc, including, name)?));
    }
    in_directory(alloc, options, name, rank - 1)
}
