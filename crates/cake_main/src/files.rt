//! Files of the system, which tell nothing of what they hold.
ghost use Rattle.std.specs.Prelude.{◌≡◌, ◌+◌, ◌++◌, ◌≤◌, ◌<◌, length, None, IfSome, IfErr, OnOk, IsErrOf};
ghost use Rattle.std.specs.Io.{StartsWith};
ghost use Rattle.cake_base.specs.Outside.{max_file};
ghost use Rattle.cake_main.specs.System.{opening_fault};

use cake_base::{Files, MAX_FILE, ReadFault};
use std::alloc::Global;
use std::io::{ErrorKind, Read};
use std::{fs, rt};

/// The files of the system, by path; `-` is standard input.
#[derive(Drop)]
pub struct RealFiles<'r, R> {
    system: &'r R,
    faults: u64,
    misses: u64,
}

impl<'r, R> RealFiles<'r, R> {
    /// Counts begin at 0.
    pub fn new(system: &'r R) -> RealFiles<'r, R>
        ensures faults { result.faults ≡ 0 }
        ensures misses { result.misses ≡ 0 }
    {
        RealFiles {
            system,
            faults: 0,
            misses: 0,
        }
    }
}

/// Why a file that can't be opened isn't read: no file has the name, or the system failed.
fn opening_fault(kind: ErrorKind) -> ReadFault
    ensures { result ≡ opening_fault kind }
{
    match kind {
        ErrorKind::NotFound
        | ErrorKind::NotADirectory
        | ErrorKind::InvalidFilename
        | ErrorKind::InvalidInput => ReadFault::Missing,
        _ => ReadFault::Failed,
    }
}

// Appends all that is left, up to the greatest size.
fn read_rest<R: Read>(from: &mut R, into: &mut Vec<u8>) -> Result<(), ReadFault>
    ensures front { StartsWith into.new.items into.old.items }
    ensures size { OnOk result (length into.new.items ≤ length into.old.items + max_file) }
    ensures whole { OnOk result (IfSome (R.remaining from.old) (λ bytes. into.new.items ≡ into.old.items ++ bytes)) }
    ensures too_large { IsErrOf result ReadFault.TooLarge → IfSome (R.remaining from.old) (λ bytes. max_file < length bytes) }
    ensures present { IsErrOf result ReadFault.Missing → ⊥ }
{
    match from.take(MAX_FILE as u64 + 1).read_to_end(into) {
        Ok(count) => {
            if count > MAX_FILE {
                Err(ReadFault::TooLarge)
            } else {
                Ok(())
            }
        }
        Err(error) => {
            if error.kind() == ErrorKind::OutOfMemory {
                Err(ReadFault::NoMemory)
            } else {
                Err(ReadFault::Failed)
            }
        }
    }
}

// Appends what stands under the name; after a refusal some of it may be there.
fn fetch<R: rt::Files + Input>(system: &R, name: &str, into: &mut Vec<u8>) -> Result<(), ReadFault>
    ensures front { StartsWith into.new.items into.old.items }
    ensures size { OnOk result (length into.new.items ≤ length into.old.items + max_file) }
{
    if name == "-" {
        return read_rest(&mut system.reader(), into);
    }
    match fs::open(system, name) {
        Ok(file) => {
            let mut file = file;
            read_rest(&mut file, into)
        }
        Err(error) => Err(opening_fault(error.kind())),
    }
}

impl<R: rt::Files + Input> Files for RealFiles<'_, R> {
    ghost shows = { λ f. record { held = None; calls = None; faults = f.faults; misses = f.misses } };

    fn read(&mut self, _alloc: Global, name: &str, into: &mut Vec<u8>) -> Result<(), ReadFault> {
        let before = into.len();
        match fetch(self.system, name, into) {
            Ok(()) => Ok(()),
            Err(fault) => {
                into.truncate(before);
                match fault {
                    ReadFault::Missing => self.misses = self.misses.saturating_add(1),
                    ReadFault::Failed => self.faults = self.faults.saturating_add(1),
                    ReadFault::TooLarge | ReadFault::NoMemory => {}
                }
                Err(fault)
            }
        }
    }
}
