//! Files and a sink in memory, which fail where they are told to.
ghost use Rattle.std.specs.Prelude.{◌≡◌, [], ◌∷◌, ◌++◌, map, length, None, IfOk, OnOk, OnErr, IsTrue, ◌↔◌, if◌then◌else◌, ◌≤◌, IsErrOf, is_err};
ghost use Rattle.std.specs.Option.{option_copied};
ghost use Rattle.cake_base.specs.Outside.{bytes_under, HasDistinctNames, ReadKeeps, ReadGives, PutGives};
ghost use Rattle.cake_base.specs.Doubles.{files_view, sink_view, is_listed, listed_limit, read_fails, after_read, put_fails, after_put};

use crate::outside::{Files, MAX_FILE, ReadFault, Sink, WriteFault};
use crate::texts::{Bytes, FileName, NoMemory};
use std::alloc::Global;
use std::marker::Model;

#[derive(Drop)]
struct HeldFile {
    name: FileName,
    bytes: Bytes,
}

/// Files in memory, and the reads that are to fail. They tell what they hold.
#[derive(Drop)]
pub struct MemFiles {
    alloc: Global,
    held: Vec<HeldFile>,
    failing: Vec<u64>,
    calls: u64,
    faults: u64,
    misses: u64,
}

impl Model for MemFiles {
    ghost use Rattle.std.specs.Prelude.{map};
    ghost use Rattle.cake_base.specs.Outside.{AreDistinct};
    ghost use Rattle.cake_base.specs.Doubles.{MemFilesView};

    ghost Value = { MemFilesView };

    ghost view = { λ f. record { held = map (λ e. (e.name, e.bytes)) f.held.items; failing = f.failing.items; calls = f.calls; faults = f.faults; misses = f.misses } };

    ghost invariant = { λ f. AreDistinct (map (λ e. (e.name, e.bytes)) f.held.items) };
}

fn find<'a>(held: &'a [HeldFile], name: &str) -> Option<&'a [u8]>
    ensures { option_copied result ≡ bytes_under (map (λ e. (e.name, e.bytes)) held.now) name.now }
{
    for file in held {
        if file.name.as_str() == name {
            return Some(file.bytes.as_slice());
        }
    }
    None
}

fn has_number(numbers: &[u64], number: u64) -> bool
    ensures { result ≡ is_listed numbers.now number }
{
    for other in numbers {
        if *other == number {
            return true;
        }
    }
    false
}

fn limit_of(limits: &[(u64, usize)], number: u64) -> Option<usize>
    ensures { result ≡ listed_limit limits.now number }
{
    for (other, limit) in limits {
        if *other == number {
            return Some(*limit);
        }
    }
    None
}

impl MemFiles {
    /// Files that hold nothing, with all counts at 0.
    pub fn new(alloc: Global) -> MemFiles
        ensures { result ≡ record { held = []; failing = []; calls = 0; faults = 0; misses = 0 } }
    {
        MemFiles {
            alloc,
            held: Vec::new(alloc),
            failing: Vec::new(alloc),
            calls: 0,
            faults: 0,
            misses: 0,
        }
    }

    /// Adds a file; answers false, and changes nothing, where the name is held.
    pub fn add(&mut self, name: &str, bytes: &[u8]) -> Result<bool, NoMemory>
        ensures added { IfOk result (λ new. IsTrue new ↔ (bytes_under self.old.held name.now ≡ None)) }
        ensures ok { IfOk result (λ new. self.new ≡ (if new then record self.old { held = self.old.held ++ (name.now, bytes.now) ∷ [] } else self.old)) }
        ensures err { OnErr result (self.new ≡ self.old) }
    {
        if find(&self.held, name).is_some() {
            return Ok(false);
        }
        let name = FileName::new(self.alloc, name)?;
        let mut kept = Bytes::new(self.alloc);
        kept.push(bytes)?;
        self.held.push(HeldFile { name, bytes: kept })?;
        Ok(true)
    }

    /// Lets the read of this number fail; reads count from 1. Unchanged on refusal.
    pub fn fail_call(&mut self, number: u64) -> Result<(), NoMemory>
        ensures ok { OnOk result (self.new ≡ record self.old { failing = self.old.failing ++ number ∷ [] }) }
        ensures err { OnErr result (self.new ≡ self.old) }
    {
        self.failing.push(number)?;
        Ok(())
    }
}

impl Files for MemFiles {
    ghost shows = { files_view };

    fn read(&mut self, _alloc: Global, name: &str, into: &mut Vec<u8>) -> Result<(), ReadFault>
        ensures distinct { HasDistinctNames (files_view self.new).held }
        ensures keeps { ReadKeeps (files_view self.old) (files_view self.new) }
        ensures gives { ReadGives (files_view self.old) (files_view self.new) name.now into.old.items into.new.items result }

        // The reads that fail are those that are listed, and each count rises where it says.
        ensures failed { IsErrOf result ReadFault.Failed ↔ IsTrue (read_fails self.old) }
        ensures after { self.new ≡ after_read self.old name.now }
    {
        self.calls = self.calls.saturating_add(1);
        if has_number(&self.failing, self.calls) {
            self.faults = self.faults.saturating_add(1);
            return Err(ReadFault::Failed);
        }
        match find(&self.held, name) {
            None => {
                self.misses = self.misses.saturating_add(1);
                Err(ReadFault::Missing)
            }
            Some(bytes) => {
                if bytes.len() > MAX_FILE {
                    return Err(ReadFault::TooLarge);
                }
                match into.extend_from_slice(bytes) {
                    Ok(()) => Ok(()),
                    Err(_) => Err(ReadFault::NoMemory),
                }
            }
        }
    }
}

/// A sink in memory of fixed room, and the puts that are to fail. It tells its content.
#[derive(Drop)]
pub struct MemSink {
    bytes: Vec<u8>,
    room: usize,
    failing: Vec<(u64, usize)>,
    calls: u64,
    faults: u64,
}

impl Model for MemSink {
    ghost use Rattle.std.specs.Prelude.{◌≤◌, length, vec_capacity};
    ghost use Rattle.cake_base.specs.Doubles.{MemSinkView};

    ghost Value = { MemSinkView };

    ghost view = { λ s. record { bytes = s.bytes.items; room = s.room; failing = s.failing.items; calls = s.calls; faults = s.faults } };

    ghost invariant = { λ s. (length s.bytes.items ≤ s.room) × (s.room ≤ vec_capacity s.bytes) };
}

impl MemSink {
    /// An empty sink with room for `room` bytes, which are taken here.
    pub fn new(alloc: Global, room: usize) -> Result<MemSink, NoMemory>
        ensures { IfOk result (λ s. s ≡ record { bytes = []; room = room; failing = []; calls = 0; faults = 0 }) }
    {
        let bytes = Vec::with_capacity(alloc, room)?;
        Ok(MemSink {
            bytes,
            room,
            failing: Vec::new(alloc),
            calls: 0,
            faults: 0,
        })
    }

    /// Lets the put of this number fail after at most `taken` bytes; puts count from 1. Where a
    /// put is listed twice, the earlier entry holds. Unchanged on refusal.
    pub fn fail_call(&mut self, number: u64, taken: usize) -> Result<(), NoMemory>
        ensures ok { OnOk result (self.new ≡ record self.old { failing = self.old.failing ++ (number, taken) ∷ [] }) }
        ensures err { OnErr result (self.new ≡ self.old) }
    {
        self.failing.push((number, taken))?;
        Ok(())
    }

    /// What was put.
    pub fn bytes(&self) -> &[u8]
        ensures { result.now ≡ self.now.bytes }
    {
        self.bytes.as_slice()
    }
}

impl Sink for MemSink {
    ghost shows = { sink_view };

    fn put(&mut self, bytes: &[u8]) -> Result<(), WriteFault>
        ensures faults { self.old.faults ≤ self.new.faults }
        ensures gives { PutGives (sink_view self.old) (sink_view self.new) bytes.now result }

        // The puts that fail are those that are listed or don't fit, and the count rises there.
        ensures fails { is_err result ≡ put_fails self.old (length bytes.now) }
        ensures after { self.new ≡ after_put self.old bytes.now }
    {
        self.calls = self.calls.saturating_add(1);
        let fits = bytes.len().min(self.room - self.bytes.len());
        let limit = limit_of(&self.failing, self.calls);
        let takes = match limit {
            Some(limit) => fits.min(limit),
            None => fits,
        };
        self.bytes.extend_from_slice(&bytes[..takes]).unwrap();
        if limit.is_some() || takes < bytes.len() {
            self.faults = self.faults.saturating_add(1);
            return Err(WriteFault::Failed);
        }
        Ok(())
    }
}
