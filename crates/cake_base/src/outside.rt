//! Files and sinks: what they hold, where that is told, and counts that never fall.
ghost use Rattle.std.specs.Prelude.{◌≤◌};
ghost use Rattle.cake_base.specs.Outside.{FilesView, SinkView, HasDistinctNames, ReadKeeps, ReadGives, PutGives};

use std::alloc::Global;

/// The greatest number of bytes that a read takes of one file.
pub const MAX_FILE: usize = 16_777_216;

/// Why a read was refused.
#[derive(Clone, Copy, Debug, PartialEq, Eq)]
pub enum ReadFault {
    /// The name isn't held.
    Missing,
    /// The outside failed.
    Failed,
    /// The file has more than `MAX_FILE` bytes.
    TooLarge,
    /// Memory was wanted and not found.
    NoMemory,
}

/// Why a put was refused.
#[derive(Clone, Copy, Debug, PartialEq, Eq)]
pub enum WriteFault {
    /// The outside failed.
    Failed,
}

/// Files by name. The name `-` is standard input.
pub trait Files {
    /// What the files show: what they hold and the number of their reads, each where that is told,
    /// and the counts of faults and of misses.
    ghost shows: { Self → FilesView };

    /// Appends the bytes of `name` to `into`, at most `MAX_FILE` of them.
    ///
    /// After a refusal `into` is as before. No read changes what the files hold.
    fn read(&mut self, alloc: Global, name: &str, into: &mut Vec<u8>) -> Result<(), ReadFault>
        ensures distinct { HasDistinctNames (shows self.new).held }
        ensures keeps { ReadKeeps (shows self.old) (shows self.new) }
        ensures gives { ReadGives (shows self.old) (shows self.new) name.now into.old.items into.new.items result };
}

/// A stream of bytes.
pub trait Sink {
    /// What the sink shows: its content, where that is told, and the count of faults.
    ghost shows: { Self → SinkView };

    /// Appends `bytes`. After a refusal a prefix of them stands there.
    fn put(&mut self, bytes: &[u8]) -> Result<(), WriteFault>
        ensures faults { (shows self.old).faults ≤ (shows self.new).faults }
        ensures gives { PutGives (shows self.old) (shows self.new) bytes.now result };
}
