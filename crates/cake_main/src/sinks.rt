//! Streams of the system, which tell nothing of what they hold.
ghost use Rattle.std.specs.Prelude.{◌≡◌, ◌≤◌, None, OnOk};
ghost use Rattle.std.specs.Io.KnownBytes.{Appends};
ghost use Rattle.cake_base.specs.Outside.{PutGives};
ghost use Rattle.cake_main.specs.System.{untold};

use cake_base::{Sink, WriteFault};
use std::io::Write;

/// A stream of the system.
#[derive(Drop)]
pub struct RealSink<W> {
    stream: W,
    faults: u64,
}

impl<W> RealSink<W> {
    /// The count begins at 0.
    pub fn new(stream: W) -> RealSink<W>
        ensures { result.faults ≡ 0 }
    {
        RealSink { stream, faults: 0 }
    }
}

impl<W: Write> Sink for RealSink<W> {
    ghost shows = { λ s. untold s.faults };

    // Where the stream tells what it holds, all the bytes stand there after an Ok.
    fn put(&mut self, bytes: &[u8]) -> Result<(), WriteFault>
        ensures faults { self.old.faults ≤ self.new.faults }
        ensures gives { PutGives (untold self.old.faults) (untold self.new.faults) bytes.now result }
        ensures appends { OnOk result (Appends (W.contents self.old.stream) (W.contents self.new.stream) bytes.now) }
    {
        match self.stream.write_all(bytes) {
            Ok(()) => Ok(()),
            Err(_) => {
                self.faults = self.faults.saturating_add(1);
                Err(WriteFault::Failed)
            }
        }
    }
}
