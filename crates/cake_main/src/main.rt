//! The command over real files and streams.
#![tactic(auto)]

#[cfg(test)]
mod command_tests;
mod files;
mod sinks;
#[cfg(test)]
mod tests;

ghost use Rattle.std.specs.Prelude.{◌≡◌};
ghost use Rattle.std.specs.Process.{exit_status};
ghost use Rattle.cake_cli.specs.Codes.{code_of};

use crate::files::RealFiles;
use crate::sinks::RealSink;
use cake_cli::{Status, cake};
use std::env;
use std::io::ErrorKind;
use std::process::ExitCode;

/// The exit status of an answer.
fn exit_code(status: Status) -> ExitCode
    ensures { exit_status result ≡ code_of status }
{
    ExitCode::from(status.code())
}

/// Calls the command with the words after the program's name, and exits with its code.
fn main(rt: HostRuntime) -> ExitCode {
    let alloc = rt.alloc();
    let mut words = Vec::new(alloc);
    match env::args(&rt) {
        Ok(args) => {
            for (i, word) in args.enumerate() {
                if i > 0 && words.push(word).is_err() {
                    return exit_code(Status::NoMemory);
                }
            }
        }
        Err(error) => {
            if error.kind() == ErrorKind::OutOfMemory {
                return exit_code(Status::NoMemory);
            }
            let _ = eprintln!(rt; "cake: usage: a word is not UTF-8");
            return exit_code(Status::Usage);
        }
    }
    let mut files = RealFiles::new(&rt);
    let mut out = RealSink::new(rt.stdout());
    let mut err = RealSink::new(rt.stderr());
    let status = cake(alloc, &words, &mut files, &mut out, &mut err);
    exit_code(status)
}
