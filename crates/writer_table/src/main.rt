//! Reads a table of C89 programs from its input and prints their texts, one behind another, as the writer writes them.
//!
//! `stdin` beside this crate has the programs, as trees in words (`words.rt` says how), and `stdout` what the layout
//! of the text makes of them, written by hand. Together the texts are one unit, which a C89 compiler reads.
#![tactic(auto)]

mod expressions;
mod faults;
mod initial_values;
mod programs;
mod statements;
mod types;
mod words;

use crate::faults::Fault;
use crate::words::Words;
use cake_base::Bytes;
use std::alloc::Global;
use std::io;
use std::io::{ErrorKind, Write};

/// The texts of the programs of a table.
fn texts(alloc: Global, table: &str) -> Result<Bytes, Fault> {
    let mut list = Vec::new(alloc);
    for word in table.split_whitespace() {
        list.push(word)?;
    }
    let mut words = Words::new(alloc, list.as_slice());
    let mut out = Bytes::new(alloc);
    words.push_texts(&mut out)?;
    Ok(out)
}

fn main(rt: HostRuntime) -> io::Result<()> {
    let table = io::read_to_string(rt.alloc(), rt.stdin())?;
    match texts(rt.alloc(), table.as_str()) {
        Ok(text) => rt.stdout().write_all(text.as_slice()),
        Err(Fault::Memory) => Err(io::Error::from(ErrorKind::OutOfMemory)),
        Err(Fault::Word) => Err(io::Error::from(ErrorKind::InvalidData)),
    }
}
