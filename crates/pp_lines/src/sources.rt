//! The files that are translated, by their numbers.
ghost use Rattle.std.specs.Prelude.{◌≡◌, ◌∷◌, ◌++◌, ◌<◌, [], List, false, length, slice_get, Ok, Err, IfOk, OnOk, MatchOption};
ghost use Rattle.std.specs.Option.{option_map};
ghost use Rattle.model_tokens.specs.PpTokens.{tokens_of};
ghost use Rattle.model_preprocessing.specs.Directives as directives;
ghost use Rattle.model_preprocessing.specs.Sources as spec;

use crate::parts::{Part, split};
use c_tokens::{TokenError, pp_tokens};
use cake_base::{Fault, NoMemory};
use std::alloc::Global;
use std::marker::Model;
use std::rc::Rc;

/// The lines of a file, or L01 at its first comment that isn't ended.
#[derive(Drop)]
pub struct Lines {
    parts: Vec<Part>,
    fault: Option<Fault>,
}

impl Model for Lines {
    ghost use Rattle.std.specs.Prelude.{List, Result};
    ghost use Rattle.cake_base.specs.declared.rules.Fault.{Fault};
    ghost use Rattle.model_preprocessing.specs.Directives.{Part};
    ghost use Rattle.pp_lines.specs.Views.{lines_view};

    ghost Value = { Result (List Part) Fault };

    ghost view = { λ l. lines_view l.parts.items l.fault };
}

impl Lines {
    /// The lines of the text of the file of that number, which has fewer than 4,294,967,295 bytes.
    pub fn read(alloc: Global, text: &[u8], file: u32) -> Result<Lines, NoMemory>
        requires { length text.now < 4294967295 }
        ensures { IfOk result (λ lines. lines ≡ spec.source_lines (tokens_of file text.now)) }
    {
        match pp_tokens(alloc, text, file) {
            Ok(toks) => Ok(Lines {
                parts: split(alloc, &toks)?,
                fault: None,
            }),
            Err(TokenError::Fault(fault)) => Ok(Lines {
                parts: Vec::new(alloc),
                fault: Some(fault),
            }),
            Err(TokenError::NoMemory) => Err(NoMemory),
        }
    }

    /// The fault, if the file has one.
    pub fn fault(&self) -> Option<Fault>
        ensures { MatchOption result ((parts : List directives.Part) × (self.now ≡ Ok parts)) (λ fault. self.now ≡ Err fault) }
    {
        self.fault
    }

    /// The lines, of a file without a fault.
    pub fn parts(&self) -> &[Part]
        ensures { (parts : List directives.Part) → self.now ≡ Ok parts → result.now ≡ parts }
    {
        self.parts.as_slice()
    }
}

/// A file: its lines, and whether `#pragma once` was met in it.
#[derive(Drop)]
struct Source {
    lines: Rc<Lines>,
    once: bool,
}

impl Model for Source {
    ghost use Rattle.model_preprocessing.specs.Sources as spec;

    ghost Value = { spec.Source };

    ghost view = { λ s. record { lines = s.lines.value; once = s.once } };
}

/// Files by their numbers. Contracts see their list.
#[derive(Drop)]
pub struct Sources {
    files: Vec<Source>,
}

impl Model for Sources {
    ghost use Rattle.std.specs.Prelude.{List};
    ghost use Rattle.model_preprocessing.specs.Sources as spec;

    ghost Value = { List spec.Source };

    ghost view = { λ s. s.files.items };
}

impl Sources {
    /// No file.
    pub fn new(alloc: Global) -> Sources
        ensures { result ≡ [] }
    {
        Sources {
            files: Vec::new(alloc),
        }
    }

    /// Adds a file of this text, which has fewer than 4,294,967,295 bytes, with the next number.
    pub fn add(&mut self, alloc: Global, file: u32, text: &[u8]) -> Result<(), NoMemory>
        requires { length text.now < 4294967295 }
        ensures { OnOk result (self.new ≡ self.old ++ spec.source file text.now ∷ []) }
    {
        let lines = Lines::read(alloc, text, file)?;
        let shared = Rc::new(alloc, lines)?;
        self.files.push(Source {
            lines: shared,
            once: false,
        })?;
        Ok(())
    }

    /// The lines of the file of that number, if there is one.
    pub fn lines(&self, file: u32) -> Result<Option<Rc<Lines>>, NoMemory>
        ensures { IfOk result (λ found. option_map (λ rc. rc.value) found ≡ option_map (λ s. s.lines) (slice_get self.now file)) }
    {
        match self.files.get(file as usize) {
            Some(source) => Ok(Some(source.lines.clone()?)),
            None => Ok(None),
        }
    }

    /// Whether `#pragma once` was met in the file of that number, if there is one.
    pub fn once(&self, file: u32) -> Option<bool>
        ensures { result ≡ option_map (λ s. s.once) (slice_get self.now file) }
    {
        match self.files.get(file as usize) {
            Some(source) => Some(source.once),
            None => None,
        }
    }

    /// `#pragma once` was met in the file of that number.
    pub fn mark_once(&mut self, file: u32)
        ensures { self.new ≡ spec.marked_once file self.old }
    {
        let at = file as usize;
        if at < self.files.len() {
            self.files[at].once = true;
        }
    }
}
