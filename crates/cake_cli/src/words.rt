//! The words of the command.
ghost use Rattle.std.specs.Prelude.{◌≡◌, ◌<◌, map, length, string_bytes, IfOk, IfErr, OnOk, IsOk, Err};
ghost use Rattle.model_preprocessing.specs.PreprocessedUnit.{command_lines};
ghost use Rattle.cake_cli.specs.Words.{plan};
ghost use Rattle.cake_cli.specs.ReportLines.{usage_line};
ghost use Rattle.cake_cli.specs.WordsRead.{meaning_of, with_meaning, Answers, IsMemory};

use crate::meanings::{Meaning, Met};
use crate::modes::Mode;
use arrayvec::ArrayString;
use cake_base::{FileName, NoMemory};
use itoa::Buffer;
use pp_directives::Options;
use std::alloc::Global;
use thiserror::Error;

/// What the words ask for.
#[derive(Drop)]
pub struct Plan {
    pub mode: Mode,
    pub file: Option<FileName>,
    pub options: Options,
}

/// Why the words aren't read.
#[derive(Debug, Drop, Error)]
pub enum WordsError {
    /// The word of this number is bad; words count from 1, and a missing word has the number after
    /// the last.
    #[error("Bad")]
    Bad(usize),
    #[error("NoMemory")]
    NoMemory,
}

impl From<NoMemory> for WordsError {
    ghost use Rattle.std.specs.Prelude.{◌≡◌};
    ghost use Rattle.cake_cli.specs.declared.words.WordsError.TheVariants as words_error;

    ghost from_gives = { λ _ e. e ≡ words_error.NoMemory };

    fn from(_: NoMemory) -> WordsError {
        WordsError::NoMemory
    }
}

/// Tests all words, and takes no memory.
fn test_words(words: &[String]) -> Result<(), usize>
    ensures ok { OnOk result (IsOk (plan (map string_bytes words.now))) }
    ensures bad { IfErr result (λ number. plan (map string_bytes words.now) ≡ Err number) }
{
    let mut met = Met::nothing();
    for (i, word) in words.iter().enumerate() {
        match met.step(word.as_str()) {
            None => return Err(i + 1),
            Some(_) => {}
        }
    }
    match met.named() {
        None => Err(words.len() + 1),
        Some(_) => Ok(()),
    }
}

/// Adds what a word says to the options.
fn add(options: &mut Options, meaning: Meaning) -> Result<(), NoMemory>
    ensures { OnOk result (options.new ≡ with_meaning (meaning_of meaning.entry) options.old) }
{
    match meaning {
        Meaning::Defines(name, value) => options.define(name, value),
        Meaning::Searches(directory) => options.dir(directory),
        Meaning::Asks(_) => Ok(()),
        Meaning::Names(_) => Ok(()),
        Meaning::Expects(_) => Ok(()),
        Meaning::EndsOptions => Ok(()),
        Meaning::Nothing => Ok(()),
    }
}

/// Takes what the words say.
fn take_words(alloc: Global, words: &[String]) -> Result<Plan, WordsError>
    ensures { Answers result (plan (map string_bytes words.now)) }
{
    let mut options = Options::new(alloc);
    let mut met = Met::nothing();
    for (i, word) in words.iter().enumerate() {
        match met.step(word.as_str()) {
            None => {
                drop(options);
                return Err(WordsError::Bad(i + 1));
            }
            Some(meaning) => add(&mut options, meaning)?,
        }
    }
    match met.named() {
        None => {
            drop(options);
            Err(WordsError::Bad(words.len() + 1))
        }
        Some(file) => Ok(Plan {
            mode: met.mode.unwrap_or(Mode::Translate),
            file: Some(FileName::new(alloc, file)?),
            options,
        }),
    }
}

/// Reads the words of the command after its name.
///
/// Words are tested before any memory is taken: `WordsError::Bad`, with the number of the first bad
/// word, comes exactly where they have no reading.
pub fn read_words(alloc: Global, words: &[String]) -> Result<Plan, WordsError>
    ensures answer { Answers result (plan (map string_bytes words.now)) }
    ensures memory { IfErr result (λ e. IsMemory e → IsOk (plan (map string_bytes words.now))) }
    ensures lines { IfOk result (λ p. length (command_lines p.options.defines) < 4294967295) }
{
    match test_words(words) {
        Ok(()) => take_words(alloc, words),
        Err(number) => Err(WordsError::Bad(number)),
    }
}

/// The line on a bad word, which takes no memory.
pub fn usage_line(number: usize) -> ArrayString<40>
    ensures { result.bytes ≡ usage_line number }
{
    let mut digits = Buffer::new();
    let mut line = ArrayString::new();
    line.push_str("cake: usage: word ");
    line.push_str(digits.format(number));
    line.push_str("\n");
    line
}
