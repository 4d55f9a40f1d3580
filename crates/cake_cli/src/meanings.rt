//! What a word of the command says.
ghost use Rattle.std.specs.Prelude.{◌≡◌, ◌+◌, ◌∷◌, ◌<◌, ◌≤◌, ◌==◌, take, drop, length, codes, if◌then◌else◌, option_copied};
ghost use Rattle.cake_cli.specs.Words as words;
ghost use Rattle.cake_cli.specs.WordsRead.{behind_byte, value_behind, expected_of, meaning_of, met_of, IsStep};

use crate::modes::Mode;
use c_tokens::is_identifier;

/// What the next word is read as.
#[derive(Clone, Copy, Debug)]
pub enum Expected {
    AnyWord,
    /// The text of a `-D`.
    Definition,
    /// The text of an `-I`.
    Directory,
}

/// What a word says.
#[derive(Clone, Copy, Debug)]
pub enum Meaning<'w> {
    Asks(Mode),
    /// A name and its value.
    Defines(&'w [u8], &'w [u8]),
    Searches(&'w str),
    Names(&'w str),
    Expects(Expected),
    EndsOptions,
    Nothing,
}

/// What the words before say of the next one.
#[derive(Clone, Copy, Debug)]
pub struct Met<'w> {
    pub expected: Expected,
    pub options_ended: bool,
    pub mode: Option<Mode>,
    pub file: Option<&'w str>,
    /// How many bytes all further words may have.
    pub room: usize,
}

/// What follows a byte that the text begins with.

fn behind_letter(text: &str, letter: char) -> Option<&str>
    requires { letter < 128 }
    ensures { option_copied result ≡ behind_byte letter text.now }
{
    text.strip_prefix(letter)
}

fn has_line_feed(text: &[u8]) -> bool
    ensures { result ≡ words.has_line_feed text.now }
{
    for byte in text {
        if *byte == b'\n' {
            return true;
        }
    }
    false
}

/// The number of bytes before the first `=`.
fn name_length(text: &[u8]) -> usize
    ensures within { result ≤ length text.now }
    ensures name { words.defined_name text.now ≡ take result text.now }
    ensures value { words.defined_value text.now ≡ value_behind (drop result text.now) }
{
    for (i, byte) in text.iter().enumerate() {
        if *byte == b'=' {
            return i;
        }
    }
    text.len()
}

/// A name, and the value behind its first `=`, or 1 where there is none.
fn definition(text: &[u8]) -> Meaning<'_>
    ensures { meaning_of result ≡ words.definition text.now }
{
    let (name, rest) = text.split_at(name_length(text));
    let value = match rest {
        [] => b"1".as_slice(),
        [_, value @ ..] => value,
    };
    if is_identifier(name) && !has_line_feed(value) {
        Meaning::Defines(name, value)
    } else {
        Meaning::Nothing
    }
}

fn directory(text: &str) -> Meaning<'_>
    ensures { meaning_of result ≡ words.directory text.now }
{
    if text.is_empty() {
        Meaning::Nothing
    } else {
        Meaning::Searches(text)
    }
}

fn behind_define(text: &str) -> Meaning<'_>
    ensures { meaning_of result ≡ words.behind_define text.now }
{
    if text.is_empty() {
        Meaning::Expects(Expected::Definition)
    } else {
        definition(text.as_bytes())
    }
}

fn behind_search(text: &str) -> Meaning<'_>
    ensures { meaning_of result ≡ words.behind_search text.now }
{
    if text.is_empty() {
        Meaning::Expects(Expected::Directory)
    } else {
        directory(text)
    }
}

fn long_option(text: &[u8]) -> Meaning<'static>
    ensures { meaning_of result ≡ words.long_option text.now }
{
    if text == b"E".as_slice() {
        Meaning::Asks(Mode::Expand)
    } else if text == b"-check".as_slice() {
        Meaning::Asks(Mode::Check)
    } else if text == b"-".as_slice() {
        Meaning::EndsOptions
    } else {
        Meaning::Nothing
    }
}

/// What the word says whose bytes behind a `-` these are.
fn behind_dash<'w>(word: &'w str, rest: &'w str) -> Meaning<'w>
    requires { word.now ≡ 45 ∷ rest.now }
    ensures { meaning_of result ≡ words.behind_dash rest.now }
{
    if rest.is_empty() {
        return Meaning::Names(word);
    }
    if let Some(text) = behind_letter(rest, 'D') {
        return behind_define(text);
    }
    if let Some(text) = behind_letter(rest, 'I') {
        return behind_search(text);
    }
    long_option(rest.as_bytes())
}

/// What a word says where options may stand.
fn any_word(word: &str) -> Meaning<'_>
    ensures { meaning_of result ≡ words.any_word word.now }
{
    match behind_letter(word, '-') {
        None => Meaning::Names(word),
        Some(rest) => behind_dash(word, rest),
    }
}

impl<'w> Met<'w> {
    /// Nothing is met before the first word.
    pub fn nothing() -> Met<'w>
        ensures { met_of result ≡ words.nothing_met }
    {
        Met {
            expected: Expected::AnyWord,
            options_ended: false,
            mode: None,
            file: None,
            room: 16_777_216,
        }
    }

    fn meaning(&self, word: &'w str) -> Meaning<'w>
        ensures { meaning_of result ≡ words.meaning (met_of self.now) word.now }
    {
        match self.expected {
            Expected::Definition => definition(word.as_bytes()),
            Expected::Directory => directory(word),
            Expected::AnyWord => {
                if self.options_ended {
                    Meaning::Names(word)
                } else {
                    any_word(word)
                }
            }
        }
    }

    fn may_stand(&self, meaning: Meaning<'w>) -> bool
        ensures { result ≡ words.may_stand (met_of self.now) (meaning_of meaning.entry) }
    {
        match meaning {
            Meaning::Asks(_) => self.mode.is_none(),
            Meaning::Names(_) => self.file.is_none(),
            Meaning::Nothing => false,
            Meaning::Defines(_, _) => true,
            Meaning::Searches(_) => true,
            Meaning::Expects(_) => true,
            Meaning::EndsOptions => true,
        }
    }

    fn said(self, meaning: Meaning<'w>) -> Met<'w>
        ensures { met_of result ≡ words.said (meaning_of meaning.entry) (met_of self.entry) }
    {
        match meaning {
            Meaning::Asks(mode) => Met {
                mode: Some(mode),
                ..self
            },
            Meaning::Names(file) => Met {
                file: Some(file),
                ..self
            },
            Meaning::Expects(next) => Met {
                expected: next,
                ..self
            },
            Meaning::EndsOptions => Met {
                options_ended: true,
                ..self
            },
            Meaning::Defines(_, _) => self,
            Meaning::Searches(_) => self,
            Meaning::Nothing => self,
        }
    }

    /// What one more word says, or none where it is bad; behind a good one that is met.
    pub fn step(&mut self, word: &'w str) -> Option<Meaning<'w>>
        ensures { IsStep (met_of self.old) word.now result (met_of self.new) }
    {
        if word.len() > self.room {
            return None;
        }
        let meaning = self.meaning(word);
        if !self.may_stand(meaning) {
            return None;
        }
        let behind = Met {
            expected: Expected::AnyWord,
            room: self.room - word.len(),
            ..*self
        };
        *self = behind.said(meaning);
        Some(meaning)
    }

    /// The file that was named, where no `-D` or `-I` wants a word.
    pub fn named(self) -> Option<&'w str>
        ensures { option_copied result ≡ words.named (expected_of self.entry.expected) (option_copied self.entry.file) }
    {
        match self.expected {
            Expected::AnyWord => self.file,
            Expected::Definition => None,
            Expected::Directory => None,
        }
    }
}
