//! A reader over a text, which drops carriage returns and joins lines as it goes.
ghost use Rattle.std.specs.Prelude.{◌≡◌, ◌+◌, ◌^◌, ◌<◌, ◌≤◌, [], ◌∷◌, ◌++◌, length, take, drop, MatchOption, true, false, ℕ};
ghost use Rattle.model_tokens.specs.JoinedLines as spec;
ghost use Rattle.c_tokens.specs.Runs as runs;

use model_tokens::steps::Cell;
use std::marker::Model;

/// What is left to read of a text (ISO/IEC 9899:2024, 5.1.1.2 phases 1 and 2). Contracts see the
/// bytes that are still to come, each with its place.
#[derive(Drop)]
pub struct Cursor<'a> {
    rest: &'a [u8],
    line: u32,
    column: u32,
}

impl<'a> Model for Cursor<'a> {
    ghost use Rattle.std.specs.Prelude.{List, ◌+◌, ◌^◌, ◌<◌, length};
    ghost use Rattle.model_tokens.specs.declared.steps.Cell.{Cell};
    ghost use Rattle.model_tokens.specs.JoinedLines.{cells_from};

    ghost Value = { List Cell };

    ghost view = { λ c. cells_from c.line c.column c.rest.now };

    ghost invariant = { λ c. (c.line + length c.rest.now < 2 ^ 32) × (c.column + length c.rest.now < 2 ^ 32) };
}

impl<'a> Cursor<'a> {
    /// A reader of the whole text of a file.
    pub fn new(text: &'a [u8]) -> Self
        requires { length text.now + 1 < 2 ^ 32 }
        ensures { result ≡ spec.cells_from 1 1 text.now }
    {
        Cursor {
            rest: text,
            line: 1,
            column: 1,
        }
    }

    /// Another reader of the same rest.
    pub fn again(&self) -> Self
        ensures { result ≡ self.now }
    {
        Cursor {
            rest: self.rest,
            line: self.line,
            column: self.column,
        }
    }

    /// Takes the next byte.
    pub fn next(&mut self) -> Option<Cell>
        ensures { MatchOption result ((self.old ≡ []) × (self.new ≡ [])) (λ c. self.old ≡ c ∷ self.new) }
    {
        let (first, rest, line, column) = next_of(self.rest, self.line, self.column);
        self.rest = rest;
        self.line = line;
        self.column = column;
        first
    }

    /// Takes bytes that stand side by side in the text, at most `limit` of them, and perhaps none.
    pub fn take_run(&mut self, limit: usize) -> &'a [u8]
        ensures run { spec.bytes self.old ≡ result.now ++ spec.bytes self.new }
        ensures rest { self.new ≡ drop (length result.now) self.old }
        ensures bound { length result.now ≤ limit }
    {
        let n = plain_length(self.rest, limit);
        let (run, rest) = self.rest.split_at(n);
        self.rest = rest;
        self.column += n as u32;
        run
    }
}

fn is_plain(b: u8) -> bool
    ensures { result ≡ runs.is_plain b }
{
    !matches!(b, b'\n' | b'\r' | b'\\')
}

/// The number of bytes in front, at most `limit`, that no line end and no joining changes.
fn plain_length(text: &[u8], limit: usize) -> usize
    ensures plain { runs.all_plain (take result text.now) ≡ true }
    ensures bound { result ≤ limit }
    ensures within { result ≤ length text.now }
{
    let mut n = 0;
    for b in text {
        if n == limit || !is_plain(*b) {
            return n;
        }
        n += 1;
    }
    n
}

/// Whether a line ends here: at a line feed or the end of the text.
fn ends_line(text: &[u8]) -> bool
    ensures { result ≡ spec.ends_line text.now }
{
    match text {
        [] => true,
        [b, ..] => *b == b'\n',
    }
}

fn next_of(mut text: &[u8], mut line: u32, mut column: u32) -> (Option<Cell>, &[u8], u32, u32)
    requires line_fits { line + length text.now < 2 ^ 32 }
    requires column_fits { column + length text.now < 2 ^ 32 }
    ensures cell { MatchOption result.0 ((spec.cells_from line column text.entry.now ≡ []) × (spec.cells_from result.2 result.3 result.1.now ≡ []))
        (λ c. spec.cells_from line column text.entry.now ≡ c ∷ spec.cells_from result.2 result.3 result.1.now) }
    ensures line_fits { result.2 + length result.1.now < 2 ^ 32 }
    ensures column_fits { result.3 + length result.1.now < 2 ^ 32 }
{
    while let [b, rest @ ..] = text {
        if *b == b'\r' && ends_line(rest) {
            text = rest;
            column += 1;
        } else if *b == b'\\'
            && let Some(after) = line_end(rest)
        {
            text = after;
            line += 1;
            column = 1;
        } else {
            let cell = Cell {
                byte: *b,
                line,
                column,
            };
            if *b == b'\n' {
                return (Some(cell), rest, line + 1, 1);
            }
            return (Some(cell), rest, line, column + 1);
        }
    }
    (None, text, line, column)
}

/// What follows the end of the line, where the line ends here.
fn line_end(text: &[u8]) -> Option<&[u8]>
    ensures within { MatchOption result (Unit {0}) (λ r. length r.now ≤ length text.now) }
    ensures value { (line column : ℕ) → MatchOption result (spec.ends_line (spec.bytes (spec.without_returns (spec.placed line column text.now))) ≡ false)
        (λ r. (spec.ends_line (spec.bytes (spec.without_returns (spec.placed line column text.now))) ≡ true)
        × (spec.joined_from true (spec.without_returns (spec.placed line column text.now)) ≡ spec.cells_from (line + 1) 1 r.now)) }
{
    match text {
        [] => Some(text),
        [b'\n', rest @ ..] => Some(rest),
        [b'\r'] => Some(&text[1..]),
        [b'\r', b'\n', rest @ ..] => Some(rest),
        _ => None,
    }
}
