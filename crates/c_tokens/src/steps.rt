//! What stands at the front of a text.
ghost use Rattle.std.specs.Prelude.{◌≡◌, ◌+◌, ◌^◌, ◌<◌, ◌≤◌, length, drop, slice_index, IfSome, false, true};
ghost use Rattle.model_tokens.specs.JoinedLines.{bytes};
ghost use Rattle.model_tokens.specs.PpSteps as spec;
ghost use Rattle.c_tokens.specs.Unended.{Knows, Moves};

use crate::cursor::Cursor;
use crate::literals::is_quote;
use crate::punctuators;
use crate::scan::{Class, comment_end, header_end, is_in, number_rest, peek, skip, span};
use crate::unended::{Unended, literal_length};
use model_tokens::steps::{LinePart, Step};
use model_tokens::tokens::PpKind;

/// The length of the prefix before a quote at the front, and the byte behind it.
fn opening(from: &Cursor) -> (usize, u8)
    ensures prefix { result.0 ≡ spec.prefix_length (bytes from.now) }
    ensures bound { result.0 ≤ 2 }
    ensures quote { slice_index (bytes from.now) result.0 ≡ result.1 }
{
    let (first, second, third) = peek(from);
    if (first == b'L' || first == b'u' || first == b'U') && is_quote(second) {
        (1, second)
    } else if first == b'u' && second == b'8' && is_quote(third) {
        (2, third)
    } else {
        (0, first)
    }
}

/// A name, a punctuator or another byte, where no literal stands.
fn plain_step(from: &Cursor) -> Step
    requires fits { length from.now < 2 ^ 32 }
    requires some { 0 < length from.now }
    ensures value { result ≡ spec.plain_step (bytes from.now) }
    ensures moves { Moves result }
{
    let (first, second, third) = peek(from);
    if is_in(Class::Word, first) {
        return Step::Token(PpKind::Name, span(Class::Word, from));
    }
    match punctuators::longest(first, second, third) {
        0 => Step::Token(PpKind::Other, 1),
        n => Step::Token(PpKind::Punct, n),
    }
}

/// A literal, or what else stands there.
fn literal_step(from: &Cursor, unended: &mut Unended) -> Step
    requires fits { length from.now < 2 ^ 32 }
    requires some { 0 < length from.now }
    requires knows { Knows unended.old (bytes from.now) }
    ensures value { result ≡ spec.literal_step (bytes from.now) (spec.literal_length (bytes from.now)) }
    ensures moves { Moves result }
    ensures knows { Knows unended.new (bytes from.now) }
{
    let (prefix, quote) = opening(from);
    match literal_length(from, prefix, quote, unended) {
        None => plain_step(from),
        Some(n) => {
            if quote == b'\'' {
                Step::Token(PpKind::Character, n)
            } else {
                Step::Token(PpKind::Text, n)
            }
        }
    }
}

/// Whether a header's name begins at this byte.
fn begins_header(line: LinePart, b: u8) -> bool
    ensures { result ≡ spec.begins_header line b }
{
    match line {
        LinePart::Start => false,
        LinePart::Hash => false,
        LinePart::Include => b == b'<',
        LinePart::Rest => false,
    }
}

/// The name of a header, or what else stands there.
fn header_step(from: &Cursor) -> Step
    requires fits { length from.now < 2 ^ 32 }
    requires some { 0 < length from.now }
    ensures value { result ≡ spec.header_step (spec.header_end (drop 1 (bytes from.now))) (bytes from.now) }
    ensures moves { Moves result }
{
    let mut rest = from.again();
    skip(&mut rest, 1);
    match header_end(&rest) {
        None => plain_step(from),
        Some(n) => Step::Token(PpKind::Header, n + 1),
    }
}

fn comment_step(from: &Cursor) -> Step
    requires { length from.now < 2 ^ 32 }
    ensures value { result ≡ spec.comment_step (spec.comment_end (drop 2 (bytes from.now))) }
    ensures moves { Moves result }
{
    let mut rest = from.again();
    skip(&mut rest, 2);
    match comment_end(&rest) {
        None => Step::OpenComment,
        Some(n) => Step::Blank(n + 2),
    }
}

/// What stands at the front of a text that isn't empty, in this part of its line.
#[tactic(auto, unfolding(model_tokens::specs::PpSteps::step_at))]
pub fn step_at(line: LinePart, from: &Cursor, unended: &mut Unended) -> Step
    requires fits { length from.now < 2 ^ 32 }
    requires some { 0 < length from.now }
    requires knows { Knows unended.old (bytes from.now) }
    ensures value { result ≡ spec.step_at line (bytes from.now) }
    ensures moves { Moves result }
    ensures knows { Knows unended.new (bytes from.now) }
{
    let (b, next, _) = peek(from);
    if b == b'\n' {
        Step::LineEnd
    } else if is_in(Class::Blank, b) {
        Step::Blank(span(Class::Blank, from))
    } else if b == b'/' && next == b'/' {
        Step::Blank(span(Class::Line, from))
    } else if b == b'/' && next == b'*' {
        comment_step(from)
    } else if b.is_ascii_digit() || (b == b'.' && next.is_ascii_digit()) {
        let mut rest = from.again();
        skip(&mut rest, 1);
        Step::Token(PpKind::Number, number_rest(b, &rest) + 1)
    } else if begins_header(line, b) {
        header_step(from)
    } else {
        literal_step(from, unended)
    }
}
