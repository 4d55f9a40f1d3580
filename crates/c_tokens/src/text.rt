//! The preprocessing tokens of a text.
ghost use Rattle.std.specs.Prelude.{◌≡◌, ◌+◌, ◌-◌, ◌^◌, ◌<◌, ◌≤◌, [], ◌∷◌, ◌++◌, length, take, drop, IfOk, true, false};
ghost use Rattle.model_tokens.specs.JoinedLines.{bytes};
ghost use Rattle.model_tokens.specs.PpTokens as spec;
ghost use Rattle.c_tokens.specs.Answers.{Answers};

use crate::cursor::Cursor;
use crate::errors::TokenError;
use crate::lists::PpList;
use crate::pp_token::PpTok;
use crate::scan::skip;
use crate::steps::step_at;
use crate::unended::Unended;
use cake_base::{Bytes, Family, Fault, NoMemory, Place, Rule};
use model_tokens::steps::{Cell, LinePart, Step};
use std::alloc::Global;

/// Takes the text of `n` bytes.
fn take_text(alloc: Global, from: &mut Cursor, n: usize) -> Result<Bytes, NoMemory>
    ensures text { IfOk result (λ text. text ≡ take n (bytes from.old)) }
    ensures rest { IfOk result (λ _. from.new ≡ drop n from.old) }
{
    let mut text = Bytes::new(alloc);
    let mut left = n;
    while left > 0 {
        let run = from.take_run(left);
        text.push(run)?;
        left -= run.len();
        if left > 0 {
            match from.next() {
                Some(cell) => text.push(&[cell.byte])?,
                None => return Ok(text),
            }
            left -= 1;
        }
    }
    Ok(text)
}

fn begins_line(line: LinePart) -> bool
    ensures { result ≡ spec.begins_line line }
{
    match line {
        LinePart::Start => true,
        LinePart::Hash => false,
        LinePart::Include => false,
        LinePart::Rest => false,
    }
}

/// The part of the line after one more token.
fn line_after(line: LinePart, spelling: &[u8]) -> LinePart
    ensures { result ≡ spec.line_after line spelling.now }
{
    match line {
        LinePart::Start => {
            if spelling == b"#".as_slice() {
                LinePart::Hash
            } else {
                LinePart::Rest
            }
        }
        LinePart::Hash => {
            if spelling == b"include".as_slice() {
                LinePart::Include
            } else {
                LinePart::Rest
            }
        }
        LinePart::Include => LinePart::Rest,
        LinePart::Rest => LinePart::Rest,
    }
}

fn place_at(file: u32, cell: Cell, order: u32) -> Place
    ensures { result ≡ spec.place_at file cell order }
{
    Place {
        file,
        line: cell.line,
        column: cell.column,
        order,
    }
}

/// The preprocessing tokens of the text of a file, which has fewer than 4,294,967,295 bytes
/// (ISO/IEC 9899:2024, 5.1.1.2 phases 1 to 3 and 6.4).
///
/// `TokenError::Fault` comes exactly where a comment isn't ended: L01 at its first byte.
#[tactic(auto, using(crate::proofs::TextLaws::goes))]
pub fn pp_tokens(alloc: Global, text: &[u8], file: u32) -> Result<PpList, TokenError>
    requires { length text.now < 4294967295 }
    ensures { Answers result (spec.tokens_of file text.now) }
{
    let mut from = Cursor::new(text);
    let mut list = PpList::new(alloc);
    let mut line = LinePart::Start;
    let mut space = false;
    let mut unended = Unended::nothing();
    while let Some(cell) = from.again().next() {
        let place = place_at(file, cell, list.count() as u32);
        match step_at(line, &from, &mut unended) {
            Step::LineEnd => {
                skip(&mut from, 1);
                unended = unended.further(1);
                line = LinePart::Start;
                space = true;
            }
            Step::Blank(n) => {
                skip(&mut from, n);
                unended = unended.further(n);
                space = true;
            }
            Step::Token(kind, n) => {
                let spelling = take_text(alloc, &mut from, n)?;
                unended = unended.further(n);
                let next = line_after(line, spelling.as_slice());
                list.push(PpTok::new(kind, place, begins_line(line), space, spelling))?;
                line = next;
                space = false;
            }
            Step::OpenComment => {
                return Err(TokenError::Fault(Fault {
                    place,
                    rule: Rule {
                        family: Family::L,
                        number: 1,
                    },
                }));
            }
        }
    }
    Ok(list)
}
