//! Tokens that `#`, `##`, `__FILE__` and `__LINE__` make.
ghost use Rattle.std.specs.Prelude.{◌≡◌, ◌++◌, [], ◌∷◌, ◌<◌, length, decimal, if◌then◌else◌, IfOk, OnOk, Some, None};
ghost use Rattle.std.specs.List.{flat_map};
ghost use Rattle.model_macros.specs.MacroArguments.{is_nil};
ghost use Rattle.model_types.specs.Texts as texts;
ghost use Rattle.model_macros.specs.Pasting as spec;

use crate::hides::Painted;
use c_tokens::{PpKind, PpList, PpTok, TokenError, pp_tokens};
use cake_base::{Bytes, NoMemory};
use itoa::Buffer;
use pp_definitions::{Row, Stack};
use std::alloc::Global;

/// The kind of the one token that the text is, if it is one token.
fn single(alloc: Global, text: &[u8]) -> Result<Option<PpKind>, NoMemory>
    ensures { IfOk result (λ kind. kind ≡ spec.single text.now) }
{
    if text.len() >= 4_294_967_295 {
        return Err(NoMemory);
    }
    match pp_tokens(alloc, text, 0) {
        Err(TokenError::NoMemory) => Err(NoMemory),
        Err(TokenError::Fault(_)) => Ok(None),
        Ok(list) => Ok(alone(&list, text)),
    }
}

/// The kind of the only token, if it is spelled like that.
fn alone(list: &PpList, text: &[u8]) -> Option<PpKind>
    ensures { result ≡ spec.alone text.now (Ok list.now) }
{
    if list.count() != 1 {
        return None;
    }
    match list.get(0) {
        Some(tok) => kind_of(tok, text),
        None => None,
    }
}

/// The kind of the token, if it is spelled like that.
fn kind_of(tok: &PpTok, text: &[u8]) -> Option<PpKind>
    ensures { result ≡ (if texts.same_text tok.now.spelling text.now then Some tok.now.kind else None) }
{
    if tok.spelling() == text {
        Some(tok.kind)
    } else {
        None
    }
}

/// A token with that spelling, which begins as another one does.
fn made(alloc: Global, like: &PpTok, kind: PpKind, spelling: Bytes) -> Painted
    ensures { result ≡ spec.fresh (record like.now { kind = kind; spelling = spelling }) }
{
    let tok = PpTok::new(kind, like.place, like.first, like.space, spelling);
    Painted::fresh(alloc, tok)
}

/// The token, which begins as another one does.
pub fn begun(like: &PpTok, p: Painted) -> Painted
    ensures { result ≡ record p { tok = spec.begun like.now p.tok } }
{
    let Painted { mut tok, hides } = p;
    tok.first = like.first;
    tok.space = like.space;
    Painted { tok, hides }
}

/// Adds copies of the tokens, of which the first begins as that token does.
pub fn headed(alloc: Global, like: &PpTok, run: &[Painted]) -> Result<Row<Painted>, NoMemory>
    ensures { IfOk result (λ r. r ≡ spec.headed like.now run.now) }
{
    let mut row = Row::new(alloc);
    let Some((first, rest)) = run.split_first() else {
        return Ok(row);
    };
    row.push(begun(like, first.copy(alloc)?))?;
    for p in rest {
        row.push(p.copy(alloc)?)?;
    }
    Ok(row)
}

/// Whether the token is a placemarker (ISO/IEC 9899:2024, 6.10.5.4).
pub fn is_placemarker(p: &Painted) -> bool
    ensures { result ≡ spec.is_placemarker p.now }
{
    p.tok.spelling().is_empty()
}

/// The tokens, or a placemarker where there are none.
pub fn or_placemarker(
    alloc: Global,
    like: &PpTok,
    run: Row<Painted>,
) -> Result<Row<Painted>, NoMemory>
    ensures { IfOk result (λ r. r ≡ spec.or_placemarker like.now run) }
{
    if !run.is_empty() {
        return Ok(run);
    }
    let mut row = Row::new(alloc);
    row.push(made(alloc, like, like.kind, Bytes::new(alloc)))?;
    Ok(row)
}

/// What stays where placemarkers go.
pub fn without_placemarkers(alloc: Global, run: Row<Painted>) -> Result<Row<Painted>, NoMemory>
    ensures { IfOk result (λ r. r ≡ spec.without_placemarkers run) }
{
    let mut rest = Stack::new(run);
    let mut row = Row::new(alloc);
    while let Some(p) = rest.pop() {
        if !is_placemarker(&p) {
            row.push(p)?;
        }
    }
    Ok(row)
}

/// The token that two tokens spell together, if it is one.
fn joined(alloc: Global, p: &Painted, q: &Painted) -> Result<Option<Painted>, NoMemory>
    ensures { IfOk result (λ o. o ≡ spec.of_kind p.now q.now (spec.single (p.now.tok.spelling ++ q.now.tok.spelling))) }
{
    let mut spelling = Bytes::new(alloc);
    spelling.push(p.tok.spelling())?;
    spelling.push(q.tok.spelling())?;
    let Some(kind) = single(alloc, spelling.as_slice())? else {
        return Ok(None);
    };
    let tok = PpTok::new(kind, p.tok.place, p.tok.first, p.tok.space, spelling);
    let hides = p.hides.common(alloc, &q.hides)?;
    Ok(Some(Painted { tok, hides }))
}

/// Two operands of `##` pasted, unless they make no single token.
fn pasted(alloc: Global, p: Painted, q: Painted) -> Result<Option<Painted>, NoMemory>
    ensures { IfOk result (λ o. o ≡ spec.pasted p q) }
{
    if is_placemarker(&p) {
        return Ok(Some(begun(&p.tok, q)));
    }
    if is_placemarker(&q) {
        return Ok(Some(p));
    }
    joined(alloc, &p, &q)
}

/// The last token of a list pasted to the first of another one.
#[tactic(auto, using(crate::proofs::PastingLaws::last_pasted))]
pub fn pasted_runs(
    alloc: Global,
    left: Row<Painted>,
    right: Row<Painted>,
) -> Result<Option<Row<Painted>>, NoMemory>
    ensures { IfOk result (λ o. o ≡ spec.pasted_runs left right) }
{
    let mut row = left;
    let Some(p) = row.pop() else {
        return Ok(Some(right));
    };
    let mut rest = Stack::new(right);
    let Some(q) = rest.pop() else {
        row.push(p)?;
        return Ok(Some(row));
    };
    let Some(both) = pasted(alloc, p, q)? else {
        return Ok(None);
    };
    row.push(both)?;
    row.append(rest.into_row())?;
    Ok(Some(row))
}

/// Whether the spelling stands in a string with its quotes and backslashes escaped.
fn holds_escapes(kind: PpKind) -> bool
    ensures { result ≡ spec.holds_escapes kind }
{
    match kind {
        PpKind::Character | PpKind::Text => true,
        PpKind::Header | PpKind::Name | PpKind::Number | PpKind::Punct | PpKind::Other => false,
    }
}

/// Adds the bytes, with a backslash before quotes and backslashes.
fn push_escaped(text: &mut Bytes, bytes: &[u8]) -> Result<(), NoMemory>
    ensures { OnOk result (text.new ≡ text.old ++ flat_map spec.escaped bytes.now) }
{
    for b in bytes {
        if *b == b'"' || *b == b'\\' {
            text.push(b"\\")?;
        }
        text.push(&[*b])?;
    }
    Ok(())
}

/// Adds the token as it stands in the string of `#`.
fn push_shown(text: &mut Bytes, tok: &PpTok) -> Result<(), NoMemory>
    ensures { OnOk result (text.new ≡ text.old ++ spec.shown tok.now) }
{
    if holds_escapes(tok.kind) {
        push_escaped(text, tok.spelling())
    } else {
        text.push(tok.spelling())
    }
}

/// Adds the tokens, with one space before each that has white space before it.
fn push_spaced(text: &mut Bytes, run: &[Painted]) -> Result<(), NoMemory>
    ensures { OnOk result (text.new ≡ text.old ++ spec.spaced run.now) }
{
    for p in run {
        if p.tok.space {
            text.push(b" ")?;
        }
        push_shown(text, &p.tok)?;
    }
    Ok(())
}

/// The string that `#` makes of its operand (ISO/IEC 9899:2024, 6.10.5.3).
pub fn string_of(alloc: Global, hash: &PpTok, run: Row<Painted>) -> Result<Painted, NoMemory>
    ensures { IfOk result (λ p. p ≡ spec.string_of hash.now run) }
{
    let tokens = without_placemarkers(alloc, run)?;
    let mut text = Bytes::new(alloc);
    text.push(b"\"")?;
    if let Some((first, rest)) = tokens.as_slice().split_first() {
        push_shown(&mut text, &first.tok)?;
        push_spaced(&mut text, rest)?;
    }
    text.push(b"\"")?;
    Ok(made(alloc, hash, PpKind::Text, text))
}

/// Adds a byte of a file's name.
fn push_literal(text: &mut Bytes, b: u8) -> Result<(), NoMemory>
    ensures { OnOk result (text.new ≡ text.old ++ spec.literal_byte b) }
{
    if b == b'"' || b == b'\\' || b == b'?' {
        text.push(&[b'\\', b])
    } else if 31 < b && b < 127 {
        text.push(&[b])
    } else {
        text.push(&[b'\\', b'0' + b / 64, b'0' + b / 8 % 8, b'0' + b % 8])
    }
}

/// The token that `__FILE__` stands for.
pub fn file_token(alloc: Global, like: &PpTok, name: &[u8]) -> Result<Painted, NoMemory>
    ensures { IfOk result (λ p. p ≡ spec.file_token like.now name.now) }
{
    let mut text = Bytes::new(alloc);
    text.push(b"\"")?;
    for b in name {
        push_literal(&mut text, *b)?;
    }
    text.push(b"\"")?;
    Ok(made(alloc, like, PpKind::Text, text))
}

/// The token that `__LINE__` stands for.
pub fn line_token(alloc: Global, like: &PpTok, line: u32) -> Result<Painted, NoMemory>
    ensures { IfOk result (λ p. p ≡ spec.line_token like.now line) }
{
    let mut buffer = Buffer::new();
    let mut text = Bytes::new(alloc);
    text.push(buffer.format(line).as_bytes())?;
    Ok(made(alloc, like, PpKind::Number, text))
}
