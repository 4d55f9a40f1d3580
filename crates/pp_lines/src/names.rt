//! The name on a line of `#include`.
ghost use Rattle.std.specs.Prelude.{◌≡◌, drop, IfOk};
ghost use Rattle.model_preprocessing.specs.Includes as spec;

use c_tokens::{PpKind, PpList, PpTok};
use cake_base::{Bytes, NoMemory};
use std::alloc::Global;
use std::marker::Model;

/// A name between quotes, or between `<` and `>`.
#[derive(Drop)]
pub struct HeaderName {
    pub quoted: bool,
    pub name: Bytes,
}

impl Model for HeaderName {
    ghost use Rattle.model_preprocessing.specs.Includes as spec;

    ghost Value = { spec.HeaderName };

    ghost view = { λ h. record { quoted = h.quoted; name = h.name } };
}

/// The spelling without its first and its last byte.
fn between(spelling: &[u8]) -> &[u8]
    ensures { result.now ≡ spec.between spelling.now }
{
    if spelling.len() < 2 {
        return &[];
    }
    &spelling[1..spelling.len() - 1]
}

/// The name that a token is, if it is one of the two forms.
fn header_name(alloc: Global, tok: &PpTok) -> Result<Option<HeaderName>, NoMemory>
    ensures { IfOk result (λ found. found ≡ spec.header_name tok.now tok.now.kind) }
{
    match tok.kind {
        PpKind::Header => Ok(Some(HeaderName {
            quoted: false,
            name: Bytes::of(alloc, between(tok.spelling()))?,
        })),
        PpKind::Text => string_name(alloc, tok.spelling()),
        PpKind::Name => Ok(None),
        PpKind::Number => Ok(None),
        PpKind::Character => Ok(None),
        PpKind::Punct => Ok(None),
        PpKind::Other => Ok(None),
    }
}

/// The name in a string without a prefix.
fn string_name(alloc: Global, spelling: &[u8]) -> Result<Option<HeaderName>, NoMemory>
    ensures { IfOk result (λ found. found ≡ spec.string_name spelling.now) }
{
    if spelling.first() != Some(&b'"') {
        return Ok(None);
    }
    Ok(Some(HeaderName {
        quoted: true,
        name: Bytes::of(alloc, between(spelling))?,
    }))
}

/// The name where one of the two forms follows `#include` (ISO/IEC 9899:2024, 6.10.3).
pub fn direct_name(alloc: Global, toks: &PpList) -> Result<Option<HeaderName>, NoMemory>
    ensures { IfOk result (λ found. found ≡ spec.direct_name toks.now) }
{
    match toks.get(0) {
        Some(tok) => header_name(alloc, tok),
        None => Ok(None),
    }
}

/// The spellings from this rank on up to the first token `>`, put together.
fn up_to_close(alloc: Global, toks: &PpList, from: usize) -> Result<Option<Bytes>, NoMemory>
    ensures { IfOk result (λ found. found ≡ spec.up_to_close (drop from toks.now)) }
{
    let mut text = Bytes::new(alloc);
    for at in from..toks.count() {
        let Some(tok) = toks.get(at) else {
            return Ok(None);
        };
        if tok.spelling() == b">".as_slice() {
            return Ok(Some(text));
        }
        text.push(tok.spelling())?;
    }
    Ok(None)
}

/// The name where the tokens after `#include` were replaced.
pub fn replaced_name(alloc: Global, toks: &PpList) -> Result<Option<HeaderName>, NoMemory>
    ensures { IfOk result (λ found. found ≡ spec.replaced_name toks.now) }
{
    let Some(first) = toks.get(0) else {
        return Ok(None);
    };
    if first.spelling() != b"<".as_slice() {
        return header_name(alloc, first);
    }
    match up_to_close(alloc, toks, 1)? {
        Some(name) => Ok(Some(HeaderName {
            quoted: false,
            name,
        })),
        None => Ok(None),
    }
}
