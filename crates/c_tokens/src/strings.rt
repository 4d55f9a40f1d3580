//! String literals that stand side by side.
ghost use Rattle.std.specs.Prelude.{◌≡◌, ◌++◌, IfOk, OnOk, MatchOption, false};
ghost use Rattle.model_tokens.specs.CTokens as spec;
ghost use Rattle.model_tokens.specs.declared.tokens.CKind.TheVariants as kind_of;
ghost use Rattle.c_tokens.specs.Pending as pending_of;

use crate::lists::CList;
use cake_base::{Bytes, NoMemory, Place};
use model_tokens::tokens::{CKind, CTok};
use std::alloc::Global;

/// The string that the next one is joined to.
#[derive(Drop)]
pub struct Pending {
    bytes: Bytes,
    place: Place,
}

fn kind_copied(alloc: Global, kind: &CKind) -> Result<CKind, NoMemory>
    ensures { IfOk result (λ copy. copy ≡ kind.now) }
{
    match kind {
        CKind::Word(number) => Ok(CKind::Word(*number)),
        CKind::Name(bytes) => {
            let bytes = Bytes::of(alloc, bytes.as_slice())?;
            Ok(CKind::Name(bytes))
        }
        CKind::Integer(constant) => Ok(CKind::Integer(*constant)),
        CKind::Text(bytes) => {
            let bytes = Bytes::of(alloc, bytes.as_slice())?;
            Ok(CKind::Text(bytes))
        }
        CKind::Punct(number) => Ok(CKind::Punct(*number)),
    }
}

/// The bytes of a string; none of another token.
fn text_of(kind: &CKind) -> Option<&Bytes>
    ensures { MatchOption result (pending_of.is_text kind.now ≡ false) (λ bytes. kind.now ≡ kind_of.Text bytes.now) }
{
    match kind {
        CKind::Word(_) => None,
        CKind::Name(_) => None,
        CKind::Integer(_) => None,
        CKind::Text(bytes) => Some(bytes),
        CKind::Punct(_) => None,
    }
}

/// Adds the string that nothing follows.
fn add_pending(list: &mut CList, pending: Option<Pending>) -> Result<(), NoMemory>
    ensures { OnOk result (list.new ≡ list.old ++ pending_of.tokens pending) }
{
    match pending {
        None => Ok(()),
        Some(string) => {
            let Pending { bytes, place } = string;
            list.push(CTok {
                kind: CKind::Text(bytes),
                place,
            })
        }
    }
}

/// The pending string with one more, at the place of the first.
fn longer(
    alloc: Global,
    pending: Option<Pending>,
    bytes: &Bytes,
    place: Place,
) -> Result<Pending, NoMemory>
    ensures { IfOk result (λ string. string ≡ pending_of.longer pending bytes.now place) }
{
    match pending {
        None => {
            let bytes = Bytes::of(alloc, bytes.as_slice())?;
            Ok(Pending { bytes, place })
        }
        Some(string) => {
            let mut string = string;
            string.bytes.push(bytes.as_slice())?;
            Ok(string)
        }
    }
}

/// The tokens with neighbouring string literals joined, at the place of the first of them
/// (ISO/IEC 9899:2024, 5.1.1.2 phase 6).
pub fn join_strings(alloc: Global, toks: &CList) -> Result<CList, NoMemory>
    ensures { IfOk result (λ list. list ≡ spec.strings_joined toks.now) }
{
    let mut list = CList::new(alloc);
    let mut pending = None;
    for tok in toks.as_slice() {
        match text_of(&tok.kind) {
            Some(bytes) => pending = Some(longer(alloc, pending, bytes, tok.place)?),
            None => {
                add_pending(&mut list, pending)?;
                pending = None;
                let kind = kind_copied(alloc, &tok.kind)?;
                list.push(CTok {
                    kind,
                    place: tok.place,
                })?;
            }
        }
    }
    add_pending(&mut list, pending)?;
    Ok(list)
}
