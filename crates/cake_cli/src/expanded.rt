//! The text of preprocessed tokens.
ghost use Rattle.std.specs.Prelude.{◌≡◌, ◌++◌, [], IfOk, OnOk};
ghost use Rattle.cake_cli.specs.ExpandedText as spec;
ghost use Rattle.cake_cli.specs.Behind.{token_behind, text_behind};

use c_tokens::{PpList, PpTok};
use cake_base::{Bytes, NoMemory, Place};
use std::alloc::Global;

/// What stands between tokens of these places.
fn parting(place: Place, next: Place) -> &'static [u8]
    ensures { result.now ≡ spec.parting place next }
{
    if place.file == next.file && place.line == next.line {
        b" "
    } else {
        b"\n"
    }
}

/// Adds a token behind the one of a place, or the first.
fn push_token(text: &mut Bytes, before: Option<Place>, token: &PpTok) -> Result<(), NoMemory>
    ensures { OnOk result (text.new ≡ text.old ++ token_behind before token.now) }
{
    match before {
        None => text.push(token.spelling()),
        Some(place) => {
            text.push(parting(place, token.place))?;
            text.push(token.spelling())
        }
    }
}

/// Ends the text behind the token of a place, where there is one.
fn push_end(text: &mut Bytes, before: Option<Place>) -> Result<(), NoMemory>
    ensures { OnOk result (text.new ≡ text.old ++ text_behind before []) }
{
    match before {
        None => Ok(()),
        Some(_) => text.push(b"\n"),
    }
}

/// The text of the tokens: a space between tokens of one line of one file, a line feed where the
/// file or the line of the place changes, and one at the end. No tokens have the empty text.
pub fn expanded_text(alloc: Global, tokens: &PpList) -> Result<Bytes, NoMemory>
    ensures { IfOk result (λ text. text ≡ spec.expanded_text tokens.now) }
{
    let mut text = Bytes::new(alloc);
    let mut before: Option<Place> = None;
    for at in 0..tokens.count() {
        let Some(token) = tokens.get(at) else {
            unreachable!();
        };
        push_token(&mut text, before, token)?;
        before = Some(token.place);
    }
    push_end(&mut text, before)?;
    Ok(text)
}
