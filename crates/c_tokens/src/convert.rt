//! The token of C that a preprocessing token is converted into.
ghost use Rattle.std.specs.Prelude.{◌≡◌, [], ◌∷◌, Some};
ghost use Rattle.model_tokens.specs.FloatingConstants.{is_floating};
ghost use Rattle.model_tokens.specs.CTokens as spec;
ghost use Rattle.model_tokens.specs.Characters.{characters};
ghost use Rattle.c_tokens.specs.Answers.{Answers, Gives};

use crate::characters::{character_length, character_value};
use crate::errors::{Refusal, TokenError};
use crate::floats::is_floating;
use crate::integers::{constant_in, integer_constant};
use crate::literals::{content, is_quote, prefix_length};
use crate::pp_token::PpTok;
use crate::scan::{Class, is_in};
use crate::slices::behind;
use crate::words::{punctuator_number, word_number};
use cake_base::{Bytes, Family, Fault, Rule};
use model_tokens::tokens::{CKind, CTok, PpKind, TokenRule};
use model_types::numbers::Basic;
use std::alloc::Global;

fn are_word_bytes(text: &[u8]) -> bool
    ensures { result ≡ spec.are_word_bytes text.now }
{
    for b in text {
        if !is_in(Class::Word, *b) {
            return false;
        }
    }
    true
}

/// Whether the text is an identifier, a keyword among them (ISO/IEC 9899:2024, 6.4.2.1).
pub fn is_identifier(text: &[u8]) -> bool
    ensures { result ≡ spec.is_identifier text.now }
{
    match text {
        [] => false,
        [b, ..] => !b.is_ascii_digit() && are_word_bytes(text),
    }
}

fn name_token(alloc: Global, text: &[u8]) -> Result<CKind, Refusal>
    ensures { Gives result (spec.name_token text.now) }
{
    if !is_identifier(text) {
        return Err(Refusal::Broken(TokenRule::Stray));
    }
    match word_number(text) {
        Some(number) => Ok(CKind::Word(number)),
        None => {
            let name = Bytes::of(alloc, text)?;
            Ok(CKind::Name(name))
        }
    }
}

fn punctuator_token(text: &[u8]) -> Result<CKind, TokenRule>
    ensures { result ≡ spec.punctuator_token text.now }
{
    match punctuator_number(text) {
        Some(number) => Ok(CKind::Punct(number)),
        None => Err(TokenRule::Stray),
    }
}

/// The rule that a number breaks which is no integer constant.
fn malformed_or_floating(text: &[u8], rule: TokenRule) -> TokenRule
    ensures { result ≡ spec.malformed_or_floating (is_floating text.now) rule }
{
    match rule {
        TokenRule::MalformedNumber => {
            if is_floating(text) {
                TokenRule::Floating
            } else {
                TokenRule::MalformedNumber
            }
        }
        other => other,
    }
}

fn number_token(text: &[u8]) -> Result<CKind, TokenRule>
    ensures { result ≡ spec.number_token text.now }
{
    match integer_constant(text) {
        Ok(constant) => Ok(CKind::Integer(constant)),
        Err(rule) => Err(malformed_or_floating(text, rule)),
    }
}

/// Why a spelling is no literal of C: it has a prefix, or isn't ended.
fn no_literal(quote: u8, text: &[u8]) -> TokenRule
    ensures { result ≡ spec.no_literal quote text.now }
{
    let n = prefix_length(text);
    if n > 0 && content(quote, behind(text, n)).is_some() {
        TokenRule::Stray
    } else {
        TokenRule::NotEnded
    }
}

/// The value of a byte as a signed char.
fn as_signed_char(b: u8) -> i128
    ensures { result ≡ spec.as_signed_char b }
{
    if b < 128 { b as i128 } else { b as i128 - 256 }
}

/// The value of a byte as a constant of type int.
fn byte_constant(b: u8) -> Result<CKind, TokenRule>
    ensures { result ≡ spec.one_character (Some b ∷ []) }
{
    match constant_in(Basic::Int, as_signed_char(b)) {
        Some(constant) => Ok(CKind::Integer(constant)),
        None => Err(TokenRule::FitsNoType),
    }
}

/// The one character of a character constant.
#[tactic(auto, using(crate::proofs::CharacterLaws::counts))]
fn one_character(text: &[u8]) -> Result<CKind, TokenRule>
    ensures { result ≡ spec.one_character (characters text.now) }
{
    let n = character_length(text);
    if n == 0 || n < text.len() {
        return Err(TokenRule::NotOneCharacter);
    }
    match character_value(text) {
        Some(b) => byte_constant(b),
        None => Err(TokenRule::BadEscape),
    }
}

fn character_token(text: &[u8]) -> Result<CKind, TokenRule>
    ensures { result ≡ spec.character_token text.now }
{
    match content(b'\'', text) {
        Some(bytes) => one_character(bytes),
        None => Err(no_literal(b'\'', text)),
    }
}

/// The bytes of a string between its quotes.
fn string_bytes(alloc: Global, text: &[u8]) -> Result<Bytes, Refusal>
    ensures { Gives result (spec.all_bytes (characters text.now)) }
{
    let mut bytes = Bytes::new(alloc);
    let mut rest = text;
    while let [_, ..] = rest {
        match character_value(rest) {
            Some(b) => bytes.push(&[b])?,
            None => return Err(Refusal::Broken(TokenRule::BadEscape)),
        }
        rest = behind(rest, character_length(rest));
    }
    Ok(bytes)
}

fn string_token(alloc: Global, text: &[u8]) -> Result<CKind, Refusal>
    ensures { Gives result (spec.string_token text.now) }
{
    match content(b'"', text) {
        Some(bytes) => {
            let bytes = string_bytes(alloc, bytes)?;
            Ok(CKind::Text(bytes))
        }
        None => Err(Refusal::Broken(no_literal(b'"', text))),
    }
}

/// The rule that a byte alone breaks.
fn other_token(text: &[u8]) -> TokenRule
    ensures { result ≡ spec.other_token text.now }
{
    match text {
        [b] => {
            if is_quote(*b) {
                TokenRule::NotEnded
            } else {
                TokenRule::Stray
            }
        }
        _ => TokenRule::Stray,
    }
}

fn unless_broken(token: Result<CKind, TokenRule>) -> Result<CKind, Refusal>
    ensures { Gives result token }
{
    match token {
        Ok(kind) => Ok(kind),
        Err(rule) => Err(Refusal::Broken(rule)),
    }
}

#[tactic(auto, unfolding(model_tokens::specs::CTokens::converted))]
fn converted(alloc: Global, kind: PpKind, text: &[u8]) -> Result<CKind, Refusal>
    ensures { Gives result (spec.converted kind text.now) }
{
    match kind {
        PpKind::Header => Err(Refusal::Broken(TokenRule::Stray)),
        PpKind::Name => name_token(alloc, text),
        PpKind::Number => unless_broken(number_token(text)),
        PpKind::Character => unless_broken(character_token(text)),
        PpKind::Text => string_token(alloc, text),
        PpKind::Punct => unless_broken(punctuator_token(text)),
        PpKind::Other => Err(Refusal::Broken(other_token(text))),
    }
}

fn rule_number(rule: TokenRule) -> u32
    ensures { result ≡ spec.rule_number rule }
{
    match rule {
        TokenRule::NotEnded => 2,
        TokenRule::NotOneCharacter => 3,
        TokenRule::BadEscape => 4,
        TokenRule::MalformedNumber => 5,
        TokenRule::FitsNoType => 6,
        TokenRule::Floating => 7,
        TokenRule::Stray => 8,
    }
}

/// The token of C that a preprocessing token is converted into, at its place (ISO/IEC 9899:2024,
/// 5.1.1.2 phase 7).
///
/// A word or a punctuator is numbered by the grammar's table. `TokenError::Fault` comes exactly
/// where the token breaks one of L02 to L08, at its place.
pub fn c_token(alloc: Global, tok: &PpTok) -> Result<CTok, TokenError>
    ensures { Answers result (spec.c_token_of tok.now) }
{
    let place = tok.place;
    match converted(alloc, tok.kind, tok.spelling()) {
        Ok(kind) => Ok(CTok { kind, place }),
        Err(Refusal::Broken(rule)) => Err(TokenError::Fault(Fault {
            place,
            rule: Rule {
                family: Family::L,
                number: rule_number(rule),
            },
        })),
        Err(Refusal::NoMemory) => Err(TokenError::NoMemory),
    }
}
