//! What follows `#pragma`.
ghost use Rattle.std.specs.Prelude.{◌≡◌, drop, codes, if◌then◌else◌};
ghost use Rattle.model_preprocessing.specs.Pragmas as spec;
ghost use Rattle.model_types.specs.Texts.{same_text};

use c_tokens::PpList;
use cake_base::{Act, Family, Rule, Severity};
use model_preprocessing::directives::Pragma;

/// The severity of a word.
fn severity_of(word: &[u8]) -> Option<Severity>
    ensures { result ≡ spec.severity_of word.now }
{
    if word == b"error".as_slice() {
        Some(Severity::Error)
    } else if word == b"warning".as_slice() {
        Some(Severity::Warning)
    } else if word == b"ignored".as_slice() {
        Some(Severity::Ignored)
    } else {
        None
    }
}

/// The number in the string `"F"` with two decimal digits.
fn finding_number(spelling: &[u8]) -> Option<u32>
    ensures { result ≡ spec.finding_number spelling.now }
{
    if spelling.len() == 5
        && spelling[0] == b'"'
        && spelling[1] == b'F'
        && spelling[2].is_ascii_digit()
        && spelling[3].is_ascii_digit()
        && spelling[4] == b'"'
    {
        Some(10 * u32::from(spelling[2] - b'0') + u32::from(spelling[3] - b'0'))
    } else {
        None
    }
}

/// Sets the severity of a finding, where both are there.
fn assignment(severity: Option<Severity>, number: Option<u32>) -> Pragma
    ensures { result ≡ spec.assignment severity number }
{
    let Some(severity) = severity else {
        return Pragma::Malformed;
    };
    let Some(number) = number else {
        return Pragma::Malformed;
    };
    Pragma::Marks(Act::Assign(
        severity,
        Rule {
            family: Family::F,
            number,
        },
    ))
}

/// What a word alone does after `cake diagnostic`.
fn word_alone(word: &[u8]) -> Pragma
    ensures { result ≡ (if same_text word.now (codes "push") then Pragma.Marks Act.Push else if same_text word.now (codes "pop") then Pragma.Marks Act.Pop else Pragma.Malformed) }
{
    if word == b"push".as_slice() {
        Pragma::Marks(Act::Push)
    } else if word == b"pop".as_slice() {
        Pragma::Marks(Act::Pop)
    } else {
        Pragma::Malformed
    }
}

/// What follows `cake diagnostic`.
fn diagnostic(toks: &PpList) -> Pragma
    ensures { result ≡ spec.diagnostic (drop 2 toks.now) }
{
    let Some(first) = toks.get(2) else {
        return Pragma::Malformed;
    };
    let Some(second) = toks.get(3) else {
        return word_alone(first.spelling());
    };
    if toks.get(4).is_some() {
        return Pragma::Malformed;
    }
    assignment(
        severity_of(first.spelling()),
        finding_number(second.spelling()),
    )
}

/// What follows `cake`.
fn cake_pragma(toks: &PpList) -> Pragma
    ensures { result ≡ spec.cake_pragma (drop 1 toks.now) }
{
    let Some(word) = toks.get(1) else {
        return Pragma::Malformed;
    };
    if word.spelling() == b"diagnostic".as_slice() {
        diagnostic(toks)
    } else {
        Pragma::Malformed
    }
}

/// What follows `#pragma` (ISO/IEC 9899:2024, 6.10.8).
pub fn pragma_of(toks: &PpList) -> Pragma
    ensures { result ≡ spec.pragma_of toks.now }
{
    let Some(word) = toks.get(0) else {
        return Pragma::Dropped;
    };
    if word.spelling() == b"once".as_slice() {
        Pragma::Once
    } else if word.spelling() == b"cake".as_slice() {
        cake_pragma(toks)
    } else {
        Pragma::Dropped
    }
}
