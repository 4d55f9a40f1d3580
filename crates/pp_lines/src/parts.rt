//! The lines of a file: directives, and the runs of text lines between them.
ghost use Rattle.std.specs.Prelude.{◌≡◌, ◌+◌, ◌-◌, ◌<◌, ◌≤◌, List, [], ◌∷◌, ◌++◌, take, drop, length, slice_get, Some, None, IfOk, OnOk};
ghost use Rattle.model_tokens.specs.PpTokens.{PpToken};
ghost use Rattle.model_preprocessing.specs.Directives as directives;
ghost use Rattle.pp_lines.specs.Parts.{line_length, added, added_line};

use crate::kinds::{is_text, kind_after};
use c_tokens::PpList;
use cake_base::{NoMemory, Place};
use model_preprocessing::directives::LineKind;
use std::alloc::Global;
use std::marker::Model;

/// A directive with the place of its `#` and the tokens after its name, or a run of text lines with
/// the place of its first token and all its tokens.
#[derive(Drop)]
pub struct Part {
    pub kind: LineKind,
    pub at: Place,
    pub tokens: PpList,
}

impl Model for Part {
    ghost use Rattle.model_preprocessing.specs.Directives as directives;

    ghost Value = { directives.Part };

    ghost view = { λ p. record { kind = p.kind; at = p.at; tokens = p.tokens } };
}

/// Adds copies of the tokens of these ranks.
pub fn copy_range(
    alloc: Global,
    toks: &PpList,
    from: usize,
    to: usize,
    into: &mut PpList,
) -> Result<(), NoMemory>
    requires { to ≤ length toks.now }
    ensures { OnOk result (into.new ≡ into.old ++ take (to - from) (drop from toks.now)) }
{
    for at in from..to {
        let Some(tok) = toks.get(at) else {
            return Ok(());
        };
        into.push(tok.copy(alloc)?)?;
    }
    Ok(())
}

/// The rank after the last token of the line that begins at this rank.
fn line_end(toks: &PpList, from: usize) -> usize
    requires { from < length toks.now }
    ensures value { result ≡ from + line_length (drop from toks.now) }
    ensures end { result ≤ length toks.now }
    ensures further { from < result }
{
    let end = toks.count();
    for at in from + 1..end {
        let Some(tok) = toks.get(at) else {
            return end;
        };
        if tok.first {
            return at;
        }
    }
    end
}

/// The directive on the line of these ranks, without its `#`.
fn directive(
    alloc: Global,
    toks: &PpList,
    at: Place,
    from: usize,
    to: usize,
) -> Result<Part, NoMemory>
    requires { to ≤ length toks.now }
    ensures { IfOk result (λ p. p ≡ directives.directive at (take (to - from) (drop from toks.now))) }
{
    let mut tokens = PpList::new(alloc);
    if from < to {
        if let Some(name) = toks.get(from) {
            let kind = kind_after(name);
            copy_range(alloc, toks, from + 1, to, &mut tokens)?;
            return Ok(Part { kind, at, tokens });
        }
    }
    Ok(Part {
        kind: LineKind::Null,
        at,
        tokens,
    })
}

/// The run of text that ends the parts, taken from them, or an empty one.
fn last_run(alloc: Global, parts: &mut Vec<Part>, at: Place) -> Result<Part, NoMemory>
    ensures { IfOk result (λ run. (tokens : List PpToken) →
        added parts.old.items (record { kind = LineKind.Text; at = at; tokens = tokens }) ≡ parts.new.items ++ record run { tokens = run.tokens ++ tokens } ∷ []) }
{
    let empty = Part {
        kind: LineKind::Text,
        at,
        tokens: PpList::new(alloc),
    };
    match parts.pop() {
        Some(last) => {
            if is_text(last.kind) {
                return Ok(last);
            }
            parts.push(last)?;
            Ok(empty)
        }
        None => Ok(empty),
    }
}

/// Adds a line of text of these ranks: to the run before it, or as a new one.
fn add_text(
    alloc: Global,
    parts: &mut Vec<Part>,
    toks: &PpList,
    at: Place,
    from: usize,
    to: usize,
) -> Result<(), NoMemory>
    requires { to ≤ length toks.now }
    ensures { OnOk result (parts.new.items ≡ added parts.old.items (record { kind = LineKind.Text; at = at; tokens = take (to - from) (drop from toks.now) })) }
{
    let mut run = last_run(alloc, parts, at)?;
    copy_range(alloc, toks, from, to, &mut run.tokens)?;
    parts.push(run)?;
    Ok(())
}

/// Adds the line of these ranks.
fn add_line(
    alloc: Global,
    parts: &mut Vec<Part>,
    toks: &PpList,
    from: usize,
    to: usize,
) -> Result<(), NoMemory>
    requires within { to ≤ length toks.now }
    requires some { from < to }
    ensures { OnOk result (parts.new.items ≡ added_line parts.old.items (take (to - from) (drop from toks.now))) }
{
    let Some(first) = toks.get(from) else {
        return Ok(());
    };
    if first.spelling() == b"#".as_slice() {
        parts.push(directive(alloc, toks, first.place, from + 1, to)?)?;
        Ok(())
    } else {
        add_text(alloc, parts, toks, first.place, from, to)?;
        Ok(())
    }
}

/// The directives of a list of tokens and the runs of text between them (ISO/IEC 9899:2024, 6.10.1).
pub fn split(alloc: Global, toks: &PpList) -> Result<Vec<Part>, NoMemory>
    ensures { IfOk result (λ parts. parts.items ≡ directives.parts toks.now) }
{
    let mut parts = Vec::new(alloc);
    let mut from = 0;
    while from < toks.count() {
        let to = line_end(toks, from);
        add_line(alloc, &mut parts, toks, from, to)?;
        from = to;
    }
    Ok(parts)
}
