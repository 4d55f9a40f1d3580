//! The operator `defined`, which is answered before macros are replaced.
ghost use Rattle.std.specs.Prelude.{◌≡◌, ◌<◌, ◌≤◌, ◌+◌, ◌^◌, true, drop, slice_get, IfOk, IfErr, IfSome, MatchOption, Some, None};
ghost use Rattle.model_macros.specs.Macros as macros;
ghost use Rattle.model_conditions.specs.Defined as spec;
ghost use Rattle.pp_conditions.specs.Answers.{Gives, Refuses};
ghost use Rattle.pp_conditions.specs.Lines.{Follows, answered_at};

use crate::errors::Refusal;
use crate::left_out::is_left_out;
use c_tokens::{PpKind, PpList, PpTok};
use cake_base::{Bytes, NoMemory};
use model_conditions::conditions::ConditionRule;
use pp_macros::{MacroTable, is_name, spells};
use std::alloc::Global;

/// A name that `defined` asks for, and the number of tokens in which it stands.
#[derive(Drop)]
struct Asked<'a> {
    name: &'a [u8],
    tokens: usize,
}

/// The name at this rank, which the token at the next rank closes in.
fn in_parentheses<'a>(line: &'a PpList, at: usize) -> Option<Asked<'a>>
    requires { at ≤ 2 ^ 63 + 1 }
    ensures asked { MatchOption result (spec.in_parentheses (drop at line.now) ≡ None) (λ asked. spec.in_parentheses (drop at line.now) ≡ Some (record { name = asked.name.now; tokens = asked.tokens })) }
    ensures few { IfSome result (λ asked. asked.tokens ≤ 3) }
{
    let Some(name) = line.get(at) else {
        return None;
    };
    let Some(close) = line.get(at + 1) else {
        return None;
    };
    if is_name(name) && spells(close, b")") {
        Some(Asked {
            name: name.spelling(),
            tokens: 3,
        })
    } else {
        None
    }
}

/// The name that `defined` asks for, which stands at this rank, or in parentheses from there.
fn operand<'a>(line: &'a PpList, at: usize) -> Option<Asked<'a>>
    requires { at ≤ 2 ^ 63 }
    ensures asked { MatchOption result (spec.operand (drop at line.now) ≡ None) (λ asked. spec.operand (drop at line.now) ≡ Some (record { name = asked.name.now; tokens = asked.tokens })) }
    ensures few { IfSome result (λ asked. asked.tokens ≤ 3) }
{
    let Some(first) = line.get(at) else {
        return None;
    };
    if is_name(first) {
        Some(Asked {
            name: first.spelling(),
            tokens: 1,
        })
    } else if spells(first, b"(") {
        in_parentheses(line, at + 1)
    } else {
        None
    }
}

/// The number 1 or 0 in the place of `defined`.
fn told(alloc: Global, tok: &PpTok, is_defined: bool) -> Result<PpTok, NoMemory>
    ensures { IfOk result (λ t. t ≡ spec.told tok.now is_defined) }
{
    let text = Bytes::of(alloc, if is_defined { b"1" } else { b"0" })?;
    Ok(PpTok::new(PpKind::Number, tok.place, tok.first, tok.space, text))
}

/// Whether a macro has that name.
fn is_defined(table: &MacroTable, name: &[u8]) -> bool
    ensures { result ≡ macros.defines name.now table.now.entries }
{
    table.find(name).is_some()
}

/// Puts the answer in the place of `defined`, which stands at this rank, and its operand. Answers the
/// rank behind them.
fn answer(
    alloc: Global,
    table: &MacroTable,
    line: &PpList,
    at: usize,
    tok: &PpTok,
    out: &mut PpList,
) -> Result<usize, Refusal>
    requires low { at < 2 ^ 63 }
    requires here { slice_get line.now at ≡ Some tok.now }
    requires asks { macros.spells spec.DEFINED tok.now ≡ true }
    ensures ok { IfOk result (λ next. (at < next) × Follows table.now.entries line.now at next out.old out.new) }
    ensures err { IfErr result (λ e. Refuses e (answered_at table.now.entries line.now at)) }
{
    match operand(line, at + 1) {
        Some(asked) => {
            out.push(told(alloc, tok, is_defined(table, asked.name))?)?;
            Ok(at + 1 + asked.tokens)
        }
        None => Err(Refusal::Broken(ConditionRule::Malformed)),
    }
}

/// Takes the token of this rank over, or `defined` and its operand. Answers the rank behind.
fn next(
    alloc: Global,
    table: &MacroTable,
    line: &PpList,
    at: usize,
    out: &mut PpList,
) -> Result<usize, Refusal>
    requires { at < 2 ^ 63 }
    ensures ok { IfOk result (λ next. (at < next) × Follows table.now.entries line.now at next out.old out.new) }
    ensures err { IfErr result (λ e. Refuses e (answered_at table.now.entries line.now at)) }
{
    let Some(tok) = line.get(at) else {
        return Ok(at + 1);
    };
    if spells(tok, b"defined") {
        let behind = answer(alloc, table, line, at, tok, out)?;
        return Ok(behind);
    }
    if is_left_out(tok) {
        return Err(Refusal::Broken(ConditionRule::LeftOut));
    }
    out.push(tok.copy(alloc)?)?;
    Ok(at + 1)
}

/// The line with 1 or 0 in the place of each `defined` and its operand (ISO/IEC 9899:2024, 6.10.2).
///
/// P14 where `defined` has no operand, and P20 where an operator that is left out stands outside such
/// an operand; the first of them from the left.
pub fn defined_answered(alloc: Global, table: &MacroTable, line: &PpList) -> Result<PpList, Refusal>
    ensures { Gives result (spec.defined_answered table.now.entries line.now) }
{
    let mut out = PpList::new(alloc);
    let mut at = 0;
    while at < line.count() {
        at = next(alloc, table, line, at, &mut out)?;
    }
    Ok(out)
}
