//! The tokens of a condition, after macros are replaced.
ghost use Rattle.std.specs.Prelude.{◌≡◌, ◌++◌, ◌∷◌, ◌<◌, [], drop, length, OnOk, IfErr};
ghost use Rattle.model_conditions.specs.ConditionTokens as spec;
ghost use Rattle.model_tokens.specs.CTokens.{c_token_of};
ghost use Rattle.pp_conditions.specs.Answers.{Gives, Refuses};
ghost use Rattle.pp_conditions.specs.Listed.{Grows};

use crate::errors::Refusal;
use crate::left_out::is_left_out;
use crate::signs::of_sign;
use c_tokens::{CKind, PpKind, PpList, PpTok, TokenError, c_token};
use c_types::fits;
use cake_base::NoMemory;
use model_conditions::conditions::{ConditionRule, ConditionToken, WideNumber};
use model_types::numbers::Basic;
use pp_macros::spells;
use std::alloc::Global;
use std::marker::Model;

/// The tokens of a condition. Contracts see their list.
#[derive(Drop)]
pub struct Tokens {
    items: Vec<ConditionToken>,
}

impl Model for Tokens {
    ghost use Rattle.std.specs.Prelude.{List};
    ghost use Rattle.model_conditions.specs.declared.conditions.ConditionToken.{ConditionToken};

    ghost Value = { List ConditionToken };

    ghost view = { λ t. t.items.items };
}

impl Tokens {
    fn new(alloc: Global) -> Tokens
        ensures { result ≡ [] }
    {
        Tokens {
            items: Vec::new(alloc),
        }
    }

    /// Adds a token at the end.
    fn push(&mut self, token: ConditionToken) -> Result<(), NoMemory>
        ensures { OnOk result (self.new ≡ self.old ++ token ∷ []) }
    {
        self.items.push(token)?;
        Ok(())
    }

    /// The tokens in order.
    pub fn as_slice(&self) -> &[ConditionToken]
        ensures { result.now ≡ self.now }
    {
        self.items.as_slice()
    }
}

/// The number that a name or a keyword stands for.
fn of_name(tok: &PpTok) -> Result<ConditionToken, ConditionRule>
    ensures { result ≡ spec.of_name tok.now }
{
    if is_left_out(tok) {
        return Err(ConditionRule::LeftOut);
    }
    let value = if spells(tok, b"true") { 1 } else { 0 };
    Ok(ConditionToken::Constant(WideNumber {
        value,
        unsigned: false,
    }))
}

/// Whether a number has the suffix u, of which no other part has the letter.
fn has_u(text: &[u8]) -> bool
    ensures { result ≡ spec.has_u text.now }
{
    for b in text {
        if *b == b'u' || *b == b'U' {
            return true;
        }
    }
    false
}

/// The constant of a condition that an integer constant is.
fn of_kind(kind: CKind, suffixed: bool) -> Result<ConditionToken, ConditionRule>
    ensures { result ≡ spec.of_kind suffixed kind }
{
    match kind {
        CKind::Integer(constant) => Ok(ConditionToken::Constant(WideNumber {
            value: constant.value,
            unsigned: suffixed || !fits(Basic::Long, constant.value),
        })),
        CKind::Word(_) => Err(ConditionRule::Malformed),
        CKind::Name(_) => Err(ConditionRule::Malformed),
        CKind::Text(_) => Err(ConditionRule::Malformed),
        CKind::Punct(_) => Err(ConditionRule::Malformed),
    }
}

fn unless_broken(token: Result<ConditionToken, ConditionRule>) -> Result<ConditionToken, Refusal>
    ensures { Gives result token }
{
    match token {
        Ok(token) => Ok(token),
        Err(rule) => Err(Refusal::Broken(rule)),
    }
}

fn of_constant(alloc: Global, tok: &PpTok, suffixed: bool) -> Result<ConditionToken, Refusal>
    ensures { Gives result (spec.of_constant suffixed (c_token_of tok.now)) }
{
    match c_token(alloc, tok) {
        Ok(constant) => unless_broken(of_kind(constant.kind, suffixed)),
        Err(TokenError::Fault(_)) => Err(Refusal::Broken(ConditionRule::Malformed)),
        Err(TokenError::NoMemory) => Err(Refusal::NoMemory),
    }
}

/// The token of a condition that a token is.
fn of_part(alloc: Global, tok: &PpTok) -> Result<ConditionToken, Refusal>
    ensures { Gives result (spec.of_part tok.now.kind tok.now) }
{
    match tok.kind {
        PpKind::Name => unless_broken(of_name(tok)),
        PpKind::Number => of_constant(alloc, tok, has_u(tok.spelling())),
        PpKind::Character => of_constant(alloc, tok, false),
        PpKind::Punct => unless_broken(of_sign(tok.spelling())),
        PpKind::Header => Err(Refusal::Broken(ConditionRule::Malformed)),
        PpKind::Text => Err(Refusal::Broken(ConditionRule::Malformed)),
        PpKind::Other => Err(Refusal::Broken(ConditionRule::Malformed)),
    }
}

/// Adds the token of this rank.
fn read_part(alloc: Global, line: &PpList, at: usize, tokens: &mut Tokens) -> Result<(), Refusal>
    requires { at < length line.now }
    ensures ok { OnOk result (Grows line.now at tokens.old tokens.new) }
    ensures err { IfErr result (λ e. Refuses e (spec.condition_tokens (drop at line.now))) }
{
    let Some(tok) = line.get(at) else {
        return Ok(());
    };
    let token = of_part(alloc, tok)?;
    tokens.push(token)?;
    Ok(())
}

/// The tokens of a condition (ISO/IEC 9899:2024, 6.10.2): a name is 0, `true` is 1, and constants are
/// of 64 bits.
///
/// P20 where an operator that is left out stands, and P14 where a token stands that no condition has;
/// the first of them from the left.
pub fn condition_tokens(alloc: Global, line: &PpList) -> Result<Tokens, Refusal>
    ensures { Gives result (spec.condition_tokens line.now) }
{
    let mut tokens = Tokens::new(alloc);
    for at in 0..line.count() {
        read_part(alloc, line, at, &mut tokens)?;
    }
    Ok(tokens)
}
