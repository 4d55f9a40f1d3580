//! The parsing of a list of tokens of C.

ghost use Rattle.std.specs.Prelude.{◌≡◌, slice_get};
ghost use Rattle.model_grammar.specs.TerminalsOf.{terminals_of};
ghost use Rattle.c_parser.specs.Answers.{Answers, place_of, IsSyntaxError, IsDepthLimit};
ghost use Rattle.grammar_laws.specs.UnitSyntax.{IsFault, IsTooDeep};

use crate::errors::ParseError;
use crate::terminals::terminals;
use crate::unit::{UnitRefusal, parse_terminals};
use c_tokens::CList;
use c_tree::Tree;
use cake_base::{Family, Fault, Limit, LimitHit, Place, Rule};
use std::alloc::Global;
use syntax_actions::unit;

/// The place of the token of this rank, or the end where there is none.
fn place_at(toks: &CList, at: usize, end: Place) -> Place
    ensures { result ≡ place_of (slice_get toks.now at) end }
{
    match toks.get(at) {
        Some(token) => token.place,
        None => end,
    }
}

/// S01 at the token of this rank.
fn syntax_error(toks: &CList, at: usize, end: Place) -> Fault
    requires { IsFault (terminals_of toks.now) at }
    ensures { IsSyntaxError toks.now end result }
{
    Fault {
        place: place_at(toks, at, end),
        rule: Rule {
            family: Family::S,
            number: 1,
        },
    }
}

/// M06 at the token of this rank.
fn depth_limit(toks: &CList, at: usize, end: Place) -> LimitHit
    requires { IsTooDeep (terminals_of toks.now) at }
    ensures { IsDepthLimit toks.now result }
{
    LimitHit {
        place: place_at(toks, at, end),
        limit: Limit { number: 6 },
    }
}

/// The tree of a translation unit (ISO/IEC 9899:2024, 6.9).
///
/// `end` is the place behind the last token. `ParseError::Fault` is S01 at the first token with which no unit can go on,
/// or at `end` where the tokens are the front of a unit and no unit. `ParseError::Limit` is M06 at the first token that
/// lies in more than 1,000 parts, or just before which a part ended that is more than 1,000 high, where it stands before
/// the first fault. `ParseError::NoMemory` comes for a list that no text gives, too: one with a word or a punctuator that
/// has no number of the vocabulary, or with an identifier behind 4,294,967,296 tokens.
pub fn parse(alloc: Global, toks: &CList, end: Place) -> Result<Tree, ParseError>
    ensures { Answers toks.now end result }
{
    let tokens = terminals(alloc, toks)?;
    match parse_terminals(alloc, toks, tokens.as_slice()) {
        Ok(value) => match unit(alloc, value)? {
            Some(tree) => Ok(tree),
            None => unreachable!(),
        },
        Err(UnitRefusal::Memory) => Err(ParseError::NoMemory),
        Err(UnitRefusal::Deep(at)) => Err(ParseError::Limit(depth_limit(toks, at, end))),
        Err(UnitRefusal::Fault(at)) => Err(ParseError::Fault(syntax_error(toks, at, end))),
    }
}
