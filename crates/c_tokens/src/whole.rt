//! The tokens of C of a list.
ghost use Rattle.std.specs.Prelude.{◌≡◌};
ghost use Rattle.model_tokens.specs.CTokens as spec;
ghost use Rattle.c_tokens.specs.Answers.{Answers};

use crate::convert::c_token;
use crate::errors::TokenError;
use crate::lists::{CList, PpList};
use crate::strings::join_strings;
use std::alloc::Global;

/// Each token converted.
#[tactic(auto, using(crate::proofs::WholeLaws::one_by_one))]
fn each_token(alloc: Global, toks: &PpList) -> Result<CList, TokenError>
    ensures { Answers result (spec.each_token toks.now) }
{
    let mut list = CList::new(alloc);
    for tok in toks.as_slice() {
        match c_token(alloc, tok) {
            Ok(token) => list.push(token)?,
            Err(TokenError::Fault(fault)) => return Err(TokenError::Fault(fault)),
            Err(TokenError::NoMemory) => return Err(TokenError::NoMemory),
        }
    }
    Ok(list)
}

/// The tokens of C of a list of preprocessing tokens: each is converted, and then neighbouring
/// strings are joined (ISO/IEC 9899:2024, 5.1.1.2 phases 6 and 7).
///
/// `TokenError::Fault` comes exactly where a token breaks one of L02 to L08: the first such token.
pub fn convert_tokens(alloc: Global, toks: &PpList) -> Result<CList, TokenError>
    ensures { Answers result (spec.c_tokens_of toks.now) }
{
    let list = each_token(alloc, toks)?;
    let joined = join_strings(alloc, &list)?;
    Ok(joined)
}
