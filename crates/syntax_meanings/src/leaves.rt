//! What tokens stand for.
ghost use Rattle.std.specs.Prelude.{◌≡◌, ◌<◌, IfOk, MatchOption, Some, slice_get};
ghost use Rattle.model_grammar.specs.SyntaxValues.{token_value};
ghost use Rattle.model_grammar.specs.TerminalsOf as spec;
ghost use Rattle.syntax_meanings.specs.Meanings.{value_seen};

use crate::kinds;
use crate::meanings::{Meaning, Value};
use c_tokens::{CKind, CList, CTok};
use cake_base::NoMemory;
use model_types::marks::Span;

/// The number of the kind (ISO/IEC 9899:2024, 6.4); none where it is no byte, as that of no word or punctuator is.
pub fn kind_number(kind: &CKind) -> Option<u8>
    ensures { MatchOption result (255 < spec.kind_number kind.now) (λ n. n ≡ spec.kind_number kind.now) }
{
    match kind {
        CKind::Word(number) => u8::try_from(*number).ok(),
        CKind::Name(_) => Some(kinds::NAME),
        CKind::Integer(_) => Some(kinds::INTEGER),
        CKind::Text(_) => Some(kinds::STRING_LITERAL),
        CKind::Punct(number) => match u8::try_from(*number) {
            Ok(number) => number.checked_add(kinds::VOLATILE),
            Err(_) => None,
        },
    }
}

fn token_leaf<'t>(token: &'t CTok) -> Result<Value<'t>, NoMemory>
    ensures { IfOk result (λ made. value_seen made ≡ token_value (Some token.now)) }
{
    let Some(kind) = kind_number(&token.kind) else {
        return Err(NoMemory);
    };
    Ok(Value {
        meaning: Meaning::Token { kind, token },
        tokens: Some(Span {
            first: token.place,
            last: token.place,
        }),
    })
}

/// The token of this rank; nothing where there is none.
///
/// `NoMemory` comes only for a token whose number of kind is no byte, which no text gives.
pub fn leaf<'t>(tokens: &'t CList, rank: usize) -> Result<Value<'t>, NoMemory>
    ensures { IfOk result (λ made. value_seen made ≡ token_value (slice_get tokens.now rank)) }
{
    match tokens.get(rank) {
        Some(token) => token_leaf(token),
        None => Ok(Value {
            meaning: Meaning::Nothing,
            tokens: None,
        }),
    }
}
