//! Brackets among the kinds of tokens.

ghost use Rattle.std.specs.Prelude.{◌≡◌};
ghost use Rattle.model_grammar.specs.NameScopes as spec;

use syntax_meanings::kinds;

/// Whether the kind is that of a closing bracket.
pub fn is_closing(kind: u8) -> bool
    ensures { result ≡ spec.is_closing kind }
{
    kind == kinds::CLOSE_PARENTHESIS || kind == kinds::CLOSE_BRACKET || kind == kinds::CLOSE_BRACE
}

/// Whether the kind is that of an opening bracket.
pub fn is_opening(kind: u8) -> bool
    ensures { result ≡ spec.is_opening kind }
{
    kind == kinds::OPEN_PARENTHESIS || kind == kinds::OPEN_BRACKET || kind == kinds::OPEN_BRACE
}

/// Whether the second kind is that of the bracket that closes the first.
pub fn closes(opening: u8, kind: u8) -> bool
    ensures { result ≡ spec.closes opening kind }
{
    if opening == kinds::OPEN_PARENTHESIS {
        kind == kinds::CLOSE_PARENTHESIS
    } else if opening == kinds::OPEN_BRACKET {
        kind == kinds::CLOSE_BRACKET
    } else {
        kind == kinds::CLOSE_BRACE
    }
}
