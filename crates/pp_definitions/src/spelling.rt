//! How tokens are spelled.
ghost use Rattle.std.specs.Prelude.{◌≡◌};
ghost use Rattle.std.specs.Option.{option_copied};
ghost use Rattle.model_macros.specs.Macros as macros;
ghost use Rattle.model_macros.specs.MacroDefinitions as definitions;
ghost use Rattle.model_macros.specs.ReplacementLists as lists;

use c_tokens::{PpKind, PpTok};

/// Whether the token is spelled like that.
pub fn spells(tok: &PpTok, text: &[u8]) -> bool
    ensures { result ≡ macros.spells text.now tok.now }
{
    tok.spelling() == text
}

/// Whether there is a token that is spelled like that.
pub fn first_spells(tok: Option<&PpTok>, text: &[u8]) -> bool
    ensures { result ≡ lists.first_spells text.now (option_copied tok.entry) }
{
    match tok {
        Some(t) => spells(t, text),
        None => false,
    }
}

/// Whether the token is a name, a keyword among them.
pub fn is_name(tok: &PpTok) -> bool
    ensures { result ≡ definitions.is_name tok.now }
{
    match tok.kind {
        PpKind::Name => true,
        PpKind::Header
        | PpKind::Number
        | PpKind::Character
        | PpKind::Text
        | PpKind::Punct
        | PpKind::Other => false,
    }
}
