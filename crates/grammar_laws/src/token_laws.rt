//! A law of the tokens as the grammar sees them.
ghost use Rattle.std.specs.Prelude.{◌≡◌, List, Ok};
ghost use Rattle.model_tokens.specs.declared.tokens.CTok.{CTok};
ghost use Rattle.model_tokens.specs.CTokens.{c_tokens_of};
ghost use Rattle.model_tokens.specs.PpTokens.{PpToken};
ghost use Rattle.model_grammar.specs.TerminalsOf.{AreNumbered};

/// Each token of C that preprocessing tokens are converted into has a number of the grammar's vocabulary.
pub fn converted_tokens_are_numbered()
    ensures { (tokens : List PpToken) (ts : List CTok) → c_tokens_of tokens ≡ Ok ts → AreNumbered ts }
{}
