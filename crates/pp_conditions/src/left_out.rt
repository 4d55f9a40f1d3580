//! Operators of conditions that are left out.
ghost use Rattle.std.specs.Prelude.{◌≡◌};
ghost use Rattle.model_conditions.specs.Defined as spec;

use c_tokens::PpTok;

/// Whether the token is an operator of conditions that is left out.
pub fn is_left_out(tok: &PpTok) -> bool
    ensures { result ≡ spec.is_left_out tok.now }
{
    let text = tok.spelling();
    b"__has_include".as_slice() == text
        || b"__has_embed".as_slice() == text
        || b"__has_c_attribute".as_slice() == text
}
