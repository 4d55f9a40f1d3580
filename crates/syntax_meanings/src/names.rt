//! Names.
ghost use Rattle.std.specs.Prelude.{◌≡◌, IfOk};
ghost use Rattle.model_grammar.specs.SyntaxValues.{spelled};

use c_tokens::{CKind, CTok};
use cake_base::{Bytes, NoMemory};
use model_grammar::syntax::Name;
use std::alloc::Global;

/// The name that the token is; one without bytes where it is no identifier (ISO/IEC 9899:2024, 6.4.2).
pub fn name_of(alloc: Global, token: &CTok) -> Result<Name, NoMemory>
    ensures { IfOk result (λ made. made ≡ spelled token.now.kind token.now.place) }
{
    let text = match &token.kind {
        CKind::Name(text) => Bytes::of(alloc, text.as_slice())?,
        CKind::Word(_) => Bytes::new(alloc),
        CKind::Integer(_) => Bytes::new(alloc),
        CKind::Text(_) => Bytes::new(alloc),
        CKind::Punct(_) => Bytes::new(alloc),
    };
    Ok(Name {
        text,
        place: token.place,
    })
}
