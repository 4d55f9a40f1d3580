//! A preprocessing token.
ghost use Rattle.std.specs.Prelude.{◌≡◌, IfOk};

use cake_base::{Bytes, NoMemory, Place};
use model_tokens::tokens::PpKind;
use std::alloc::Global;
use std::marker::Model;

/// A preprocessing token with its spelling (ISO/IEC 9899:2024, 6.4).
///
/// `first` says that the token begins a line. `space` says that, after lines are joined, a blank,
/// a comment or a line end stands directly before it.
#[derive(Debug, Drop)]
pub struct PpTok {
    pub kind: PpKind,
    pub place: Place,
    pub first: bool,
    pub space: bool,
    text: Bytes,
}

impl Model for PpTok {
    ghost use Rattle.model_tokens.specs.PpTokens.{PpToken};

    ghost Value = { PpToken };

    ghost view = { λ t. record { kind = t.kind; place = t.place; first = t.first; space = t.space; spelling = t.text } };
}

impl PpTok {
    /// The token of these parts.
    pub fn new(kind: PpKind, place: Place, first: bool, space: bool, spelling: Bytes) -> PpTok
        ensures { result ≡ record { kind = kind; place = place; first = first; space = space; spelling = spelling } }
    {
        PpTok {
            kind,
            place,
            first,
            space,
            text: spelling,
        }
    }

    /// The bytes of the token, after lines are joined.
    pub fn spelling(&self) -> &[u8]
        ensures { result.now ≡ self.now.spelling }
    {
        self.text.as_slice()
    }

    /// An equal token.
    pub fn copy(&self, alloc: Global) -> Result<PpTok, NoMemory>
        ensures { IfOk result (λ t. t ≡ self.now) }
    {
        let text = Bytes::of(alloc, self.text.as_slice())?;
        Ok(PpTok {
            kind: self.kind,
            place: self.place,
            first: self.first,
            space: self.space,
            text,
        })
    }
}
