//! Lists of tokens.
ghost use Rattle.std.specs.Prelude.{◌≡◌, [], ◌∷◌, ◌++◌, ◌<◌, ◌^◌, length, slice_get, option_copied, OnOk, OnErr};

use crate::pp_token::PpTok;
use cake_base::NoMemory;
use model_tokens::tokens::CTok;
use std::alloc::Global;
use std::marker::Model;

/// A list of preprocessing tokens.
#[derive(Debug, Drop)]
pub struct PpList {
    items: Vec<PpTok>,
}

impl Model for PpList {
    ghost use Rattle.std.specs.Prelude.{List};
    ghost use Rattle.model_tokens.specs.PpTokens.{PpToken};

    ghost Value = { List PpToken };

    ghost view = { λ l. l.items.items };
}

impl PpList {
    /// The empty list.
    pub fn new(alloc: Global) -> Self
        ensures { result ≡ [] }
    {
        PpList {
            items: Vec::new(alloc),
        }
    }

    /// Adds a token at the end. After a refusal the list is as before, and the token is dropped.
    pub fn push(&mut self, item: PpTok) -> Result<(), NoMemory>
        ensures ok { OnOk result (self.new ≡ self.old ++ item ∷ []) }
        ensures err { OnErr result (self.new ≡ self.old) }
    {
        self.items.push(item)?;
        Ok(())
    }

    /// The number of tokens.
    pub fn count(&self) -> usize
        ensures value { result ≡ length self.now }
        ensures bound { result < 2 ^ 63 }
    {
        self.items.len()
    }

    /// The tokens.
    pub(crate) fn as_slice(&self) -> &[PpTok]
        ensures { result.now ≡ self.now }
    {
        self.items.as_slice()
    }

    /// The token of this rank, counted from 0; none exactly where `at` isn't below the count.
    pub fn get(&self, at: usize) -> Option<&PpTok>
        ensures { option_copied result ≡ slice_get self.now at }
    {
        self.items.get(at)
    }
}

/// A list of tokens of C.
#[derive(Debug, Drop)]
pub struct CList {
    items: Vec<CTok>,
}

impl Model for CList {
    ghost use Rattle.std.specs.Prelude.{List};
    ghost use Rattle.model_tokens.specs.declared.tokens.CTok.{CTok};

    ghost Value = { List CTok };

    ghost view = { λ l. l.items.items };
}

impl CList {
    /// The empty list.
    pub fn new(alloc: Global) -> Self
        ensures { result ≡ [] }
    {
        CList {
            items: Vec::new(alloc),
        }
    }

    /// Adds a token at the end. After a refusal the list is as before, and the token is dropped.
    pub fn push(&mut self, item: CTok) -> Result<(), NoMemory>
        ensures ok { OnOk result (self.new ≡ self.old ++ item ∷ []) }
        ensures err { OnErr result (self.new ≡ self.old) }
    {
        self.items.push(item)?;
        Ok(())
    }

    /// The number of tokens.
    pub fn count(&self) -> usize
        ensures value { result ≡ length self.now }
        ensures bound { result < 2 ^ 63 }
    {
        self.items.len()
    }

    /// The tokens.
    pub(crate) fn as_slice(&self) -> &[CTok]
        ensures { result.now ≡ self.now }
    {
        self.items.as_slice()
    }

    /// The token of this rank, counted from 0; none exactly where `at` isn't below the count.
    pub fn get(&self, at: usize) -> Option<&CTok>
        ensures { option_copied result ≡ slice_get self.now at }
    {
        self.items.get(at)
    }
}
