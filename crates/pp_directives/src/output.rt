//! The preprocessed tokens.
ghost use Rattle.std.specs.Prelude.{◌≡◌, ◌++◌, ◌+◌, ◌≤◌, [], length, OnOk};
ghost use Rattle.model_preprocessing.specs.Sources.{ranked_from};
ghost use Rattle.pp_directives.specs.Outputs.{Appends};

use crate::errors::PrepError;
use crate::rules::TOO_MANY_TOKENS;
use c_tokens::{PpList, PpTok};
use cake_base::{Limit, LimitHit, NoMemory, Place};
use std::alloc::Global;
use std::marker::Model;

/// The most tokens of a unit.
pub const MOST_TOKENS: u32 = 1_000_000;

/// The tokens of a unit so far.
#[derive(Drop)]
pub struct Output {
    tokens: PpList,
}

impl Model for Output {
    ghost use Rattle.std.specs.Prelude.{List, ◌≤◌, length};
    ghost use Rattle.model_tokens.specs.PpTokens.{PpToken};

    ghost Value = { List PpToken };

    ghost view = { λ o. o.tokens };

    ghost invariant = { λ o. length o.tokens ≤ 1000000 };
}

/// A place with this number of tokens before it.
pub fn standing(count: u32, place: Place) -> Place
    ensures { result ≡ record place { order = count } }
{
    Place {
        file: place.file,
        line: place.line,
        column: place.column,
        order: count,
    }
}

/// Adds copies of the tokens with their ranks, from this one on.
fn add_ranked(alloc: Global, tokens: &mut PpList, rank: u32, new: &PpList) -> Result<(), NoMemory>
    requires so_far { length tokens.old ≡ rank }
    requires room { rank + length new.now ≤ 1000000 }
    ensures ok { OnOk result (tokens.new ≡ tokens.old ++ ranked_from rank new.now) }
    ensures bound { length tokens.new ≤ 1000000 }
{
    for at in 0..new.count() {
        let Some(tok) = new.get(at) else {
            return Ok(());
        };
        let mut copy = tok.copy(alloc)?;
        copy.place = standing(rank + at as u32, copy.place);
        tokens.push(copy)?;
    }
    Ok(())
}

impl Output {
    /// No tokens.
    pub fn new(alloc: Global) -> Output
        ensures { result ≡ [] }
    {
        Output {
            tokens: PpList::new(alloc),
        }
    }

    /// The number of tokens, at most 1,000,000.
    pub fn count(&self) -> u32
        ensures value { result ≡ length self.now }
        ensures bound { result ≤ 1000000 }
    {
        self.tokens.count() as u32
    }

    /// Adds copies of the tokens, each with its rank. Where there are too many, the limit M05 is
    /// answered at the first past the number, and nothing is added.
    pub fn append(&mut self, alloc: Global, new: &PpList) -> Result<(), PrepError>
        ensures { Appends self.old new.now result self.new }
    {
        let count = self.count();
        let room = MOST_TOKENS - count;
        if let Some(past) = new.get(room as usize) {
            return Err(PrepError::Limit(LimitHit {
                place: standing(MOST_TOKENS, past.place),
                limit: Limit {
                    number: TOO_MANY_TOKENS,
                },
            }));
        }
        add_ranked(alloc, &mut self.tokens, count, new)?;
        Ok(())
    }

    /// The list.
    pub fn into_list(self) -> PpList
        ensures value { result ≡ self }
        ensures bound { length result ≤ 1000000 }
    {
        let Output { tokens } = self;
        tokens
    }
}
