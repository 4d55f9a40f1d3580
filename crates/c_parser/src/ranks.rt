//! The identifiers that stand before a place of a list of tokens.

ghost use Rattle.std.specs.Prelude.{◌≡◌, [], IfOk};
ghost use Rattle.c_parser.specs.Ranks as spec;

use cake_base::NoMemory;
use indexmap::IndexMap;
use std::alloc::Global;
use std::marker::Model;

/// Identifiers, each with the rank of the first token that is spelled like it.
#[derive(Drop)]
pub struct Ranks<'a> {
    ranks: IndexMap<&'a [u8], u32>,
}

impl<'a> Model for Ranks<'a> {
    ghost use Rattle.std.specs.Prelude.{List, ℕ, map};

    ghost Value = { List (List ℕ × ℕ) };

    ghost view = { λ r. map (λ e. (e.0.now, e.1)) r.ranks.entries };
}

impl<'a> Ranks<'a> {
    /// No identifier.
    pub fn new(alloc: Global) -> Ranks<'a>
        ensures { result ≡ [] }
    {
        Ranks {
            ranks: IndexMap::new(alloc),
        }
    }

    /// The rank of the first token of this spelling, which is the given one where the spelling is new; it is then kept.
    pub fn first(&mut self, spelling: &'a [u8], rank: u32) -> Result<u32, NoMemory>
        ensures rank { IfOk result (λ first. first ≡ spec.known_or rank (spec.ranked spelling.now self.old)) }
        ensures kept { IfOk result (λ first. self.new ≡ spec.with_spelling (spec.ranked spelling.now self.old) spelling.now rank self.old) }
    {
        match self.ranks.get(spelling) {
            Some(first) => Ok(*first),
            None => {
                self.ranks.insert(spelling, rank)?;
                Ok(rank)
            }
        }
    }
}
