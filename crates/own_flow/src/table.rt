//! A table of bits, 64 in a word.
ghost use Rattle.std.specs.Prelude.{◌≡◌, ◌<◌, length, false, true, replicate, IfOk, Some, slice_get, slice_set};

use cake_base::NoMemory;
use std::alloc::Global;
use std::marker::Model;

/// So many bits. Contracts see them as a list.
#[derive(Drop)]
pub struct BitTable {
    words: Vec<u64>,
    count: usize,
}

impl Model for BitTable {
    ghost use Rattle.std.specs.Prelude.{◌*◌, ◌≤◌, List, Bool, length};
    ghost use Rattle.own_flow.specs.Words.{bits_of};

    ghost Value = { List Bool };

    ghost view = { λ t. bits_of t.words.items t.count };

    ghost invariant = { λ t. t.count ≤ 64 * length t.words.items };
}

impl BitTable {
    /// A table of `count` bits, none set.
    pub fn new(alloc: Global, count: usize) -> Result<BitTable, NoMemory>
        ensures { IfOk result (λ t. t ≡ replicate count false) }
    {
        let words = vec![in alloc; 0; count / 64 + 1]?;
        Ok(BitTable { words, count })
    }

    /// Whether the bit is set.
    pub fn has(&self, at: usize) -> bool
        requires { at < length self.now }
        ensures { slice_get self.now at ≡ Some result }
    {
        self.words[at / 64] >> (at % 64) & 1 == 1
    }

    /// Sets the bit.
    pub fn set(&mut self, at: usize)
        requires { at < length self.old }
        ensures { self.new ≡ slice_set self.old at true }
    {
        self.words[at / 64] |= 1 << (at % 64);
    }
}
