//! What is known of quotes that aren't ended on their line, so that no line is searched twice.
ghost use Rattle.std.specs.Prelude.{◌≡◌, ◌+◌, ◌-◌, ◌^◌, ◌<◌, ◌≤◌, length, drop, slice_index, IfSome, false, true};
ghost use Rattle.model_tokens.specs.JoinedLines.{bytes};
ghost use Rattle.model_tokens.specs.PpSteps as spec;
ghost use Rattle.c_tokens.specs.Unended.{Barren, Knows};

use crate::cursor::Cursor;
use crate::scan::{closing, skip};

/// How many of the bytes ahead hold no `"`, and no `'`, that is ended on its line.
#[derive(Clone, Copy)]
pub struct Unended {
    pub texts: usize,
    pub characters: usize,
}

impl Unended {
    /// Nothing is known.
    pub fn nothing() -> Unended
        ensures { result ≡ record { texts = 0; characters = 0 } }
    {
        Unended {
            texts: 0,
            characters: 0,
        }
    }

    /// What is known still, `n` bytes further on.
    pub fn further(self, n: usize) -> Unended
        ensures { result ≡ record { texts = self.texts - n; characters = self.characters - n } }
    {
        Unended {
            texts: self.texts.saturating_sub(n),
            characters: self.characters.saturating_sub(n),
        }
    }
}

/// The length of the literal whose quote stands behind `prefix` bytes, where it is ended.
#[tactic(auto, using(crate::proofs::UnendedLaws::quotes))]
fn ended_literal(from: &Cursor, prefix: usize, quote: u8, known: &mut usize) -> Option<usize>
    requires fits { length from.now < 2 ^ 32 }
    requires prefix { prefix ≤ 2 }
    requires quote { slice_index (bytes from.now) prefix ≡ quote }
    requires knows { Barren quote known.old (bytes from.now) }
    ensures value { result ≡ spec.further (prefix + 1) (spec.closing quote false (drop (prefix + 1) (bytes from.now))) }
    ensures moves { IfSome result (λ n. (1 ≤ n) × (n ≤ length from.now + 3)) }
    ensures knows { Barren quote known.new (bytes from.now) }
{
    if prefix < *known {
        return None;
    }
    let mut rest = from.again();
    skip(&mut rest, prefix + 1);
    match closing(quote, &rest) {
        Ok(n) => Some(prefix + 1 + n),
        Err(n) => {
            if prefix == 0 {
                *known = n + 1;
            }
            None
        }
    }
}

/// The length of the literal whose quote, if it is one, stands behind `prefix` bytes.
pub fn literal_length(
    from: &Cursor,
    prefix: usize,
    quote: u8,
    unended: &mut Unended,
) -> Option<usize>
    requires fits { length from.now < 2 ^ 32 }
    requires prefix { prefix ≡ spec.prefix_length (bytes from.now) }
    requires bound { prefix ≤ 2 }
    requires quote { slice_index (bytes from.now) prefix ≡ quote }
    requires knows { Knows unended.old (bytes from.now) }
    ensures value { result ≡ spec.literal_length (bytes from.now) }
    ensures moves { IfSome result (λ n. (1 ≤ n) × (n ≤ length from.now + 3)) }
    ensures knows { Knows unended.new (bytes from.now) }
{
    match quote {
        b'"' => ended_literal(from, prefix, b'"', &mut unended.texts),
        b'\'' => ended_literal(from, prefix, b'\'', &mut unended.characters),
        _ => None,
    }
}
