//! The punctuators of preprocessing, by their length.
ghost use Rattle.std.specs.Prelude.{◌≡◌, [], ◌∷◌, map, ◌≤◌};
ghost use Rattle.model_tokens.specs.PpSteps as spec;
ghost use Rattle.model_types.specs.Vocabulary.{is_punctuator, stands_in};

const THREES: [(u8, u8, u8); 3] = [(b'.', b'.', b'.'), (b'<', b'<', b'='), (b'>', b'>', b'=')];

const TWOS: [(u8, u8); 21] = [
    (b'#', b'#'),
    (b'*', b'='),
    (b'/', b'='),
    (b'%', b'='),
    (b'+', b'='),
    (b'-', b'='),
    (b'&', b'='),
    (b'^', b'='),
    (b'|', b'='),
    (b'|', b'|'),
    (b'&', b'&'),
    (b'=', b'='),
    (b'!', b'='),
    (b'<', b'='),
    (b'>', b'='),
    (b'<', b'<'),
    (b'>', b'>'),
    (b'+', b'+'),
    (b'-', b'-'),
    (b'-', b'>'),
    (b':', b':'),
];

const ONES: [u8; 25] = *b"#,;()[]{}:=*.?|^&<>+-/%~!";

fn is_among_threes(table: &[(u8, u8, u8)], a: u8, b: u8, c: u8) -> bool
    ensures { result ≡ stands_in (map (λ p. p.0 ∷ p.1 ∷ p.2 ∷ []) table.now) (a ∷ b ∷ c ∷ []) }
{
    for (x, y, z) in table {
        if *x == a && *y == b && *z == c {
            return true;
        }
    }
    false
}

fn is_among_twos(table: &[(u8, u8)], a: u8, b: u8) -> bool
    ensures { result ≡ stands_in (map (λ p. p.0 ∷ p.1 ∷ []) table.now) (a ∷ b ∷ []) }
{
    for (x, y) in table {
        if *x == a && *y == b {
            return true;
        }
    }
    false
}

fn is_among_ones(table: &[u8], a: u8) -> bool
    ensures { result ≡ stands_in (map (λ p. p ∷ []) table.now) (a ∷ []) }
{
    for x in table {
        if *x == a {
            return true;
        }
    }
    false
}

#[tactic(auto, using(crate::proofs::TableLaws::three_bytes))]
fn is_three(a: u8, b: u8, c: u8) -> bool
    ensures { result ≡ is_punctuator (a ∷ b ∷ c ∷ []) }
{
    is_among_threes(&THREES, a, b, c)
}

#[tactic(auto, using(crate::proofs::TableLaws::two_bytes))]
fn is_two(a: u8, b: u8) -> bool
    ensures { result ≡ is_punctuator (a ∷ b ∷ []) }
{
    is_among_twos(&TWOS, a, b)
}

#[tactic(auto, using(crate::proofs::TableLaws::one_byte))]
fn is_one(a: u8) -> bool
    ensures { result ≡ is_punctuator (a ∷ []) }
{
    is_among_ones(&ONES, a)
}

/// The length of the longest punctuator at the front of a text that begins with these bytes, or 0.
pub fn longest(a: u8, b: u8, c: u8) -> usize
    ensures value { result ≡ spec.longest_of a b c }
    ensures bound { result ≤ 3 }
{
    if is_three(a, b, c) {
        3
    } else if is_two(a, b) {
        2
    } else if is_one(a) {
        1
    } else {
        0
    }
}
