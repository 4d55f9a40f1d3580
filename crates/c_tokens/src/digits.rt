//! Digits of numbers.
ghost use Rattle.std.specs.Prelude.{◌≡◌, ◌+◌, ◌^◌, ◌≤◌, ◌<◌, length, min, true, false};
ghost use Rattle.model_tokens.specs.Digits as spec;
ghost use Rattle.c_tokens.specs.Values as laws;

/// The value of a digit, or 16 where the byte is none.
fn digit_value(b: u8) -> u32
    ensures value { result ≡ spec.digit_value b }
    ensures bound { result ≤ 16 }
{
    if b.is_ascii_digit() {
        (b - b'0') as u32
    } else if b'a' <= b && b <= b'f' {
        (b - b'a' + 10) as u32
    } else if b'A' <= b && b <= b'F' {
        (b - b'A' + 10) as u32
    } else {
        16
    }
}

pub fn is_digit_of(radix: u32, b: u8) -> bool
    ensures { result ≡ spec.is_digit_of radix b }
{
    digit_value(b) < radix
}

/// Whether a text is one digit or more, with single `'` between them.
pub fn are_digits(radix: u32, text: &[u8]) -> bool
    ensures { result ≡ spec.are_digits radix text.now }
{
    let mut before = false;
    for b in text {
        if is_digit_of(radix, *b) {
            before = true;
        } else if *b == b'\'' && before {
            before = false;
        } else {
            return false;
        }
    }
    before
}

/// The number of digits and `'` in front.
pub fn digit_run(radix: u32, text: &[u8]) -> usize
    ensures value { result ≡ spec.digit_run radix text.now }
    ensures bound { result ≤ length text.now }
{
    let mut n = 0;
    for b in text {
        if !is_digit_of(radix, *b) && *b != b'\'' {
            return n;
        }
        n += 1;
    }
    n
}

/// A number that no integer type holds.
pub const TOO_LARGE: u128 = 18_446_744_073_709_551_616;

/// The value of the digits so far and one byte more, or `TOO_LARGE`.
fn next_value(radix: u32, value: u128, b: u8) -> u128
    requires radix { radix ≤ 16 }
    requires bound { value ≤ 2 ^ 64 }
    ensures { result ≡ min (laws.next_value radix value b) (2 ^ 64) }
{
    if b == b'\'' {
        return value.min(TOO_LARGE);
    }
    (value * radix as u128 + digit_value(b) as u128).min(TOO_LARGE)
}

/// The value of digits, or `TOO_LARGE` where it is as large or larger.
pub fn value(radix: u32, text: &[u8]) -> u128
    requires radix { (1 ≤ radix) × (radix ≤ 16) }
    ensures { result ≡ min (spec.value_from radix 0 text.now) (2 ^ 64) }
{
    let mut value: u128 = 0;
    for b in text {
        value = next_value(radix, value, *b);
    }
    value
}
