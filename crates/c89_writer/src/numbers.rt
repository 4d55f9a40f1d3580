//! Numbers of the text.
ghost use Rattle.std.specs.Prelude.{◌≡◌, ◌++◌, decimal, OnOk};

use cake_base::{Bytes, NoMemory};
use itoa::Buffer;

/// Appends the decimal digits of a number (ISO/IEC 9899:1990, 6.1.3.2).
pub fn push_decimal(out: &mut Bytes, number: u64) -> Result<(), NoMemory>
    ensures { OnOk result (out.new ≡ out.old ++ decimal number) }
{
    let mut digits = Buffer::new();
    out.push(digits.format(number).as_bytes())
}
