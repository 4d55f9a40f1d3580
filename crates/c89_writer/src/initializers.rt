//! Initial values (ISO/IEC 9899:1990, 6.5.7) and strings (6.1.4).
ghost use Rattle.std.specs.Prelude.{◌≡◌, ◌++◌, OnOk};
ghost use Rattle.model_c89.specs.Spelling89.{byte_text, bytes_text, init_text, inits_text, value_text};
ghost use Rattle.c89_tree.specs.UnitTrees.{init_tree};
ghost use Rattle.c89_tree.specs.ProgramNodes89.{inits};

use crate::expressions::push_expr;
use c89_tree::{OutInit, OutInitForm};
use cake_base::{Bytes, NoMemory};

/// A byte of a string: quotes, backslashes and question marks behind a backslash, other printed characters as they
/// are, the rest by three octal digits.
fn push_byte(out: &mut Bytes, byte: u8) -> Result<(), NoMemory>
    ensures { OnOk result (out.new ≡ out.old ++ byte_text byte) }
{
    match byte {
        b'"' | b'\\' | b'?' => out.push(&[b'\\', byte]),
        b' '..=b'~' => out.push(&[byte]),
        _ => out.push(&[
            b'\\',
            b'0' + byte / 64,
            b'0' + byte / 8 % 8,
            b'0' + byte % 8,
        ]),
    }
}

fn push_bytes(out: &mut Bytes, bytes: &[u8]) -> Result<(), NoMemory>
    ensures { OnOk result (out.new ≡ out.old ++ bytes_text bytes.now) }
{
    for byte in bytes {
        push_byte(out, *byte)?;
    }
    Ok(())
}

/// Appends an initial value.
#[cycle(initializer)]
fn push_init(out: &mut Bytes, init: &OutInit) -> Result<(), NoMemory>
    ensures { OnOk result (out.new ≡ out.old ++ init_text (init_tree init.now)) }
{
    match init.form() {
        OutInitForm::Value { value } => push_expr(out, value),
        OutInitForm::Text { bytes } => {
            out.push(b"\"")?;
            push_bytes(out, bytes.as_slice())?;
            out.push(b"\"")
        }
        OutInitForm::Braces { first, others } => {
            out.push(b"{")?;
            push_init(out, first)?;
            push_inits(out, others.as_slice())?;
            out.push(b"}")
        }
    }
}

#[cycle(initializer)]
fn push_inits(out: &mut Bytes, others: &[OutInit]) -> Result<(), NoMemory>
    ensures { OnOk result (out.new ≡ out.old ++ inits_text (inits others.now)) }
{
    for other in others {
        out.push(b", ")?;
        push_init(out, other)?;
    }
    Ok(())
}

/// What stands behind the name of an object with an initial value.
pub fn push_value(out: &mut Bytes, init: &Option<OutInit>) -> Result<(), NoMemory>
    ensures { OnOk result (out.new ≡ out.old ++ value_text init.now) }
{
    match init {
        None => Ok(()),
        Some(init) => {
            out.push(b" = ")?;
            push_init(out, init)
        }
    }
}
