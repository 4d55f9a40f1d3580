//! The signs and words of the text (ISO/IEC 9899:1990, 6.1.1, 6.1.5).
ghost use Rattle.std.specs.Prelude.{◌≡◌};
ghost use Rattle.model_c89.specs.Signs89.{sign_text, logic_text, prefix_text, suffix_text, storage_text, storage_of};
ghost use Rattle.model_c89.specs.SpellingParts89.{const_text};
ghost use Rattle.c89_tree.specs.UnitExprForms as e;
ghost use Rattle.c89_tree.specs.UnitProgramForms as p;

use c89_tree::{OutPrefix, OutStorage, OutSuffix};
use model_types::numbers::BinOp;
use model_types::operators::LogicOp;

/// The sign of a binary operator.
pub fn sign(op: BinOp) -> &'static [u8]
    ensures { result.now ≡ sign_text op }
{
    match op {
        BinOp::Mul => b"*",
        BinOp::Div => b"/",
        BinOp::Rem => b"%",
        BinOp::Add => b"+",
        BinOp::Sub => b"-",
        BinOp::ShiftLeft => b"<<",
        BinOp::ShiftRight => b">>",
        BinOp::Less => b"<",
        BinOp::Greater => b">",
        BinOp::LessEqual => b"<=",
        BinOp::GreaterEqual => b">=",
        BinOp::Equal => b"==",
        BinOp::NotEqual => b"!=",
        BinOp::BitAnd => b"&",
        BinOp::BitXor => b"^",
        BinOp::BitOr => b"|",
    }
}

/// The sign of a logical operator.
pub fn logic_sign(op: LogicOp) -> &'static [u8]
    ensures { result.now ≡ logic_text op }
{
    match op {
        LogicOp::And => b"&&",
        LogicOp::Or => b"||",
    }
}

/// The sign of a unary operator.
pub fn prefix(op: OutPrefix) -> &'static [u8]
    ensures { result.now ≡ prefix_text (e.prefix_of op) }
{
    match op {
        OutPrefix::Minus => b"-",
        OutPrefix::Complement => b"~",
        OutPrefix::Not => b"!",
        OutPrefix::Deref => b"*",
        OutPrefix::AddressOf => b"&",
    }
}

/// The letters behind a constant.
pub fn suffix(suffix: OutSuffix) -> &'static [u8]
    ensures { result.now ≡ suffix_text (e.suffix_of suffix) }
{
    match suffix {
        OutSuffix::Plain => b"",
        OutSuffix::U => b"U",
        OutSuffix::L => b"L",
        OutSuffix::UL => b"UL",
    }
}

/// The word of a storage class, with the blank behind it.
pub fn storage(storage: OutStorage) -> &'static [u8]
    ensures { result.now ≡ storage_text (p.storage_of storage) }
{
    match storage {
        OutStorage::Plainly => b"",
        OutStorage::Static => b"static ",
        OutStorage::Extern => b"extern ",
    }
}

/// The word of a defined function's storage class, with the blank behind it.
pub fn function_storage(is_static: bool) -> &'static [u8]
    ensures { result.now ≡ storage_text (storage_of is_static) }
{
    if is_static { b"static " } else { b"" }
}

/// `const`, with the blank behind it, where it is asked for.
pub fn constness(is_const: bool) -> &'static [u8]
    ensures { result.now ≡ const_text is_const }
{
    if is_const { b"const " } else { b"" }
}
