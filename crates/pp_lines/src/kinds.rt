//! The directive that a line is.
ghost use Rattle.std.specs.Prelude.{◌≡◌, ◌≢◌, true, false};
ghost use Rattle.model_preprocessing.specs.Directives as directives;

use c_tokens::{PpKind, PpTok};
use model_preprocessing::directives::LineKind;

/// The directive of a name (ISO/IEC 9899:2024, 6.10.1).
fn named_kind(name: &[u8]) -> LineKind
    ensures { result ≡ directives.named_kind name.now }
{
    if name == b"if".as_slice() {
        LineKind::If
    } else if name == b"ifdef".as_slice() {
        LineKind::Ifdef
    } else if name == b"ifndef".as_slice() {
        LineKind::Ifndef
    } else if name == b"elif".as_slice() {
        LineKind::Elif
    } else if name == b"elifdef".as_slice() {
        LineKind::Elifdef
    } else if name == b"elifndef".as_slice() {
        LineKind::Elifndef
    } else if name == b"else".as_slice() {
        LineKind::Else
    } else if name == b"endif".as_slice() {
        LineKind::Endif
    } else if name == b"include".as_slice() {
        LineKind::Include
    } else if name == b"embed".as_slice() {
        LineKind::Embed
    } else if name == b"define".as_slice() {
        LineKind::Define
    } else if name == b"undef".as_slice() {
        LineKind::Undef
    } else if name == b"line".as_slice() {
        LineKind::Line
    } else if name == b"error".as_slice() {
        LineKind::Error
    } else if name == b"warning".as_slice() {
        LineKind::Warning
    } else if name == b"pragma".as_slice() {
        LineKind::Pragma
    } else {
        LineKind::Unknown
    }
}

/// The directive whose `#` the token follows.
pub fn kind_after(tok: &PpTok) -> LineKind
    ensures { result ≡ directives.kind_after tok.now tok.now.kind }
{
    match tok.kind {
        PpKind::Name => named_kind(tok.spelling()),
        PpKind::Number => LineKind::Line,
        PpKind::Header => LineKind::Unknown,
        PpKind::Character => LineKind::Unknown,
        PpKind::Text => LineKind::Unknown,
        PpKind::Punct => LineKind::Unknown,
        PpKind::Other => LineKind::Unknown,
    }
}

/// Whether a part of this kind is text.
pub fn is_text(kind: LineKind) -> bool
    ensures { result ≡ directives.is_text kind }
{
    match kind {
        LineKind::Text => true,
        LineKind::If => false,
        LineKind::Ifdef => false,
        LineKind::Ifndef => false,
        LineKind::Elif => false,
        LineKind::Elifdef => false,
        LineKind::Elifndef => false,
        LineKind::Else => false,
        LineKind::Endif => false,
        LineKind::Include => false,
        LineKind::Embed => false,
        LineKind::Define => false,
        LineKind::Undef => false,
        LineKind::Line => false,
        LineKind::Error => false,
        LineKind::Warning => false,
        LineKind::Pragma => false,
        LineKind::Null => false,
        LineKind::Unknown => false,
    }
}

/// Whether a part of this kind is an include.
pub fn is_include(kind: LineKind) -> bool
    ensures yes { result ≡ true → kind ≡ LineKind.Include }
    ensures no { result ≡ false → kind ≢ LineKind.Include }
{
    match kind {
        LineKind::Include => true,
        LineKind::Text => false,
        LineKind::If => false,
        LineKind::Ifdef => false,
        LineKind::Ifndef => false,
        LineKind::Elif => false,
        LineKind::Elifdef => false,
        LineKind::Elifndef => false,
        LineKind::Else => false,
        LineKind::Endif => false,
        LineKind::Embed => false,
        LineKind::Define => false,
        LineKind::Undef => false,
        LineKind::Line => false,
        LineKind::Error => false,
        LineKind::Warning => false,
        LineKind::Pragma => false,
        LineKind::Null => false,
        LineKind::Unknown => false,
    }
}
