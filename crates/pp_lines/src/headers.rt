//! The built-in headers.
ghost use Rattle.std.specs.Prelude.{◌≡◌, ◌<◌, ◌^◌, length, Some, None, MatchOption};
ghost use Rattle.model_preprocessing.specs.Headers.{built_in_text};
ghost use Rattle.model_preprocessing.specs.FileSearch.{shown};

use model_preprocessing::headers::{
    ASSERT, CTYPE, LIMITS, STDBOOL, STDDEF, STDINT, STDIO, STDLIB, STRING,
};

/// A built-in header: its name in reports, and its text.
#[derive(Clone, Copy)]
pub struct BuiltIn {
    pub shown: &'static str,
    pub text: &'static [u8],
}

fn header(shown: &'static str, text: &'static [u8]) -> Option<BuiltIn>
    ensures { MatchOption result ⊥ (λ b. (b.shown.now ≡ shown.now) × (b.text.now ≡ text.now)) }
{
    Some(BuiltIn { shown, text })
}

/// The built-in header of that name, if there is one (ISO/IEC 9899:2024, 7.1.2).
pub fn built_in(name: &[u8]) -> Option<BuiltIn>
    ensures { MatchOption result (built_in_text name.now ≡ None) (λ b. (b.shown.now ≡ shown name.now) × (built_in_text name.now ≡ Some b.text.now) × (length b.text.now < 65536)) }
{
    if name == b"stddef.h".as_slice() {
        header("<stddef.h>", STDDEF)
    } else if name == b"stdbool.h".as_slice() {
        header("<stdbool.h>", STDBOOL)
    } else if name == b"stdint.h".as_slice() {
        header("<stdint.h>", STDINT)
    } else if name == b"limits.h".as_slice() {
        header("<limits.h>", LIMITS)
    } else if name == b"stdlib.h".as_slice() {
        header("<stdlib.h>", STDLIB)
    } else if name == b"stdio.h".as_slice() {
        header("<stdio.h>", STDIO)
    } else if name == b"string.h".as_slice() {
        header("<string.h>", STRING)
    } else if name == b"ctype.h".as_slice() {
        header("<ctype.h>", CTYPE)
    } else if name == b"assert.h".as_slice() {
        header("<assert.h>", ASSERT)
    } else {
        None
    }
}
