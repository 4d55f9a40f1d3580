//! The constraints on replacement lists, and the names that no directive defines.
ghost use Rattle.std.specs.Prelude.{◌≡◌, ◌&&◌, ◌||◌, not, true, false, drop, is_some, slice_get, MatchOption, Some, None, [], ◌∷◌};
ghost use Rattle.std.specs.Option.{option_copied};
ghost use Rattle.model_macros.specs.MacroDefinitions as definitions;
ghost use Rattle.model_macros.specs.Macros as macros;
ghost use Rattle.model_macros.specs.ReplacementLists as lists;

use crate::heading::Heading;
use crate::names::Names;
use crate::pieces::Piece;
use crate::spelling::spells;
use c_tokens::{PpList, PpTok};
use model_macros::macros::Role;

impl Heading {
    /// Whether the token is a `#` that neither a parameter nor `__VA_OPT__` follows (6.10.5.3).
    fn is_lone_hash(&self, tok: &PpTok, next: Option<&PpTok>) -> bool
        ensures { result ≡ (macros.spells lists.HASH tok.now && not (lists.quotable (definitions.signature self.now) (option_copied next.entry))) }
    {
        spells(tok, b"#") && !self.quotable(next)
    }

    /// Whether there is such a `#` from that rank of the line on.
    pub fn has_lone_hash(&self, line: &PpList, from: usize) -> bool
        ensures { result ≡ definitions.lone_hash (definitions.signature self.now) (drop from line.now) }
    {
        for at in from..line.count() {
            let Some(tok) = line.get(at) else {
                return false;
            };
            if self.is_lone_hash(tok, line.get(at + 1)) {
                return true;
            }
        }
        false
    }
}

/// Whether the text of `__VA_OPT__` begins after the token.
fn is_open(role: Role) -> bool
    ensures { result ≡ lists.is_open role }
{
    match role {
        Role::Open => true,
        Role::Plain
        | Role::Paste
        | Role::Replaced(_)
        | Role::Written(_)
        | Role::Quoted(_)
        | Role::Operand
        | Role::Optional
        | Role::QuotedOptional
        | Role::OptionalOperand
        | Role::Close
        | Role::File
        | Role::Line => false,
    }
}

/// Whether the text of `__VA_OPT__` ends before the token.
pub fn is_close(role: Role) -> bool
    ensures { result ≡ lists.is_close role }
{
    match role {
        Role::Close => true,
        Role::Plain
        | Role::Paste
        | Role::Replaced(_)
        | Role::Written(_)
        | Role::Quoted(_)
        | Role::Operand
        | Role::Optional
        | Role::QuotedOptional
        | Role::OptionalOperand
        | Role::Open
        | Role::File
        | Role::Line => false,
    }
}

/// Whether a list or the text of `__VA_OPT__` ends here.
fn ends_at(rest: &[Piece]) -> bool
    ensures { result ≡ definitions.ends_at rest.now }
{
    match rest.first() {
        Some(piece) => is_close(piece.role),
        None => true,
    }
}

/// Whether a parenthesis stands here.
fn opens_at(rest: &[Piece]) -> bool
    ensures { result ≡ definitions.opens_at rest.now }
{
    match rest.first() {
        Some(piece) => spells(&piece.tok, b"("),
        None => false,
    }
}

/// Whether the token is a `##` at an end of its list.
fn pastes_at_edge(edge: bool, piece: &Piece, rest: &[Piece]) -> bool
    ensures { result ≡ (macros.spells lists.HASHES piece.now.tok && (edge || definitions.ends_at rest.now)) }
{
    spells(&piece.tok, b"##") && (edge || ends_at(rest))
}

/// Whether a `##` begins or ends the list or the text of `__VA_OPT__` (6.10.5.4).
pub fn has_paste_at_edge(pieces: &[Piece]) -> bool
    ensures { result ≡ definitions.paste_at_edge true pieces.now }
{
    let mut edge = true;
    let mut rest = pieces;
    while let Some((piece, after)) = rest.split_first() {
        if pastes_at_edge(edge, piece, after) {
            return true;
        }
        edge = is_open(piece.role);
        rest = after;
    }
    false
}

/// Whether the token is a name of the variable arguments where it may not stand (6.10.5.2).
fn is_misplaced(variadic: bool, inside: bool, piece: &Piece, rest: &[Piece]) -> bool
    ensures { result ≡ definitions.misplaced_at variadic inside piece.now rest.now }
{
    if spells(&piece.tok, b"__VA_ARGS__") && !variadic {
        return true;
    }
    spells(&piece.tok, b"__VA_OPT__") && (!variadic || inside || !opens_at(rest))
}

/// Whether the text of `__VA_OPT__` goes on after the token.
fn inside_after(inside: bool, role: Role) -> bool
    ensures { result ≡ ((inside || lists.is_open role) && not (lists.is_close role)) }
{
    (inside || is_open(role)) && !is_close(role)
}

/// Whether the list has such a name, or a `__VA_OPT__` that isn't ended.
pub fn has_misplaced(variadic: bool, pieces: &[Piece]) -> bool
    ensures { result ≡ definitions.misplaced variadic false pieces.now }
{
    let mut inside = false;
    let mut rest = pieces;
    while let Some((piece, after)) = rest.split_first() {
        if is_misplaced(variadic, inside, piece, after) {
            return true;
        }
        inside = inside_after(inside, piece.role);
        rest = after;
    }
    inside
}

/// Whether a name of the variable arguments is a parameter.
pub fn are_misnamed(params: &Option<Names>) -> bool
    ensures { result ≡ definitions.misnamed (definitions.names_of params.now) }
{
    match params {
        Some(names) => {
            names.rank(b"__VA_ARGS__").is_some() || names.rank(b"__VA_OPT__").is_some()
        }
        None => false,
    }
}

/// Whether no directive may define the name (6.10.10.1).
pub fn is_reserved(name: &[u8]) -> bool
    ensures { result ≡ definitions.reserved name.now }
{
    name == b"defined".as_slice()
        || name == b"__VA_ARGS__".as_slice()
        || name == b"__VA_OPT__".as_slice()
        || is_predefined(name)
}

/// Whether a predefined macro has the name.
fn is_predefined(name: &[u8]) -> bool
    ensures { result ≡ definitions.predefined_name name.now }
{
    name == b"__FILE__".as_slice()
        || name == b"__LINE__".as_slice()
        || name == b"__STDC__".as_slice()
        || name == b"__STDC_VERSION__".as_slice()
        || name == b"__STDC_HOSTED__".as_slice()
        || name == b"__CAKE__".as_slice()
}
