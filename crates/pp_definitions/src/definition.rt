//! Definitions of macros.
ghost use Rattle.std.specs.Prelude.{◌≡◌, ◌∷◌, drop, slice_get, IfOk, MatchOption, Some, None};
ghost use Rattle.model_macros.specs.MacroDefinitions as definitions;
ghost use Rattle.model_macros.specs.Macros as macros;
ghost use Rattle.model_types.specs.Texts as texts;
ghost use Rattle.pp_definitions.specs.Answers.{Reads, rule_at};
ghost use Rattle.pp_definitions.specs.declared.errors.MacroError.TheVariants as macro_error;

use crate::constraints::{are_misnamed, has_misplaced, has_paste_at_edge, is_reserved};
use crate::errors::MacroError;
use crate::heading::{Heading, object, read_heading};
use crate::names::Names;
use crate::pieces::{Piece, read_pieces};
use crate::rows::Row;
use crate::rules::{
    LONE_HASH, MALFORMED_DEFINITION, MISPLACED_VARIABLE_ARGUMENTS, PASTE_AT_EDGE, RESERVED_NAME,
};
use c_tokens::{PpKind, PpList, PpTok};
use cake_base::{Bytes, Family, Fault, NoMemory, Place, Rule};
use model_macros::macros::Role;
use std::alloc::Global;
use std::marker::Model;

/// A macro as a `#define` line defines it (ISO/IEC 9899:2024, 6.10.5). Contracts see the place of its
/// directive's `#`, its name, the names of its parameters where it is like a function, whether it
/// takes variable arguments, and its replacement list.
#[derive(Drop)]
pub struct MacroDef {
    at: Place,
    heading: Heading,
    body: Row<Piece>,
}

impl Model for MacroDef {
    ghost use Rattle.model_macros.specs.Macros as macros;
    ghost use Rattle.model_types.specs.Texts as texts;

    ghost Value = { macros.Macro };

    ghost view = { λ d. record { at = d.at; name = d.heading.name; params = d.heading.params; variadic = d.heading.variadic; body = d.body } };
}

impl MacroDef {
    /// The place of the `#` of its directive.
    pub fn at(&self) -> Place
        ensures { result ≡ self.now.at }
    {
        self.at
    }

    /// The name of the macro.
    pub fn name(&self) -> &[u8]
        ensures { result.now ≡ self.now.name }
    {
        self.heading.name.as_slice()
    }

    /// The names of its parameters, where it is like a function.
    pub fn params(&self) -> &Option<Names>
        ensures { result.now ≡ self.now.params }
    {
        &self.heading.params
    }

    /// Whether it takes variable arguments.
    pub fn is_variadic(&self) -> bool
        ensures { result ≡ self.now.variadic }
    {
        self.heading.variadic
    }

    /// Its replacement list.
    pub fn body(&self) -> &[Piece]
        ensures { result.now ≡ self.now.body }
    {
        self.body.as_slice()
    }

    /// Whether the definition may stand where the other one stands already.
    pub fn same(&self, other: &MacroDef) -> bool
        ensures { result ≡ macros.same_definition other.now self.now }
    {
        same_params(other.params(), self.params())
            && other.is_variadic() == self.is_variadic()
            && same_body(other.body(), self.body())
    }
}

/// Whether both are parameters, and the same ones, or neither is.
fn same_params(ours: &Option<Names>, theirs: &Option<Names>) -> bool
    ensures { result ≡ macros.same_params ours.now theirs.now }
{
    match ours {
        Some(names) => match theirs {
            Some(others) => names.same(others),
            None => false,
        },
        None => theirs.is_none(),
    }
}

/// Whether both tokens are spelled alike.
fn same_spelling(piece: &Piece, other: &Piece) -> bool
    ensures { result ≡ texts.same_text piece.now.tok.spelling other.now.tok.spelling }
{
    piece.tok.spelling() == other.tok.spelling()
}

/// Whether both tokens are spelled alike, with white space before both or neither.
fn same_piece(piece: &Piece, other: &Piece) -> bool
    ensures { result ≡ macros.same_piece piece.now other.now }
{
    same_spelling(piece, other) && piece.tok.space == other.tok.space
}

/// Whether both lists have the same tokens, with white space before the same ones.
fn same_pieces(pieces: &[Piece], others: &[Piece]) -> bool
    ensures { result ≡ macros.same_pieces pieces.now others.now }
{
    let mut rest = pieces;
    let mut left = others;
    while let Some((piece, after)) = rest.split_first() {
        let Some((other, behind)) = left.split_first() else {
            return false;
        };
        if !same_piece(piece, other) {
            return false;
        }
        rest = after;
        left = behind;
    }
    left.is_empty()
}

/// Whether both lists have the same tokens; white space before the first doesn't count.
fn same_body(pieces: &[Piece], others: &[Piece]) -> bool
    ensures { result ≡ macros.same_body pieces.now others.now }
{
    let Some((piece, rest)) = pieces.split_first() else {
        return others.is_empty();
    };
    let Some((other, left)) = others.split_first() else {
        return false;
    };
    same_spelling(piece, other) && same_pieces(rest, left)
}

/// The rule of the family P with that number, broken at a place.
pub fn fault(place: Place, number: u32) -> MacroError
    ensures { result ≡ macro_error.Fault (rule_at place number) }
{
    MacroError::Fault(Fault {
        place,
        rule: Rule {
            family: Family::P,
            number,
        },
    })
}

/// The first of P03, P04, P08 and P09 that the definition breaks.
fn broken_rule(heading: &Heading, body: &[Piece], line: &PpList, from: usize) -> Option<u32>
    ensures { result ≡ definitions.broken_rule heading.now (drop from line.now) body.now }
{
    if heading.params.is_some() && heading.has_lone_hash(line, from) {
        Some(LONE_HASH)
    } else if has_paste_at_edge(body) {
        Some(PASTE_AT_EDGE)
    } else if are_misnamed(&heading.params) || has_misplaced(heading.variadic, body) {
        Some(MISPLACED_VARIABLE_ARGUMENTS)
    } else if is_reserved(heading.name.as_slice()) {
        Some(RESERVED_NAME)
    } else {
        None
    }
}

/// A predefined macro of one token (ISO/IEC 9899:2024, 6.10.10).
pub fn predefined(
    alloc: Global,
    name: &[u8],
    kind: PpKind,
    spelling: &[u8],
    role: Role,
) -> Result<MacroDef, NoMemory>
    ensures { IfOk result (λ m. m ≡ macros.predefined name.now kind spelling.now role) }
{
    let at = Place {
        file: 0,
        line: 1,
        column: 1,
        order: 0,
    };
    let tok = PpTok::new(kind, at, false, false, Bytes::of(alloc, spelling)?);
    let mut body = Row::new(alloc);
    body.push(Piece { tok, role })?;
    Ok(MacroDef {
        at,
        heading: object(Bytes::of(alloc, name)?),
        body,
    })
}

/// Reads what follows `#define` on its line.
///
/// `at` is the place of the directive's `#`, where the faults stand: P02, P03, P04, P08 and P09, of
/// which the smallest number comes first.
pub fn read_macro(alloc: Global, at: Place, line: &PpList) -> Result<MacroDef, MacroError>
    ensures { Reads (definitions.definition at line.now) at result }
{
    let Some((heading, from)) = read_heading(alloc, line)? else {
        return Err(fault(at, MALFORMED_DEFINITION));
    };
    let body = read_pieces(alloc, &heading, line, from)?;
    match broken_rule(&heading, body.as_slice(), line, from) {
        Some(number) => {
            drop(heading);
            drop(body);
            Err(fault(at, number))
        }
        None => Ok(MacroDef { at, heading, body }),
    }
}
