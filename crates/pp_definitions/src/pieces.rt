//! The replacement list of a macro, and the part that each token plays in it.
ghost use Rattle.std.specs.Prelude.{◌≡◌, [], ◌∷◌, ◌++◌, ◌+◌, ◌<◌, ◌≤◌, ◌^◌, ◌&&◌, ◌||◌, ◌==◌, not, is_some, length, drop, IfOk};
ghost use Rattle.std.specs.Option.{option_copied};
ghost use Rattle.model_macros.specs.MacroDefinitions as definitions;
ghost use Rattle.model_macros.specs.Macros as macros;
ghost use Rattle.model_macros.specs.ReplacementLists as lists;

use crate::heading::Heading;
use crate::rows::Row;
use crate::spelling::{first_spells, spells};
use c_tokens::{PpList, PpTok};
use cake_base::NoMemory;
use model_macros::macros::Role;
use std::alloc::Global;
use std::marker::Model;

/// A token of a replacement list, with the part that it plays there.
#[derive(Drop)]
pub struct Piece {
    pub tok: PpTok,
    pub role: Role,
}

impl Model for Piece {
    ghost use Rattle.model_macros.specs.Macros as macros;

    ghost Value = { macros.Piece };

    ghost view = { λ p. record { tok = p.tok; role = p.role } };
}

impl Heading {
    /// The rank of the argument that the token stands for, if it is a parameter.
    fn parameter(&self, tok: &PpTok) -> Option<usize>
        ensures { result ≡ lists.parameter (definitions.signature self.now) tok.now }
    {
        match &self.params {
            Some(names) => match names.rank(tok.spelling()) {
                Some(rank) => Some(rank),
                None => self.variable(names.len(), tok),
            },
            None => self.variable(0, tok),
        }
    }

    /// The rank of the variable arguments, if the token stands for them.
    fn variable(&self, count: usize, tok: &PpTok) -> Option<usize>
        requires { count ≡ length (definitions.names_of self.now.params) }
        ensures { result ≡ lists.variable (definitions.signature self.now) tok.now }
    {
        if self.variadic && spells(tok, b"__VA_ARGS__") {
            Some(count)
        } else {
            None
        }
    }

    /// Whether the token begins `__VA_OPT__ ( .. )`.
    fn is_optional(&self, tok: &PpTok) -> bool
        ensures { result ≡ lists.is_optional (definitions.signature self.now) tok.now }
    {
        self.variadic && spells(tok, b"__VA_OPT__")
    }

    /// Whether a `#` may stand before the token.
    pub fn quotable(&self, next: Option<&PpTok>) -> bool
        ensures { result ≡ lists.quotable (definitions.signature self.now) (option_copied next.entry) }
    {
        match next {
            Some(tok) => self.parameter(tok).is_some() || self.is_optional(tok),
            None => false,
        }
    }

    /// The part of a `#` before the token.
    fn quote_role(&self, next: Option<&PpTok>) -> Role
        ensures { result ≡ lists.quote_role (definitions.signature self.now) (option_copied next.entry) }
    {
        match next {
            Some(tok) => match self.parameter(tok) {
                Some(rank) => Role::Quoted(rank),
                None => Role::QuotedOptional,
            },
            None => Role::Plain,
        }
    }

    /// The part of a token that is no operator, where `beside` says that a `##` is next to it.
    fn operand_role(&self, beside: bool, tok: &PpTok) -> Role
        ensures { result ≡ lists.operand_role (definitions.signature self.now) beside tok.now (lists.parameter (definitions.signature self.now) tok.now) }
    {
        match self.parameter(tok) {
            Some(rank) if beside => Role::Written(rank),
            Some(rank) => Role::Replaced(rank),
            None if self.is_optional(tok) => Role::Optional,
            None => Role::Plain,
        }
    }

    /// Whether the token is the operator `#`.
    fn quotes(&self, tok: &PpTok, next: Option<&PpTok>) -> bool
        ensures { result ≡ (is_some self.now.params && macros.spells lists.HASH tok.now && lists.quotable (definitions.signature self.now) (option_copied next.entry)) }
    {
        self.params.is_some() && spells(tok, b"#") && self.quotable(next)
    }

    /// The part of a token that no operator before it takes.
    fn free_role(&self, glued: bool, depth: usize, tok: &PpTok, next: Option<&PpTok>) -> Role
        ensures { result ≡ lists.free_role (definitions.signature self.now) glued depth tok.now (option_copied next.entry) }
    {
        if self.quotes(tok, next) {
            self.quote_role(next)
        } else if pastes(tok, glued) {
            Role::Paste
        } else if closes(tok, depth) {
            Role::Close
        } else {
            self.operand_role(beside(glued, next), tok)
        }
    }

    /// The part of a token, by the part of the one before it.
    fn role_after(&self, last: Role, depth: usize, tok: &PpTok, next: Option<&PpTok>) -> Role
        ensures { result ≡ lists.role_after (definitions.signature self.now) last depth tok.now (option_copied next.entry) }
    {
        match last {
            Role::Paste => self.free_role(true, depth, tok, next),
            Role::Quoted(_) => Role::Operand,
            Role::Optional | Role::OptionalOperand => Role::Open,
            Role::QuotedOptional => Role::OptionalOperand,
            Role::Plain
            | Role::Replaced(_)
            | Role::Written(_)
            | Role::Operand
            | Role::Open
            | Role::Close
            | Role::File
            | Role::Line => self.free_role(false, depth, tok, next),
        }
    }
}

/// Whether the token is the operator `##`; one that a `##` stands before is its operand.
fn pastes(tok: &PpTok, glued: bool) -> bool
    ensures { result ≡ (macros.spells lists.HASHES tok.now && not glued) }
{
    spells(tok, b"##") && !glued
}

/// Whether the token ends the text of `__VA_OPT__`.
fn closes(tok: &PpTok, depth: usize) -> bool
    ensures { result ≡ (macros.spells lists.RIGHT tok.now && (depth == 1)) }
{
    spells(tok, b")") && depth == 1
}

/// Whether a `##` stands before or after a token.
fn beside(glued: bool, next: Option<&PpTok>) -> bool
    ensures { result ≡ (glued || lists.first_spells lists.HASHES (option_copied next.entry)) }
{
    glued || first_spells(next, b"##")
}

/// How many parentheses are open after the token, where `depth` were before it.
pub fn deeper(depth: usize, tok: &PpTok) -> usize
    requires { depth < 2 ^ 63 }
    ensures value { result ≡ lists.deeper depth tok.now }
    ensures bound { result ≤ depth + 1 }
{
    if spells(tok, b"(") {
        depth + 1
    } else if spells(tok, b")") {
        depth.saturating_sub(1)
    } else {
        depth
    }
}

/// How many parentheses are open after the token since `__VA_OPT__`.
fn depth_after(role: Role, depth: usize, tok: &PpTok) -> usize
    requires { depth < 2 ^ 63 }
    ensures value { result ≡ lists.depth_after role depth tok.now }
    ensures bound { result ≤ depth + 1 }
{
    match role {
        Role::Open => depth + 1,
        Role::Close => 0,
        Role::Plain if depth > 0 => deeper(depth, tok),
        Role::Plain
        | Role::Paste
        | Role::Replaced(_)
        | Role::Written(_)
        | Role::Quoted(_)
        | Role::Operand
        | Role::Optional
        | Role::QuotedOptional
        | Role::OptionalOperand
        | Role::File
        | Role::Line => depth,
    }
}

/// The tokens of the line from that rank on, each with its part.
pub fn read_pieces(
    alloc: Global,
    heading: &Heading,
    line: &PpList,
    from: usize,
) -> Result<Row<Piece>, NoMemory>
    ensures { IfOk result (λ ps. ps ≡ lists.pieces (definitions.signature heading.now) (drop from line.now)) }
{
    let mut pieces = Row::new(alloc);
    let mut last = Role::Plain;
    let mut depth: usize = 0;
    for at in from..line.count() {
        let Some(tok) = line.get(at) else {
            return Ok(pieces);
        };
        let role = heading.role_after(last, depth, tok, line.get(at + 1));
        pieces.push(Piece {
            tok: tok.copy(alloc)?,
            role,
        })?;
        depth = depth_after(role, depth, tok);
        last = role;
    }
    Ok(pieces)
}
