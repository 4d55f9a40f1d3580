//! How many parts are open, and how high a part has become, as far as the limit on nesting counts them.

ghost use Rattle.std.specs.Prelude.{◌≡◌, ◌+◌, ℕ, false};
ghost use Rattle.grammar_laws.specs.DepthPlace as depth;
ghost use Rattle.model_grammar.specs.Grammar as grammar;
ghost use Rattle.c_parser.specs.Counting.{counted, Counts, Tells};

use model_grammar::grammar::Rule;

/// How many parts may be open at a token, and how high a part may be (M06).
const MAX_PARTS: usize = 1000;

/// The heights of what has been read of a form. Each number past the limit stands as the first that passes it.
#[derive(Clone, Copy, Debug)]
pub struct Heights {
    /// That of the piece.
    pub piece: usize,
    /// That of the highest part that ended at its end and that the next token is still to show.
    pub ended: usize,
}

/// Where a form is read.
#[derive(Clone, Copy, Debug)]
pub struct Context {
    /// How many parts are open, or the first number that passes the limit.
    pub parts: usize,
    /// Whether the turns of the form are those of a chain.
    pub chain: bool,
    /// Whether what is read is built.
    pub builds: bool,
}

/// Whether the nonterminal counts as a part.
#[tactic(auto, unfolding(model_grammar::specs::Grammar::is_part))]
fn is_part(rule: Rule) -> bool
    ensures { result ≡ grammar.is_part rule }
{
    match rule {
        Rule::Struct
        | Rule::Enum
        | Rule::Declarator
        | Rule::Abstract
        | Rule::Braces
        | Rule::Block
        | Rule::Statement
        | Rule::Expr
        | Rule::Assign
        | Rule::Cond
        | Rule::Cast
        | Rule::Unary
        | Rule::Typeof => true,
        _ => false,
    }
}

/// Whether the repetition in the nonterminal is a chain that is read from the left.
fn is_chain(rule: Rule) -> bool
    ensures { result ≡ depth.is_chain rule }
{
    match rule {
        Rule::Oror
        | Rule::Andand
        | Rule::Bor
        | Rule::Bxor
        | Rule::Band
        | Rule::Equal
        | Rule::Rel
        | Rule::Shift
        | Rule::Sum
        | Rule::Product
        | Rule::Expr
        | Rule::Postfix => true,
        _ => false,
    }
}

/// One more, as far as it counts.
fn one_more(count: usize) -> usize
    ensures { result ≡ counted (count + 1) }
{
    if count > MAX_PARTS {
        MAX_PARTS + 1
    } else {
        count + 1
    }
}

impl Heights {
    /// Those of nothing.
    pub fn none() -> Heights
        ensures { result ≡ record { piece = 0; ended = 0 } }
    {
        Heights { piece: 0, ended: 0 }
    }

    /// Those of an inner piece of which nothing is read yet.
    pub fn inside(self) -> Heights
        ensures { (p : depth.Piece) → Counts self p → Counts result (depth.behind p.ending depth.nothing_read) }
    {
        Heights {
            piece: 0,
            ended: self.ended,
        }
    }

    /// Those behind a token.
    pub fn behind_token(self) -> Heights
        ensures { (p : depth.Piece) (n : ℕ) → Counts self p → Counts result (depth.joined p (depth.one_token n)) }
    {
        Heights {
            piece: self.piece,
            ended: 0,
        }
    }

    /// Those behind a nonterminal that is read behind the outer ones.
    pub fn behind_rule(self, rule: Rule, outer: Heights) -> Heights
        ensures { (p x : depth.Piece) → Counts outer p → Counts self (depth.behind p.ending x) → Counts result (depth.joined p (depth.ends (grammar.is_part rule) x)) }
    {
        if !is_part(rule) {
            return Heights {
                piece: outer.piece.max(self.piece),
                ended: self.ended,
            };
        }
        let part = one_more(self.piece);
        Heights {
            piece: outer.piece.max(part),
            ended: self.ended.max(part),
        }
    }

    /// Those behind one more turn of a chain that is read behind the outer ones.
    pub fn behind_turn(self, outer: Heights) -> Heights
        ensures { (p x : depth.Piece) → Counts outer p → Counts self (depth.behind p.ending x) → Counts result (depth.chained p x) }
    {
        Heights {
            piece: one_more(outer.piece.max(self.piece)),
            ended: self.ended,
        }
    }
}

impl Context {
    /// Where nothing is open.
    pub fn outermost(builds: bool) -> Context
        ensures { result ≡ record { parts = 0; chain = false; builds = builds } }
    {
        Context {
            parts: 0,
            chain: false,
            builds,
        }
    }

    /// Inside the nonterminal.
    pub fn inside(self, rule: Rule) -> Context
        ensures parts { (n : ℕ) → self.parts ≡ counted n → result.parts ≡ counted (depth.deeper (grammar.is_part rule) n) }
        ensures chain { result.chain ≡ depth.is_chain rule }
        ensures builds { result.builds ≡ self.builds }
    {
        Context {
            parts: if is_part(rule) {
                one_more(self.parts)
            } else {
                self.parts
            },
            chain: is_chain(rule),
            builds: self.builds,
        }
    }

    /// In a turn of the form.
    pub fn turn(self) -> Context
        ensures { result ≡ record { parts = self.parts; chain = false; builds = self.builds } }
    {
        Context {
            parts: self.parts,
            chain: false,
            builds: self.builds,
        }
    }

    /// Whether a token there, behind these heights, is met in too many parts.
    pub fn is_too_deep(self, heights: Heights) -> bool
        ensures { Tells self heights result }
    {
        self.parts > MAX_PARTS || heights.ended > MAX_PARTS
    }
}
