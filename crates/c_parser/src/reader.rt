//! The reading of the parser's table.

ghost use Rattle.std.specs.Prelude.{◌≡◌, ◌++◌, OnOk, slice_get};
ghost use Rattle.model_grammar.specs.GrammarForm as shape;
ghost use Rattle.model_grammar.specs.GrammarForm.{mem, word, many, loop};
ghost use Rattle.grammar_laws.specs.FirstTokens as decided;
ghost use Rattle.grammar_laws.specs.apparatus.LeftWeights.{IsWalkable};
ghost use Rattle.grammar_laws.specs.ParserWalk as walk;
ghost use Rattle.grammar_laws.specs.ParserSets.{tables};
ghost use Rattle.grammar_laws.specs.ParserTests.{parsed};
ghost use Rattle.model_grammar.specs.SyntaxActions.{node_value};
ghost use Rattle.model_grammar.specs.SyntaxValues.{token_value};
ghost use Rattle.c_parser.specs.View.{form};
ghost use Rattle.c_parser.specs.Reading.{Told, ToldTurn};
ghost use Rattle.c_parser.specs.TreeValues.{only_if};
ghost use Rattle.syntax_meanings.specs.Meanings.{values_seen};

use crate::forms::{Form, body};
use crate::heights::{Context, Heights};
use crate::lookahead::{passes, split};
use crate::sets::{is_hollow, is_one, may_begin};
use crate::typedef_names::TypedefNames;
use c_tokens::CList;
use cake_base::NoMemory;
use model_grammar::grammar::{Act, Rule, Terminal, Test};
use sqlite_items::Items;
use std::alloc::Global;
use syntax_actions::node;
use syntax_meanings::{Value, leaf};

/// Why reading stopped.
#[derive(Clone, Copy, Debug, PartialEq, Eq)]
pub enum Stop {
    /// There is no memory.
    Memory,
    /// The next token is in its place and is the first that is met in too many parts.
    Deep,
    /// The next token is not in its place, or the tokens end too early.
    Fault,
}

impl From<NoMemory> for Stop {
    ghost use Rattle.std.specs.Prelude.{◌≡◌};
    ghost use Rattle.c_parser.specs.declared.reader.Stop.TheVariants.{Memory};

    ghost from_gives = { λ _ e. e ≡ Memory };

    fn from(_error: NoMemory) -> Stop {
        Stop::Memory
    }
}

/// What is left to read, the scopes, and the heights of what has been read.
#[derive(Debug, Drop)]
pub struct Reader<'a> {
    pub rest: &'a [Terminal],
    pub names: TypedefNames,
    pub heights: Heights,
}

impl<'a> Reader<'a> {
    /// The kind of the next token, or 0 at the end.
    #[tactic(auto, unfolding(grammar_laws::specs::ParserWalk::ahead))]
    fn ahead(&self) -> u8
        ensures { result ≡ walk.ahead tables parsed self.now.names self.now.rest.now }
    {
        match split(self.rest) {
            None => 0,
            Some((token, _)) => self.names.kind(token),
        }
    }

    /// Reads a token of one of the kinds.
    ///
    /// It isn't inlined, so that its values don't stand on the stack of the recursion.
    #[inline(never)]
    fn word<'t>(
        &mut self,
        tokens: &'t CList,
        kinds: &[u8],
        act: Act,
        context: Context,
        out: &mut Items<Value<'t>>,
    ) -> Result<(), Stop>
        ensures { Told tokens.now (word kinds.now act) context self.old self.new (values_seen out.old) (values_seen out.new) result }
    {
        match split(self.rest) {
            None => Err(Stop::Fault),
            Some((token, rest)) => {
                if !is_one(kinds, self.names.kind(token)) {
                    return Err(Stop::Fault);
                }
                if context.is_too_deep(self.heights) {
                    return Err(Stop::Deep);
                }
                self.names.after(act, token)?;
                self.rest = rest;
                self.heights = self.heights.behind_token();
                put_leaf(tokens, token.rank, context.builds, out)?;
                Ok(())
            }
        }
    }
}

/// Whether the form derives no token, too.
#[tactic(auto, unfolding(grammar_laws::specs::FirstTokens::nullable))]
fn nullable(f: &Form) -> bool
    ensures { result ≡ decided.nullable tables (form f.now) }
{
    match f {
        Form::Word(_, _) => false,
        Form::Rule(rule) => is_hollow(*rule),
        Form::Empty => true,
        Form::Then(f, g) => nullable(f) && nullable(g),
        Form::Or(f, g) => nullable(f) || nullable(g),
        Form::Maybe(_) => true,
        Form::Many(_) => true,
        Form::When(_, f, g) => nullable(f) || nullable(g),
        Form::Loop(_, _) => true,
    }
}

/// Whether the form may begin with what comes next.
#[tactic(auto, using(grammar_laws::proofs::kinds::KindSets::mem_append, grammar_laws::proofs::kinds::KindSets::mem_then), unfolding(grammar_laws::specs::FirstTokens::first, model_grammar::specs::GrammarForm::mem))]
fn begins(f: &Form, ahead: u8) -> bool
    ensures { result ≡ mem ahead (decided.first tables (form f.now)) }
{
    match f {
        Form::Word(kinds, _) => is_one(kinds, ahead),
        Form::Rule(rule) => may_begin(*rule, ahead),
        Form::Empty => false,
        Form::Then(f, g) => begins(f, ahead) || nullable(f) && begins(g, ahead),
        Form::Or(f, g) => begins(f, ahead) || begins(g, ahead),
        Form::Maybe(f) => begins(f, ahead),
        Form::Many(f) => begins(f, ahead),
        Form::When(_, f, g) => begins(f, ahead) || begins(g, ahead),
        Form::Loop(_, f) => begins(f, ahead),
    }
}

/// Whether the first of two alternatives is taken.
#[tactic(auto, unfolding(grammar_laws::specs::ParserWalk::goes_left))]
fn goes_left(f: &Form, g: &Form, ahead: u8) -> bool
    ensures { result ≡ walk.goes_left tables parsed (form f.now) (form g.now) ahead }
{
    begins(f, ahead) || nullable(f) && !begins(g, ahead)
}

/// Puts what the token of this rank stands for behind the others, where that is built.
fn put_leaf<'t>(
    tokens: &'t CList,
    rank: usize,
    builds: bool,
    out: &mut Items<Value<'t>>,
) -> Result<(), NoMemory>
    ensures { OnOk result (values_seen out.new ≡ values_seen out.old ++ only_if builds (token_value (slice_get tokens.now rank))) }
{
    if builds {
        let made = leaf(tokens, rank)?;
        out.push(made)?;
    }
    Ok(())
}

/// Puts what the production makes of the symbols behind the others, where that is built.
///
/// It isn't inlined, so that its values don't stand on the stack of the recursion.
#[inline(never)]
fn put_node<'t>(
    alloc: Global,
    rule: Rule,
    symbols: Items<Value<'t>>,
    builds: bool,
    out: &mut Items<Value<'t>>,
) -> Result<(), NoMemory>
    ensures { OnOk result (values_seen out.new ≡ values_seen out.old ++ only_if builds (node_value rule (values_seen symbols.entry))) }
{
    if builds {
        let made = node(alloc, rule, symbols)?;
        out.push(made)?;
    }
    Ok(())
}

/// Reads what the nonterminal derives, and puts what its tree stands for behind the others, where that is built.
#[cycle(read)]
fn read_rule<'t>(
    alloc: Global,
    tokens: &'t CList,
    reader: &mut Reader<'_>,
    rule: Rule,
    context: Context,
    out: &mut Items<Value<'t>>,
) -> Result<(), Stop>
    ensures { Told tokens.now (shape.rule rule) context reader.old reader.new (values_seen out.old) (values_seen out.new) result }
{
    let outer = reader.heights;
    reader.heights = outer.inside();
    let mut inner = Items::new(alloc);
    read(
        alloc,
        tokens,
        reader,
        body(rule),
        context.inside(rule),
        &mut inner,
    )?;
    reader.heights = reader.heights.behind_rule(rule, outer);
    reader.names.close(rule)?;
    put_node(alloc, rule, inner, context.builds, out)?;
    Ok(())
}

/// Reads the form once more.
#[cycle(read)]
fn read_turn<'t>(
    alloc: Global,
    tokens: &'t CList,
    reader: &mut Reader<'_>,
    f: &Form,
    context: Context,
    out: &mut Items<Value<'t>>,
) -> Result<(), Stop>
    requires { IsWalkable (form f.now) }
    ensures { ToldTurn tokens.now (form f.now) context reader.old reader.new (values_seen out.old) (values_seen out.new) result }
{
    if !context.chain {
        return read(alloc, tokens, reader, f, context, out);
    }
    let inner = context.turn();
    let outer = reader.heights;
    reader.heights = outer.inside();
    read(alloc, tokens, reader, f, inner, out)?;
    reader.heights = reader.heights.behind_turn(outer);
    Ok(())
}

/// Reads the form as often as it begins with what comes next.
#[cycle(read)]
fn read_many<'t>(
    alloc: Global,
    tokens: &'t CList,
    reader: &mut Reader<'_>,
    f: &Form,
    context: Context,
    out: &mut Items<Value<'t>>,
) -> Result<(), Stop>
    requires { IsWalkable (many (form f.now)) }
    ensures { Told tokens.now (many (form f.now)) context reader.old reader.new (values_seen out.old) (values_seen out.new) result }
{
    while begins(f, reader.ahead()) {
        read_turn(alloc, tokens, reader, f, context, out)?;
    }
    Ok(())
}

/// Reads the form as often as the test holds.
#[cycle(read)]
fn read_loop<'t>(
    alloc: Global,
    tokens: &'t CList,
    reader: &mut Reader<'_>,
    test: Test,
    f: &Form,
    context: Context,
    out: &mut Items<Value<'t>>,
) -> Result<(), Stop>
    requires { IsWalkable (loop test (form f.now)) }
    ensures { Told tokens.now (loop test (form f.now)) context reader.old reader.new (values_seen out.old) (values_seen out.new) result }
{
    while passes(test, &reader.names, reader.rest) {
        read_turn(alloc, tokens, reader, f, context, out)?;
    }
    Ok(())
}

/// Reads what the form derives, and puts what its trees stand for behind the others, where that is built.
///
/// It takes the choices of the table by the next token and by its tests, and reads each token once. It stops at the first
/// token with which the table can't go on, or before it at the first that is met in too many parts: `reader.rest` begins
/// with that token.
#[cycle(read)]
pub fn read<'t>(
    alloc: Global,
    tokens: &'t CList,
    reader: &mut Reader<'_>,
    f: &Form,
    context: Context,
    out: &mut Items<Value<'t>>,
) -> Result<(), Stop>
    requires { IsWalkable (form f.now) }
    ensures { Told tokens.now (form f.now) context reader.old reader.new (values_seen out.old) (values_seen out.new) result }
{
    match f {
        Form::Word(kinds, act) => reader.word(tokens, kinds, *act, context, out),
        Form::Rule(rule) => read_rule(alloc, tokens, reader, *rule, context, out),
        Form::Empty => Ok(()),
        Form::Then(f, g) => {
            read(alloc, tokens, reader, f, context, out)?;
            read(alloc, tokens, reader, g, context, out)
        }
        Form::Or(f, g) => {
            if goes_left(f, g, reader.ahead()) {
                read(alloc, tokens, reader, f, context, out)
            } else {
                read(alloc, tokens, reader, g, context, out)
            }
        }
        Form::Maybe(f) => {
            if begins(f, reader.ahead()) {
                read(alloc, tokens, reader, f, context, out)
            } else {
                Ok(())
            }
        }
        Form::Many(f) => read_many(alloc, tokens, reader, f, context, out),
        Form::When(test, f, g) => {
            if passes(*test, &reader.names, reader.rest) {
                read(alloc, tokens, reader, f, context, out)
            } else {
                read(alloc, tokens, reader, g, context, out)
            }
        }
        Form::Loop(test, f) => read_loop(alloc, tokens, reader, *test, f, context, out),
    }
}
