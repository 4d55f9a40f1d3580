//! Which identifiers are typedef names: the scopes of the declarations that have been read.

ghost use Rattle.std.specs.Prelude.{◌≡◌, ◌<◌, ◌^◌, true, None, OnOk};
ghost use Rattle.model_grammar.specs.NameScopes as spec;
ghost use Rattle.model_grammar.specs.declared.grammar.Act.TheVariants as act;
ghost use Rattle.model_grammar.specs.declared.grammar.Rule.TheVariants as rule;
ghost use Rattle.model_grammar.specs.declared.grammar.Terminal.{Terminal};

use crate::brackets::{closes, is_closing};
use crate::entries::Entries;
use cake_base::{NoMemory, Stack};
use model_grammar::grammar::{Act, Entry, Frame, Reading, Rule, Terminal};
use sqlite_items::Items;
use std::alloc::Global;
use std::marker::Model;
use std::mem;
use syntax_meanings::kinds;

/// The scopes in which typedef names are told from other identifiers (ISO/IEC 9899:2024, 6.2.1 and 6.7.9).
#[derive(Debug, Drop)]
pub struct TypedefNames {
    alloc: Global,
    entries: Entries,
    reading: Reading,
    frames: Stack<Frame>,
    brackets: Stack<u8>,
}

impl Model for TypedefNames {
    ghost use Rattle.model_grammar.specs.NameScopes.{Scopes};

    ghost Value = { Scopes };

    ghost view = { λ n. record { entries = n.entries; reading = n.reading; frames = n.frames; brackets = n.brackets } };
}

/// Nothing is known yet.
fn fresh() -> Reading
    ensures { result ≡ spec.fresh }
{
    Reading {
        is_typedef: false,
        name: 0,
        typed: false,
        parameter: false,
        near: false,
        pointer: false,
        held: None,
        waiting: 0,
    }
}

/// The type list of so many enumerations whose braces are still to come.
fn waiting_for(waiting: u32) -> Reading
    ensures { result ≡ record spec.fresh { waiting = waiting } }
{
    Reading {
        is_typedef: false,
        name: 0,
        typed: false,
        parameter: false,
        near: false,
        pointer: false,
        held: None,
        waiting,
    }
}

/// The kind of a token by itself; a kind that only the scopes give is none.
fn own_kind(kind: u8) -> u8
    ensures { result ≡ spec.own_kind kind }
{
    if kind == kinds::TYPEDEF_NAME || kind == kinds::DECLARED_NAME || kind == kinds::CLOSING {
        kinds::STRAY
    } else {
        kind
    }
}

impl TypedefNames {
    /// The scope of the file, with no names.
    pub fn new(alloc: Global) -> TypedefNames
        ensures { result ≡ spec.start }
    {
        TypedefNames {
            alloc,
            entries: Entries::new(alloc),
            reading: fresh(),
            frames: Stack::new(alloc),
            brackets: Stack::new(alloc),
        }
    }

    /// Whether the name is a typedef name.
    pub fn names_type(&self, name: u32) -> bool
        ensures { result ≡ spec.is_type self.now.entries name }
    {
        self.entries.is_type(name)
    }

    /// Whether a typedef name that comes next is no type specifier.
    pub fn is_typed(&self) -> bool
        ensures { result ≡ self.now.reading.typed }
    {
        self.reading.typed
    }

    /// The enumerations that wait for their braces.
    pub fn waiting(&self) -> usize
        ensures waiting { result ≡ self.now.reading.waiting }
        ensures bounded { result < 2 ^ 32 }
    {
        self.reading.waiting as usize
    }

    /// The parameters in the list that stands next to the name.
    pub fn held(&self) -> &Option<Items<Entry>>
        ensures { result.now ≡ self.now.reading.held }
    {
        &self.reading.held
    }

    /// The kind of a token that is no identifier.
    fn bracket_kind(&self, kind: u8) -> u8
        ensures { result ≡ spec.bracket_kind self.now.brackets kind }
    {
        match self.brackets.top() {
            None => own_kind(kind),
            Some(last) => {
                if is_closing(kind) {
                    if closes(*last, kind) {
                        kinds::CLOSING
                    } else {
                        kinds::STRAY
                    }
                } else {
                    own_kind(kind)
                }
            }
        }
    }

    /// The kind of the token.
    pub fn kind(&self, token: Terminal) -> u8
        ensures { result ≡ spec.kind self.now token }
    {
        if token.kind != kinds::NAME {
            return self.bracket_kind(token.kind);
        }
        if !self.names_type(token.name) {
            kinds::NAME
        } else if self.reading.typed {
            kinds::DECLARED_NAME
        } else {
            kinds::TYPEDEF_NAME
        }
    }

    /// The kind of the token, where nothing is known yet of a declaration that is being read.
    pub fn fresh_kind(&self, token: Terminal) -> u8
        ensures { result ≡ spec.kind (record self.now { reading = spec.fresh }) token }
    {
        if token.kind != kinds::NAME {
            self.bracket_kind(token.kind)
        } else if self.names_type(token.name) {
            kinds::TYPEDEF_NAME
        } else {
            kinds::NAME
        }
    }

    /// A token that is no part of specifiers or of a declarator.
    fn pass(&mut self)
        ensures { self.new ≡ record self.old { reading = spec.passed self.old.reading } }
    {
        self.reading = Reading {
            is_typedef: self.reading.is_typedef,
            name: self.reading.name,
            typed: false,
            parameter: false,
            near: false,
            pointer: false,
            held: None,
            waiting: self.reading.waiting,
        };
    }

    /// Opens a frame, and reads a declaration of which this is known.
    fn enter(&mut self, reading: Reading) -> Result<(), NoMemory>
        ensures { OnOk result (self.new ≡ spec.with_frame self.old reading) }
    {
        let outer = mem::replace(&mut self.reading, reading);
        self.frames.push(Frame {
            count: self.entries.len(),
            reading: outer,
        })?;
        Ok(())
    }

    /// A specifier.
    fn specify(&mut self, is_typedef: bool, typed: bool)
        ensures { self.new ≡ record self.old { reading = record self.old.reading { is_typedef = is_typedef; typed = typed; near = true; held = None } } }
    {
        self.reading.is_typedef = is_typedef;
        self.reading.typed = typed;
        self.reading.near = true;
        self.reading.held = None;
    }

    /// The word `struct`, `enum`, `typeof` or `typeof_unqual`.
    fn open_specifier(&mut self) -> Result<(), NoMemory>
        ensures { OnOk result ((token : Terminal) → self.new ≡ spec.after act.OpenSpecifier self.old token) }
    {
        let waiting = self.reading.waiting;
        self.enter(waiting_for(waiting))
    }

    /// The `:` before the type of an enumeration whose braces are still to come.
    fn await_braces(&mut self) -> Result<(), NoMemory>
        ensures { OnOk result ((token : Terminal) → self.new ≡ spec.after act.AwaitBraces self.old token) }
    {
        let waiting = self.reading.waiting.checked_add(1).ok_or(NoMemory)?;
        self.reading = waiting_for(waiting);
        Ok(())
    }

    /// The `*` of a declarator.
    fn point(&mut self)
        ensures { (token : Terminal) → self.new ≡ spec.after act.Pointer self.old token }
    {
        self.reading.typed = true;
        self.reading.near = true;
        self.reading.pointer = true;
    }

    /// The `(` round a declarator.
    fn open_declarator(&mut self) -> Result<(), NoMemory>
        ensures { OnOk result ((token : Terminal) → self.new ≡ spec.after act.OpenDeclarator self.old token) }
    {
        let parameter = self.reading.parameter;
        self.enter(Reading {
            is_typedef: false,
            name: 0,
            typed: !parameter,
            parameter,
            near: true,
            pointer: false,
            held: None,
            waiting: 0,
        })
    }

    /// The `)` round a declarator.
    fn close_declarator(&mut self)
        ensures { (token : Terminal) → self.new ≡ spec.after act.CloseDeclarator self.old token }
    {
        if let Some(frame) = self.frames.pop() {
            self.entries.truncate(frame.count);
            let inner = mem::replace(&mut self.reading, frame.reading);
            self.reading.name = inner.name;
            self.reading.near = inner.near && !inner.pointer;
            self.reading.held = inner.held;
        }
    }

    /// The name in a declarator.
    fn declare_next(&mut self, token: Terminal)
        ensures { self.new ≡ spec.after act.DeclaratorName self.old token }
    {
        self.reading.name = token.name;
        self.reading.typed = false;
        self.reading.parameter = false;
        self.reading.near = true;
        self.reading.held = None;
    }

    /// The `]` of an array declarator.
    fn close_array(&mut self)
        ensures { (token : Terminal) → self.new ≡ spec.after act.CloseArray self.old token }
    {
        if let Some(frame) = self.frames.pop() {
            self.entries.truncate(frame.count);
            self.reading = frame.reading;
            self.reading.near = false;
        }
    }

    /// The `)` of a list of parameters.
    fn close_parameters(&mut self) -> Result<(), NoMemory>
        ensures { OnOk result ((token : Terminal) → self.new ≡ spec.after act.CloseParameters self.old token) }
    {
        if let Some(frame) = self.frames.pop() {
            self.reading = frame.reading;
            if self.reading.near {
                self.reading.held = Some(self.entries.since(self.alloc, frame.count)?);
            }
            self.entries.truncate(frame.count);
            self.reading.near = false;
        }
        Ok(())
    }

    /// The `,` between declarators.
    fn next_declarator(&mut self)
        ensures { (token : Terminal) → self.new ≡ spec.after act.NextDeclarator self.old token }
    {
        self.reading = Reading {
            is_typedef: self.reading.is_typedef,
            name: 0,
            typed: true,
            parameter: false,
            near: false,
            pointer: false,
            held: None,
            waiting: 0,
        };
    }

    /// The `{` of a block.
    fn open_block(&mut self) -> Result<(), NoMemory>
        ensures { OnOk result ((token : Terminal) → self.new ≡ spec.after act.OpenBlock self.old token) }
    {
        let outer = mem::replace(&mut self.reading, fresh());
        let count = self.entries.len();
        if let Some(parameters) = &outer.held {
            self.entries.extend(parameters.as_slice())?;
        }
        self.frames.push(Frame {
            count,
            reading: outer,
        })?;
        Ok(())
    }

    /// The `}` of a block.
    fn close_block(&mut self)
        ensures { (token : Terminal) → self.new ≡ spec.after act.CloseBlock self.old token }
    {
        if let Some(frame) = self.frames.pop() {
            self.entries.truncate(frame.count);
            self.reading = frame.reading;
            self.pass();
        }
    }

    /// The end of a structure, an enumeration or `typeof`.
    fn leave_specifier(&mut self)
        ensures { self.new ≡ spec.close rule.Struct self.old }
    {
        if let Some(frame) = self.frames.pop() {
            self.entries.truncate(frame.count);
            self.reading = frame.reading;
            self.specify(self.reading.is_typedef, true);
        }
    }

    /// The scope of `if` or `for` ends.
    fn leave_scope(&mut self)
        ensures { self.new ≡ spec.close rule.If self.old }
    {
        if let Some(frame) = self.frames.pop() {
            self.entries.truncate(frame.count);
            self.reading = fresh();
        }
    }

    /// A token.
    pub fn after(&mut self, act: Act, token: Terminal) -> Result<(), NoMemory>
        ensures { OnOk result (self.new ≡ spec.after act self.old token) }
    {
        match act {
            Act::Pass => self.pass(),
            Act::Keep => {}
            Act::Specifier => self.specify(self.reading.is_typedef, self.reading.typed),
            Act::Typedef => self.specify(true, self.reading.typed),
            Act::TypeSpecifier => self.specify(self.reading.is_typedef, true),
            Act::OpenSpecifier => self.open_specifier()?,
            Act::Enclose => self.reading = fresh(),
            Act::AwaitBraces => self.await_braces()?,
            Act::Pointer => self.point(),
            Act::OpenDeclarator => self.open_declarator()?,
            Act::CloseDeclarator => self.close_declarator(),
            Act::DeclaratorName => self.declare_next(token),
            Act::OpenArray => self.enter(fresh())?,
            Act::CloseArray => self.close_array(),
            Act::OpenParameters => self.enter(fresh())?,
            Act::CloseParameters => self.close_parameters()?,
            Act::NextParameter => self.reading = fresh(),
            Act::NextDeclarator => self.next_declarator(),
            Act::EndDeclaration => self.reading = fresh(),
            Act::OpenScope => self.enter(fresh())?,
            Act::OpenBlock => self.open_block()?,
            Act::CloseBlock => self.close_block(),
            Act::OpenBalanced => self.brackets.push(token.kind)?,
            Act::CloseBalanced => {
                let _ = self.brackets.pop();
            }
        }
        Ok(())
    }

    /// The end of a nonterminal.
    pub fn close(&mut self, rule: Rule) -> Result<(), NoMemory>
        ensures { OnOk result (self.new ≡ spec.close rule self.old) }
    {
        match rule {
            Rule::Declared => self.entries.push(Entry {
                name: self.reading.name,
                is_type: self.reading.is_typedef,
            })?,
            Rule::ParamSpecs => self.reading.parameter = true,
            Rule::Body => self.reading.is_typedef = false,
            Rule::Struct | Rule::Enum | Rule::Typeof => self.leave_specifier(),
            Rule::If | Rule::For => self.leave_scope(),
            _ => {}
        }
        Ok(())
    }
}
