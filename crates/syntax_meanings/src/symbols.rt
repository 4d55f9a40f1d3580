//! The symbols of a right side that are still to be read.
ghost use Rattle.std.specs.Prelude.{◌≡◌, [], ◌∷◌, true, false, List, OnOk, MatchOption};
ghost use Rattle.model_grammar.specs.SyntaxForms as m;
ghost use Rattle.model_grammar.specs.SyntaxValues as v;
ghost use Rattle.c_tree.specs.SyntaxViews.{assertion_of, block_of, braces_of, declarator_of, external_of, member_declarations_of, parameters_of, spec_of};
ghost use Rattle.syntax_meanings.specs.FirstSymbols as first;
ghost use Rattle.syntax_meanings.specs.Meanings.{meaning_of, symbols_seen};

use crate::meanings::{Meaning, ParameterList};
use c_tokens::CTok;
use c_tree::{
    Assertion, Block, Braces, Declaration, DeclaratorForm, Expr, External, Initializer,
    MemberDeclaration, Spec, Specs, Statement, TypeName,
};
use cake_base::{NoMemory, Stack};
use model_grammar::syntax::Qualifier;
use sqlite_items::Items;
use std::alloc::Global;

/// A token, with the number of its kind.
#[derive(Clone, Copy)]
pub struct Token<'t> {
    pub kind: u8,
    pub token: &'t CTok,
}

impl<'t> Token<'t> {
    /// The token as what a symbol stands for.
    pub fn meaning(self) -> Meaning<'t>
        ensures { meaning_of result ≡ v.a_token self.entry.kind self.entry.token.now.kind self.entry.token.now.place }
    {
        Meaning::Token {
            kind: self.kind,
            token: self.token,
        }
    }
}

/// The symbols of a right side without attributes that are still to be read, the first on top.
#[derive(Drop)]
pub struct Symbols<'t> {
    pub rest: Stack<Meaning<'t>>,
}

impl<'t> Symbols<'t> {
    /// No symbol.
    pub fn new(alloc: Global) -> Symbols<'t>
        ensures { symbols_seen result ≡ [] }
    {
        Symbols {
            rest: Stack::new(alloc),
        }
    }

    /// Puts a symbol before the others.
    pub fn put(&mut self, symbol: Meaning<'t>) -> Result<(), NoMemory>
        ensures { OnOk result (symbols_seen self.new ≡ meaning_of symbol.entry ∷ symbols_seen self.old) }
    {
        self.rest.push(symbol)
    }

    /// Takes the first symbol.
    pub fn next(&mut self) -> Option<Meaning<'t>>
        ensures { MatchOption result ((symbols_seen self.old ≡ []) × (symbols_seen self.new ≡ [])) (λ symbol. symbols_seen self.old ≡ meaning_of symbol ∷ symbols_seen self.new) }
    {
        self.rest.pop()
    }

    /// Lets go of all symbols.
    pub fn clear(&mut self)
        ensures { symbols_seen self.new ≡ [] }
    {
        self.rest.clear();
    }

    /// Whether no symbol is left.
    pub fn is_empty(&self) -> bool
        ensures none { result ≡ true → symbols_seen self.now ≡ [] }
        ensures some { result ≡ false → first.is_empty (symbols_seen self.now) ≡ false }
    {
        match self.rest.top() {
            Some(_) => false,
            None => true,
        }
    }

    /// Takes the first symbol where it is a token, and else none.
    pub fn token(&mut self) -> Option<Token<'t>>
        ensures { MatchOption result
            ((first.begins_with_token (symbols_seen self.old) ≡ false) × (self.new ≡ self.old))
            (λ t. symbols_seen self.old ≡ v.a_token t.kind t.token.now.kind t.token.now.place ∷ symbols_seen self.new) }
    {
        match self.rest.top() {
            Some(Meaning::Token { .. }) => {}
            _ => return None,
        }
        match self.rest.pop() {
            Some(Meaning::Token { kind, token }) => Some(Token { kind, token }),
            Some(other) => {
                drop(other);
                None
            }
            None => None,
        }
    }

    /// Takes the first symbol where it is an expression, and else none.
    pub fn expr(&mut self) -> Option<Expr>
        ensures { MatchOption result
            ((first.begins_with_expr (symbols_seen self.old) ≡ false) × (self.new ≡ self.old))
            (λ x. symbols_seen self.old ≡ v.an_expr x ∷ symbols_seen self.new) }
    {
        match self.rest.top() {
            Some(Meaning::Expr(_)) => {}
            _ => return None,
        }
        match self.rest.pop() {
            Some(Meaning::Expr(expr)) => Some(expr),
            Some(other) => {
                drop(other);
                None
            }
            None => None,
        }
    }

    /// Takes the first symbol where it is a type name, and else none.
    pub fn type_name(&mut self) -> Option<TypeName>
        ensures { MatchOption result
            ((first.begins_with_type_name (symbols_seen self.old) ≡ false) × (self.new ≡ self.old))
            (λ x. symbols_seen self.old ≡ v.a_type_name x ∷ symbols_seen self.new) }
    {
        match self.rest.top() {
            Some(Meaning::TypeName(_)) => {}
            _ => return None,
        }
        match self.rest.pop() {
            Some(Meaning::TypeName(type_name)) => Some(type_name),
            Some(other) => {
                drop(other);
                None
            }
            None => None,
        }
    }

    /// Takes the first symbol where it is a list of specifiers, and else none.
    pub fn specs(&mut self) -> Option<Specs>
        ensures { MatchOption result
            ((first.begins_with_specs (symbols_seen self.old) ≡ false) × (self.new ≡ self.old))
            (λ x. symbols_seen self.old ≡ v.some_specs x ∷ symbols_seen self.new) }
    {
        match self.rest.top() {
            Some(Meaning::Specs(_)) => {}
            _ => return None,
        }
        match self.rest.pop() {
            Some(Meaning::Specs(specs)) => Some(specs),
            Some(other) => {
                drop(other);
                None
            }
            None => None,
        }
    }

    /// Takes the first symbol where it is the members of a structure, and else none.
    pub fn members(&mut self) -> Option<Items<MemberDeclaration>>
        ensures { MatchOption result
            ((first.begins_with_members (symbols_seen self.old) ≡ false) × (self.new ≡ self.old))
            (λ x. symbols_seen self.old ≡ v.some_members (member_declarations_of x) ∷ symbols_seen self.new) }
    {
        match self.rest.top() {
            Some(Meaning::Members(_)) => {}
            _ => return None,
        }
        match self.rest.pop() {
            Some(Meaning::Members(members)) => Some(members),
            Some(other) => {
                drop(other);
                None
            }
            None => None,
        }
    }

    /// Takes the first symbol where it is a declarator, and else none.
    pub fn declarator(&mut self) -> Option<DeclaratorForm>
        ensures { MatchOption result
            ((first.begins_with_declarator (symbols_seen self.old) ≡ false) × (self.new ≡ self.old))
            (λ x. symbols_seen self.old ≡ v.a_declarator (declarator_of x) ∷ symbols_seen self.new) }
    {
        match self.rest.top() {
            Some(Meaning::Declarator(_)) => {}
            _ => return None,
        }
        match self.rest.pop() {
            Some(Meaning::Declarator(declarator)) => Some(declarator),
            Some(other) => {
                drop(other);
                None
            }
            None => None,
        }
    }

    /// Takes the first symbol where it is a block, and else none.
    pub fn block(&mut self) -> Option<Block>
        ensures { MatchOption result
            ((first.begins_with_block (symbols_seen self.old) ≡ false) × (self.new ≡ self.old))
            (λ x. symbols_seen self.old ≡ v.a_block (block_of x) ∷ symbols_seen self.new) }
    {
        match self.rest.top() {
            Some(Meaning::Block(_)) => {}
            _ => return None,
        }
        match self.rest.pop() {
            Some(Meaning::Block(block)) => Some(block),
            Some(other) => {
                drop(other);
                None
            }
            None => None,
        }
    }

    /// Takes the first symbol where it is initializers in braces, and else none.
    pub fn braces(&mut self) -> Option<Braces>
        ensures { MatchOption result
            ((first.begins_with_braces (symbols_seen self.old) ≡ false) × (self.new ≡ self.old))
            (λ x. symbols_seen self.old ≡ v.some_braces (braces_of x) ∷ symbols_seen self.new) }
    {
        match self.rest.top() {
            Some(Meaning::Braces(_)) => {}
            _ => return None,
        }
        match self.rest.pop() {
            Some(Meaning::Braces(braces)) => Some(braces),
            Some(other) => {
                drop(other);
                None
            }
            None => None,
        }
    }

    /// Takes the first symbol where it is a statement, and else none.
    pub fn statement(&mut self) -> Option<Statement>
        ensures { MatchOption result
            ((first.begins_with_statement (symbols_seen self.old) ≡ false) × (self.new ≡ self.old))
            (λ x. symbols_seen self.old ≡ v.a_statement x ∷ symbols_seen self.new) }
    {
        match self.rest.top() {
            Some(Meaning::Statement(_)) => {}
            _ => return None,
        }
        match self.rest.pop() {
            Some(Meaning::Statement(statement)) => Some(statement),
            Some(other) => {
                drop(other);
                None
            }
            None => None,
        }
    }

    /// Takes the first symbol where it is a declaration, and else none.
    pub fn declaration(&mut self) -> Option<Declaration>
        ensures { MatchOption result
            ((first.begins_with_declaration (symbols_seen self.old) ≡ false) × (self.new ≡ self.old))
            (λ x. symbols_seen self.old ≡ v.a_declaration x ∷ symbols_seen self.new) }
    {
        match self.rest.top() {
            Some(Meaning::Declaration(_)) => {}
            _ => return None,
        }
        match self.rest.pop() {
            Some(Meaning::Declaration(declaration)) => Some(declaration),
            Some(other) => {
                drop(other);
                None
            }
            None => None,
        }
    }

    /// Takes the first symbol where it is an initializer, and else none.
    pub fn initializer(&mut self) -> Option<Initializer>
        ensures { MatchOption result
            ((first.begins_with_initializer (symbols_seen self.old) ≡ false) × (self.new ≡ self.old))
            (λ x. symbols_seen self.old ≡ v.an_initializer x ∷ symbols_seen self.new) }
    {
        match self.rest.top() {
            Some(Meaning::Initializer(_)) => {}
            _ => return None,
        }
        match self.rest.pop() {
            Some(Meaning::Initializer(initializer)) => Some(initializer),
            Some(other) => {
                drop(other);
                None
            }
            None => None,
        }
    }

    /// Takes the first symbol where it is a specifier, and else none.
    pub fn spec(&mut self) -> Option<Spec>
        ensures { MatchOption result
            ((first.begins_with_spec (symbols_seen self.old) ≡ false) × (self.new ≡ self.old))
            (λ x. symbols_seen self.old ≡ v.a_spec (spec_of x) ∷ symbols_seen self.new) }
    {
        match self.rest.top() {
            Some(Meaning::Spec(_)) => {}
            _ => return None,
        }
        match self.rest.pop() {
            Some(Meaning::Spec(spec)) => Some(spec),
            Some(other) => {
                drop(other);
                None
            }
            None => None,
        }
    }

    /// Takes the first symbol where it is a qualifier, and else none.
    pub fn qualifier(&mut self) -> Option<Qualifier>
        ensures { MatchOption result
            ((first.begins_with_qualifier (symbols_seen self.old) ≡ false) × (self.new ≡ self.old))
            (λ x. symbols_seen self.old ≡ v.a_qualifier x ∷ symbols_seen self.new) }
    {
        match self.rest.top() {
            Some(Meaning::Qualifier(_)) => {}
            _ => return None,
        }
        match self.rest.pop() {
            Some(Meaning::Qualifier(qualifier)) => Some(qualifier),
            Some(other) => {
                drop(other);
                None
            }
            None => None,
        }
    }

    /// Takes the first symbol where it is an assertion, and else none.
    pub fn assertion(&mut self) -> Option<Assertion>
        ensures { MatchOption result
            ((first.begins_with_assertion (symbols_seen self.old) ≡ false) × (self.new ≡ self.old))
            (λ x. symbols_seen self.old ≡ v.an_assertion (assertion_of x) ∷ symbols_seen self.new) }
    {
        match self.rest.top() {
            Some(Meaning::Assertion(_)) => {}
            _ => return None,
        }
        match self.rest.pop() {
            Some(Meaning::Assertion(assertion)) => Some(assertion),
            Some(other) => {
                drop(other);
                None
            }
            None => None,
        }
    }

    /// Takes the first symbol where it is a declaration or a definition of the unit, and else none.
    pub fn external(&mut self) -> Option<External>
        ensures { MatchOption result
            ((first.begins_with_external (symbols_seen self.old) ≡ false) × (self.new ≡ self.old))
            (λ x. symbols_seen self.old ≡ v.an_external (external_of x) ∷ symbols_seen self.new) }
    {
        match self.rest.top() {
            Some(Meaning::External(_)) => {}
            _ => return None,
        }
        match self.rest.pop() {
            Some(Meaning::External(external)) => Some(external),
            Some(other) => {
                drop(other);
                None
            }
            None => None,
        }
    }

    /// Takes the first symbol where it is a list of parameters, and else none.
    pub fn parameters(&mut self) -> Option<ParameterList>
        ensures { MatchOption result
            ((first.begins_with_parameters (symbols_seen self.old) ≡ false) × (self.new ≡ self.old))
            (λ x. symbols_seen self.old ≡ v.some_parameters (m.FunctionSuffix (parameters_of x.parameters) x.is_variadic) ∷ symbols_seen self.new) }
    {
        match self.rest.top() {
            Some(Meaning::Parameters(_)) => {}
            _ => return None,
        }
        match self.rest.pop() {
            Some(Meaning::Parameters(parameters)) => Some(parameters),
            Some(other) => {
                drop(other);
                None
            }
            None => None,
        }
    }
}
