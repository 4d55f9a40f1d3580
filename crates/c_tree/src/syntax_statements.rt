//! Statements (ISO/IEC 9899:2024, 6.8).
ghost use Rattle.std.specs.Prelude.{◌≡◌, IfOk};
ghost use Rattle.c_tree.specs.SyntaxDepth.{capped, statement_depth};
ghost use Rattle.c_tree.specs.SyntaxViews.{statement_of};
ghost use Rattle.c_tree.specs.SyntaxTrees.{statement_tree};

use crate::syntax_declarations::Declaration;
use crate::syntax_depths::statement_form_depth;
use crate::syntax_expressions::Expr;
use cake_base::{NoMemory, Place};
use model_types::marks::Span;
use sqlite_items::Items;
use std::alloc::Global;
use std::marker::Model;
use std::rc::Rc;

/// The forms of a statement (6.8), each with its first token behind its attributes, and its last; a place before these is
/// that of its word.
#[cycle(syntax)]
#[derive(Drop)]
pub enum StatementForm {
    /// An expression, or nothing, before a `;`.
    Expression {
        value: Option<Expr>,
        span: Span,
    },
    Compound {
        body: Block,
        span: Span,
    },
    /// `if` with the declaration in its parentheses, the condition, and the statements of `if` and `else`.
    If {
        declaration: Option<Declaration>,
        condition: Expr,
        first: Statement,
        second: Option<Statement>,
        span: Span,
    },
    Switch {
        value: Expr,
        body: Statement,
        span: Span,
    },
    While {
        condition: Expr,
        body: Statement,
        span: Span,
    },
    DoWhile {
        body: Statement,
        condition: Expr,
        span: Span,
    },
    /// `for` with the expressions in its parentheses, and its body.
    For {
        first: Option<Expr>,
        condition: Option<Expr>,
        step: Option<Expr>,
        body: Statement,
        span: Span,
    },
    /// `for` whose parentheses begin with a declaration.
    ForDeclaration {
        declaration: Declaration,
        condition: Option<Expr>,
        step: Option<Expr>,
        body: Statement,
        span: Span,
    },
    Break {
        place: Place,
        span: Span,
    },
    Continue {
        place: Place,
        span: Span,
    },
    Return {
        value: Option<Expr>,
        place: Place,
        span: Span,
    },
    /// `defer` before a statement.
    Defer {
        body: Statement,
        place: Place,
        span: Span,
    },
}

/// A statement.
#[cycle(syntax)]
pub struct Statement {
    form: Rc<StatementForm>,
    depth: u32,
}

impl Drop for Statement {
    #[cycle(letting_go)]
    fn drop(self) {
        let Statement { form: _, depth: _ } = self;
    }
}

/// What stands in a block (6.8.3). The place of a label is that of its word.
#[cycle(syntax)]
#[derive(Drop)]
pub enum BlockItem {
    Declaration(Declaration),
    /// `case` with its value.
    Case { value: Expr, place: Place },
    Default(Place),
    Statement(Statement),
}

/// A block: what stands in its braces, and the places of these.
#[cycle(syntax)]
#[derive(Drop)]
pub struct Block {
    pub items: Items<BlockItem>,
    pub span: Span,
}

impl Model for Statement {
    ghost use Rattle.std.specs.Prelude.{◌≡◌};
    ghost use Rattle.model_grammar.specs.SyntaxForms as m;
    ghost use Rattle.c_tree.specs.apparatus.SyntaxSizes.{statement_nodes};
    ghost use Rattle.c_tree.specs.SyntaxDepth.{statement_depth, capped};
    ghost use Rattle.c_tree.specs.apparatus.SyntaxCode.{coded_statement};

    ghost Value = { m.Statement };

    ghost coded = { coded_statement };

    ghost use Rattle.c_tree.specs.SyntaxViews.{statement_of};

    ghost view = { λ a. statement_of a.form.value };

    ghost invariant = { λ a. a.depth ≡ capped (statement_depth (statement_of a.form.value)) };

    ghost size = { statement_nodes };

    ghost use Rattle.c_tree.specs.apparatus.SyntaxFalls.{statement_falls};

    ghost size_decreases = { λ a h. statement_falls a.form.value };
}

impl Statement {
    /// The statement of this form. On refusal the form is dropped.
    pub fn new(alloc: Global, form: StatementForm) -> Result<Statement, NoMemory>
        ensures { IfOk result (λ made. statement_tree made ≡ statement_of form) }
    {
        let depth = statement_form_depth(&form);
        match Rc::new(alloc, form) {
            Ok(form) => Ok(Statement { form, depth }),
            Err(failed) => {
                drop(failed);
                Err(NoMemory)
            }
        }
    }

    /// The form that the statement was made of.
    pub fn form(&self) -> &StatementForm
        ensures { statement_of result.now ≡ statement_tree self.now }
    {
        &self.form
    }

    /// An equal statement.
    pub fn copy(&self, _alloc: Global) -> Result<Statement, NoMemory>
        ensures { IfOk result (λ made. statement_tree made ≡ statement_tree self.now) }
    {
        match self.form.clone() {
            Ok(form) => Ok(Statement {
                form,
                depth: self.depth,
            }),
            Err(_) => Err(NoMemory),
        }
    }

    /// How deep the statement is, or the greatest number where it is deeper.
    pub(crate) fn depth(&self) -> u32
        ensures { result ≡ capped (statement_depth (statement_tree self.now)) }
    {
        self.depth
    }
}
