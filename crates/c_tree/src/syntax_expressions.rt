//! Expressions (ISO/IEC 9899:2024, 6.5).
ghost use Rattle.std.specs.Prelude.{◌≡◌, IfOk};
ghost use Rattle.c_tree.specs.SyntaxDepth.{capped, expr_depth};
ghost use Rattle.c_tree.specs.SyntaxViews.{expr_of};
ghost use Rattle.c_tree.specs.SyntaxTrees.{expr_tree};

use crate::syntax_depths::expr_form_depth;
use crate::syntax_initializers::Braces;
use crate::syntax_specifiers::TypeName;
use crate::syntax_statements::Block;
use cake_base::{Bytes, NoMemory, Place};
use model_grammar::syntax::{Name, PrefixOp};
use model_types::numbers::{BinOp, Const};
use model_types::operators::{LogicOp, StepOp, StepSide};
use sqlite_items::Items;
use std::alloc::Global;
use std::marker::Model;
use std::rc::Rc;

/// The forms of an expression (6.5). The place of a form is that of its operator or word, of its `[`, or of the `(` of
/// a call, a cast, a literal or a parenthesis.
#[cycle(syntax)]
#[derive(Drop)]
pub enum ExprForm {
    /// A name, which is no typedef name.
    Identifier(Name),
    /// An integer constant or a character constant.
    Constant {
        constant: Const,
        place: Place,
    },
    /// A string literal, without the zero behind its bytes.
    Text {
        bytes: Bytes,
        place: Place,
    },
    /// `true` or `false`.
    Truth {
        value: bool,
        place: Place,
    },
    Nullptr(Place),
    /// An expression in parentheses.
    Parenthesized {
        inner: Expr,
        place: Place,
    },
    /// A compound literal (6.5.3.6).
    CompoundLiteral {
        name: TypeName,
        values: Braces,
        place: Place,
    },
    /// A function literal: a type name that is written as a function, and a body.
    FunctionLiteral {
        name: TypeName,
        body: Block,
        place: Place,
    },
    /// What stands before the brackets, and in them; either may be the array.
    Index {
        array: Expr,
        index: Expr,
        place: Place,
    },
    /// A function and its arguments.
    Call {
        function: Expr,
        arguments: Items<Expr>,
        place: Place,
    },
    /// A structure, and the name behind `.`.
    Member {
        structure: Expr,
        member: Name,
        place: Place,
    },
    /// A pointer, and the name behind `->`.
    Arrow {
        pointer: Expr,
        member: Name,
        place: Place,
    },
    /// `++` or `--`, before or behind its operand.
    Step {
        op: StepOp,
        side: StepSide,
        operand: Expr,
        place: Place,
    },
    Unary {
        op: PrefixOp,
        operand: Expr,
        place: Place,
    },
    /// `sizeof` of an expression.
    SizeofExpr {
        operand: Expr,
        place: Place,
    },
    /// `sizeof` of a type name in parentheses.
    SizeofType {
        name: TypeName,
        place: Place,
    },
    /// `alignof` of a type name.
    Alignof {
        name: TypeName,
        place: Place,
    },
    Cast {
        name: TypeName,
        operand: Expr,
        place: Place,
    },
    Binary {
        op: BinOp,
        left: Expr,
        right: Expr,
        place: Place,
    },
    /// `&&` or `||`.
    Logic {
        op: LogicOp,
        left: Expr,
        right: Expr,
        place: Place,
    },
    /// A condition, and what stands before and behind the `:`.
    Conditional {
        condition: Expr,
        first: Expr,
        second: Expr,
        place: Place,
    },
    /// `=`.
    Assign {
        left: Expr,
        right: Expr,
        place: Place,
    },
    /// An assignment by an operator, such as `+=`.
    AssignBy {
        op: BinOp,
        left: Expr,
        right: Expr,
        place: Place,
    },
    Comma {
        first: Expr,
        second: Expr,
        place: Place,
    },
}

/// An expression.
#[cycle(syntax)]
pub struct Expr {
    form: Rc<ExprForm>,
    depth: u32,
}

impl Drop for Expr {
    #[cycle(letting_go)]
    fn drop(self) {
        let Expr { form: _, depth: _ } = self;
    }
}

impl Model for Expr {
    ghost use Rattle.std.specs.Prelude.{◌≡◌};
    ghost use Rattle.model_grammar.specs.SyntaxForms as m;
    ghost use Rattle.c_tree.specs.apparatus.SyntaxSizes.{expr_nodes};
    ghost use Rattle.c_tree.specs.SyntaxDepth.{expr_depth, capped};
    ghost use Rattle.c_tree.specs.apparatus.SyntaxCode.{coded_expr};

    ghost Value = { m.Expr };

    ghost coded = { coded_expr };

    ghost use Rattle.c_tree.specs.SyntaxViews.{expr_of};

    ghost view = { λ a. expr_of a.form.value };

    ghost invariant = { λ a. a.depth ≡ capped (expr_depth (expr_of a.form.value)) };

    ghost size = { expr_nodes };

    ghost use Rattle.c_tree.specs.apparatus.SyntaxFalls.{expr_falls};

    ghost size_decreases = { λ a h. expr_falls a.form.value };
}

impl Expr {
    /// The expression of this form. On refusal the form is dropped.
    pub fn new(alloc: Global, form: ExprForm) -> Result<Expr, NoMemory>
        ensures { IfOk result (λ made. expr_tree made ≡ expr_of form) }
    {
        let depth = expr_form_depth(&form);
        match Rc::new(alloc, form) {
            Ok(form) => Ok(Expr { form, depth }),
            Err(failed) => {
                drop(failed);
                Err(NoMemory)
            }
        }
    }

    /// The form that the expression was made of.
    pub fn form(&self) -> &ExprForm
        ensures { expr_of result.now ≡ expr_tree self.now }
    {
        &self.form
    }

    /// An equal expression.
    pub fn copy(&self, _alloc: Global) -> Result<Expr, NoMemory>
        ensures { IfOk result (λ made. expr_tree made ≡ expr_tree self.now) }
    {
        match self.form.clone() {
            Ok(form) => Ok(Expr {
                form,
                depth: self.depth,
            }),
            Err(_) => Err(NoMemory),
        }
    }

    /// How deep the expression is, or the greatest number where it is deeper.
    pub(crate) fn depth(&self) -> u32
        ensures { result ≡ capped (expr_depth (expr_tree self.now)) }
    {
        self.depth
    }
}
