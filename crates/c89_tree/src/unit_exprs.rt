//! Expressions and initial values of a C89 program, behind counted references: to copy one costs nothing.
ghost use Rattle.std.specs.Prelude.{◌≡◌, IfOk};
ghost use Rattle.c89_tree.specs.UnitExprForms.{expr_of, init_of};
ghost use Rattle.c89_tree.specs.UnitTrees.{expr_tree, init_tree};

use crate::unit_types::OutType;
use cake_base::{Bytes, NoMemory};
use model_types::numbers::BinOp;
use model_types::operators::LogicOp;
use sqlite_items::Items;
use std::alloc::Global;
use std::marker::Model;
use std::rc::Rc;

/// The letters behind a constant, which say its type (ISO/IEC 9899:1990, 6.1.3.2): none for int, `U` for
/// unsigned int, `L` for long, `UL` for unsigned long.
#[derive(Clone, Copy, Debug, PartialEq, Eq)]
pub enum OutSuffix {
    Plain,
    U,
    L,
    UL,
}

/// A unary operator (6.3.3).
#[derive(Clone, Copy, Debug, PartialEq, Eq)]
pub enum OutPrefix {
    Minus,
    Complement,
    Not,
    Deref,
    AddressOf,
}

/// The form of an expression (6.3).
#[cycle(out_expr)]
#[derive(Drop)]
pub enum OutExprForm {
    Name {
        name: Bytes,
    },
    /// A number without a sign.
    Constant {
        number: u64,
        suffix: OutSuffix,
    },
    Index {
        left: OutExpr,
        right: OutExpr,
    },
    Dot {
        structure: OutExpr,
        name: Bytes,
    },
    Arrow {
        pointer: OutExpr,
        name: Bytes,
    },
    Call {
        function: OutExpr,
        arguments: Items<OutExpr>,
    },
    Unary {
        op: OutPrefix,
        operand: OutExpr,
    },
    Binary {
        op: BinOp,
        left: OutExpr,
        right: OutExpr,
    },
    Logic {
        op: LogicOp,
        left: OutExpr,
        right: OutExpr,
    },
    Choice {
        condition: OutExpr,
        first: OutExpr,
        second: OutExpr,
    },
    Cast {
        ty: OutType,
        operand: OutExpr,
    },
}

/// An expression.
#[cycle(out_expr)]
pub struct OutExpr {
    form: Rc<OutExprForm>,
}

impl Drop for OutExpr {
    #[cycle(out_expr_let_go)]
    fn drop(self) {
        let OutExpr { form: _ } = self;
    }
}

/// The form of an initial value (6.5.7).
#[cycle(out_init)]
#[derive(Drop)]
pub enum OutInitForm {
    Value {
        value: OutExpr,
    },
    /// A string, without the zero behind its bytes.
    Text {
        bytes: Bytes,
    },
    /// Braces round one initial value at least.
    Braces {
        first: OutInit,
        others: Items<OutInit>,
    },
}

/// An initial value.
#[cycle(out_init)]
pub struct OutInit {
    form: Rc<OutInitForm>,
}

impl Drop for OutInit {
    #[cycle(out_init_let_go)]
    fn drop(self) {
        let OutInit { form: _ } = self;
    }
}

impl Model for OutExpr {
    ghost use Rattle.model_core.specs.Program89 as m;
    ghost use Rattle.c89_tree.specs.apparatus.UnitExprCode.{coded_expr};

    ghost Value = { m.Expr };

    ghost coded = { coded_expr };

    ghost use Rattle.c89_tree.specs.UnitExprForms.{expr_of};

    ghost view = { λ a. expr_of a.form.value };

    ghost use Rattle.c89_tree.specs.apparatus.UnitSizes.{expr_nodes};

    ghost size = { expr_nodes };

    ghost use Rattle.c89_tree.specs.apparatus.UnitExprFalls.{expr_falls};

    ghost size_decreases = { λ a h. expr_falls a.form.value };
}

impl Model for OutInit {
    ghost use Rattle.model_core.specs.Program89 as m;
    ghost use Rattle.c89_tree.specs.apparatus.UnitExprCode.{coded_init};

    ghost Value = { m.Init };

    ghost coded = { coded_init };

    ghost use Rattle.c89_tree.specs.UnitExprForms.{init_of};

    ghost view = { λ a. init_of a.form.value };

    ghost use Rattle.c89_tree.specs.apparatus.UnitSizes.{init_nodes};

    ghost size = { init_nodes };

    ghost use Rattle.c89_tree.specs.apparatus.UnitExprFalls.{init_falls};

    ghost size_decreases = { λ a h. init_falls a.form.value };
}

impl OutExpr {
    /// The expression of a form. On refusal the form is dropped.
    pub fn new(alloc: Global, form: OutExprForm) -> Result<OutExpr, NoMemory>
        ensures { IfOk result (λ made. expr_tree made ≡ expr_of form) }
    {
        match Rc::new(alloc, form) {
            Ok(form) => Ok(OutExpr { form }),
            Err(failed) => {
                drop(failed);
                Err(NoMemory)
            }
        }
    }

    /// The form that the expression was made of.
    pub fn form(&self) -> &OutExprForm
        ensures { expr_of result.now ≡ expr_tree self.now }
    {
        &self.form
    }

    /// An equal expression.
    pub fn copy(&self, _alloc: Global) -> Result<OutExpr, NoMemory>
        ensures { IfOk result (λ made. expr_tree made ≡ expr_tree self.now) }
    {
        match self.form.clone() {
            Ok(form) => Ok(OutExpr { form }),
            Err(_) => Err(NoMemory),
        }
    }
}

impl OutInit {
    /// The initial value of a form. On refusal the form is dropped.
    pub fn new(alloc: Global, form: OutInitForm) -> Result<OutInit, NoMemory>
        ensures { IfOk result (λ made. init_tree made ≡ init_of form) }
    {
        match Rc::new(alloc, form) {
            Ok(form) => Ok(OutInit { form }),
            Err(failed) => {
                drop(failed);
                Err(NoMemory)
            }
        }
    }

    /// The form that the initial value was made of.
    pub fn form(&self) -> &OutInitForm
        ensures { init_of result.now ≡ init_tree self.now }
    {
        &self.form
    }

    /// An equal initial value.
    pub fn copy(&self, _alloc: Global) -> Result<OutInit, NoMemory>
        ensures { IfOk result (λ made. init_tree made ≡ init_tree self.now) }
    {
        match self.form.clone() {
            Ok(form) => Ok(OutInit { form }),
            Err(_) => Err(NoMemory),
        }
    }
}
