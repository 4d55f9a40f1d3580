//! Expressions, lvalues and initial values of the typed core, behind counted references: to copy one costs
//! nothing.
ghost use Rattle.std.specs.Prelude.{◌≡◌, IfOk, IsTrue};
ghost use Rattle.model_core.specs.CoreTypes.{type_of, object_type};
ghost use Rattle.core_tree.specs.CoreNodes.{is_typed_initial};
ghost use Rattle.model_core.specs.TypedExpr.{is_typed, is_typed_lvalue};
ghost use Rattle.core_tree.specs.CoreForms.{expr_of, lvalue_of, initial_of};
ghost use Rattle.core_tree.specs.CoreTrees.{expr_tree, lvalue_tree, initial_tree};

use crate::core_types::{expr_type, lvalue_type};
use c_types::CType;
use cake_base::{NoMemory, Place};
use model_types::marks::{DeclId, Mark, Origin};
use model_types::numbers::BinOp;
use model_types::operators::{LogicOp, StepOp, StepSide, UnaryOp};
use sqlite_items::Items;
use std::alloc::Global;
use std::marker::Model;
use std::rc::Rc;

/// How an assignment gets its value (ISO/IEC 9899:2024, 6.5.17).
#[derive(Drop)]
pub enum CoreAssignment {
    /// The value as it is.
    Plain,
    /// The value of an operation on the object and the value, which is done in the type.
    Compound { op: BinOp, ty: CType },
}

/// The form of an expression that has a value (6.5), with its mark.
#[cycle(core_expr)]
#[derive(Drop)]
pub enum CoreExprForm {
    Constant {
        value: i128,
        ty: CType,
        mark: Mark,
    },
    Load {
        object: CoreLvalue,
        mark: Mark,
    },
    Address {
        origin: Origin,
        object: CoreLvalue,
        mark: Mark,
    },
    /// The address of a function, and whether it stands there by its bare name.
    FunctionRef {
        id: DeclId,
        ty: CType,
        by_name: bool,
        mark: Mark,
    },
    Unary {
        op: UnaryOp,
        operand: CoreExpr,
        mark: Mark,
    },
    Binary {
        op: BinOp,
        left: CoreExpr,
        right: CoreExpr,
        mark: Mark,
    },
    Logic {
        op: LogicOp,
        left: CoreExpr,
        right: CoreExpr,
        mark: Mark,
    },
    Choice {
        condition: CoreExpr,
        first: CoreExpr,
        second: CoreExpr,
        mark: Mark,
    },
    Convert {
        origin: Origin,
        ty: CType,
        operand: CoreExpr,
        mark: Mark,
    },
    Call {
        function: CoreExpr,
        arguments: Items<CoreExpr>,
        mark: Mark,
    },
    Assign {
        assignment: CoreAssignment,
        object: CoreLvalue,
        value: CoreExpr,
        mark: Mark,
    },
    /// `++` or `--`, done in the type.
    Step {
        op: StepOp,
        side: StepSide,
        ty: CType,
        object: CoreLvalue,
        mark: Mark,
    },
    /// The member of a rank, counted from 0, of a structure value, with its type and the place of its name.
    MemberValue {
        structure: CoreExpr,
        rank: u32,
        ty: CType,
        name: Place,
        mark: Mark,
    },
    Comma {
        first: CoreExpr,
        second: CoreExpr,
        mark: Mark,
    },
}

/// An expression that has a value, with its type.
#[cycle(core_expr)]
pub struct CoreExpr {
    form: Rc<CoreExprForm>,
    ty: CType,
}

impl Drop for CoreExpr {
    #[cycle(core_expr_let_go)]
    fn drop(self) {
        let CoreExpr { form: _, ty: _ } = self;
    }
}

/// The form of an expression that designates an object (6.3.3.1), with its mark.
#[cycle(core_expr)]
#[derive(Drop)]
pub enum CoreLvalueForm {
    Object {
        id: DeclId,
        ty: CType,
        mark: Mark,
    },
    Deref {
        pointer: CoreExpr,
        mark: Mark,
    },
    /// `first[second]`, and whether the pointer is the second operand.
    Index {
        is_second: bool,
        first: CoreExpr,
        second: CoreExpr,
        mark: Mark,
    },
    /// The member of a rank, counted from 0, with its type and the place of its name.
    Field {
        structure: CoreLvalue,
        rank: u32,
        ty: CType,
        name: Place,
        mark: Mark,
    },
    Arrow {
        pointer: CoreExpr,
        rank: u32,
        ty: CType,
        name: Place,
        mark: Mark,
    },
    /// A compound literal; or, implied, the object of a structure's value whose array member is asked for. It
    /// gets its values each time.
    Literal {
        origin: Origin,
        id: DeclId,
        ty: CType,
        values: Items<CoreInitial>,
        mark: Mark,
    },
}

/// An expression that designates an object, with the type of the object.
#[cycle(core_expr)]
pub struct CoreLvalue {
    form: Rc<CoreLvalueForm>,
    ty: CType,
}

impl Drop for CoreLvalue {
    #[cycle(core_expr_let_go)]
    fn drop(self) {
        let CoreLvalue { form: _, ty: _ } = self;
    }
}

/// The parts of an initial value (6.7.11).
#[cycle(core_expr)]
#[derive(Drop)]
pub struct CoreInitialForm {
    /// The ranks of the members and elements that lead to what the value is for.
    pub path: Items<u64>,
    /// In bytes, from the beginning of the object.
    pub offset: u64,
    /// The type of what the value is for.
    pub ty: CType,
    pub value: CoreExpr,
}

/// An initial value of a part of an object.
#[cycle(core_expr)]
pub struct CoreInitial {
    form: Rc<CoreInitialForm>,
}

impl Drop for CoreInitial {
    #[cycle(core_expr_let_go)]
    fn drop(self) {
        let CoreInitial { form: _ } = self;
    }
}

impl Model for CoreExpr {
    ghost use Rattle.std.specs.Prelude.{◌≡◌, IsTrue};
    ghost use Rattle.model_core.specs.Core as m;
    ghost use Rattle.model_core.specs.CoreTypes.{type_of};
    ghost use Rattle.model_core.specs.TypedExpr.{is_typed};
    ghost use Rattle.core_tree.specs.apparatus.CoreExprCode.{coded_expr};

    ghost Value = { m.Expr };

    ghost coded = { coded_expr };

    ghost use Rattle.core_tree.specs.CoreForms.{expr_of};

    ghost view = { λ a. expr_of a.form.value };

    ghost invariant = { λ a. IsTrue (is_typed (expr_of a.form.value)) × (a.ty ≡ type_of (expr_of a.form.value)) };

    ghost use Rattle.core_tree.specs.apparatus.CoreSizes.{expr_nodes};

    ghost size = { expr_nodes };

    ghost use Rattle.core_tree.specs.apparatus.CoreFalls.{expr_falls};

    ghost size_decreases = { λ a h. expr_falls a.form.value };
}

impl Model for CoreLvalue {
    ghost use Rattle.std.specs.Prelude.{◌≡◌, IsTrue};
    ghost use Rattle.model_core.specs.Core as m;
    ghost use Rattle.model_core.specs.CoreTypes.{object_type};
    ghost use Rattle.model_core.specs.TypedExpr.{is_typed_lvalue};
    ghost use Rattle.core_tree.specs.apparatus.CoreExprCode.{coded_lvalue};

    ghost Value = { m.Lvalue };

    ghost coded = { coded_lvalue };

    ghost use Rattle.core_tree.specs.CoreForms.{lvalue_of};

    ghost view = { λ a. lvalue_of a.form.value };

    ghost invariant = { λ a. IsTrue (is_typed_lvalue (lvalue_of a.form.value)) × (a.ty ≡ object_type (lvalue_of a.form.value)) };

    ghost use Rattle.core_tree.specs.apparatus.CoreSizes.{lvalue_nodes};

    ghost size = { lvalue_nodes };

    ghost use Rattle.core_tree.specs.apparatus.CoreFalls.{lvalue_falls};

    ghost size_decreases = { λ a h. lvalue_falls a.form.value };
}

impl Model for CoreInitial {
    ghost use Rattle.std.specs.Prelude.{IsTrue};
    ghost use Rattle.core_tree.specs.CoreNodes.{Initial, is_typed_initial};
    ghost use Rattle.core_tree.specs.apparatus.CoreExprCode.{coded_initial};

    ghost Value = { Initial };

    ghost coded = { coded_initial };

    ghost use Rattle.core_tree.specs.CoreForms.{initial_of};

    ghost view = { λ a. initial_of a.form.value };

    ghost invariant = { λ a. IsTrue (is_typed_initial (initial_of a.form.value)) };

    ghost use Rattle.core_tree.specs.apparatus.CoreSizes.{initial_nodes};

    ghost size = { initial_nodes };

    ghost use Rattle.core_tree.specs.apparatus.CoreFalls.{initial_falls};

    ghost size_decreases = { λ a h. initial_falls a.form.value };
}

impl CoreExpr {
    /// The expression of a form that is typed by itself. On refusal the form is dropped.
    pub fn new(alloc: Global, form: CoreExprForm) -> Result<CoreExpr, NoMemory>
        requires { IsTrue (is_typed (expr_of form)) }
        ensures { IfOk result (λ made. expr_tree made ≡ expr_of form) }
    {
        match Rc::new(alloc, form) {
            Ok(form) => {
                let ty = expr_type(alloc, &form)?;
                Ok(CoreExpr { form, ty })
            }
            Err(failed) => {
                drop(failed);
                Err(NoMemory)
            }
        }
    }

    /// The form that the expression was made of.
    pub fn form(&self) -> &CoreExprForm
        ensures tree { expr_of result.now ≡ expr_tree self.now }
        ensures typed { IsTrue (is_typed (expr_tree self.now)) }
    {
        &self.form
    }

    /// The type of its value.
    pub fn ty(&self) -> &CType
        ensures { result.now ≡ type_of (expr_tree self.now) }
    {
        &self.ty
    }

    /// An equal expression.
    pub fn copy(&self, alloc: Global) -> Result<CoreExpr, NoMemory>
        ensures { IfOk result (λ made. expr_tree made ≡ expr_tree self.now) }
    {
        let ty = self.ty.copy(alloc)?;
        match self.form.clone() {
            Ok(form) => Ok(CoreExpr { form, ty }),
            Err(_) => Err(NoMemory),
        }
    }
}

impl CoreLvalue {
    /// The lvalue of a form that is typed by itself. On refusal the form is dropped.
    pub fn new(alloc: Global, form: CoreLvalueForm) -> Result<CoreLvalue, NoMemory>
        requires { IsTrue (is_typed_lvalue (lvalue_of form)) }
        ensures { IfOk result (λ made. lvalue_tree made ≡ lvalue_of form) }
    {
        match Rc::new(alloc, form) {
            Ok(form) => {
                let ty = lvalue_type(alloc, &form)?;
                Ok(CoreLvalue { form, ty })
            }
            Err(failed) => {
                drop(failed);
                Err(NoMemory)
            }
        }
    }

    /// The form that the lvalue was made of.
    pub fn form(&self) -> &CoreLvalueForm
        ensures tree { lvalue_of result.now ≡ lvalue_tree self.now }
        ensures typed { IsTrue (is_typed_lvalue (lvalue_tree self.now)) }
    {
        &self.form
    }

    /// The type of the object, with its qualifiers.
    pub fn ty(&self) -> &CType
        ensures { result.now ≡ object_type (lvalue_tree self.now) }
    {
        &self.ty
    }

    /// An equal lvalue.
    pub fn copy(&self, alloc: Global) -> Result<CoreLvalue, NoMemory>
        ensures { IfOk result (λ made. lvalue_tree made ≡ lvalue_tree self.now) }
    {
        let ty = self.ty.copy(alloc)?;
        match self.form.clone() {
            Ok(form) => Ok(CoreLvalue { form, ty }),
            Err(_) => Err(NoMemory),
        }
    }
}

impl CoreInitial {
    /// The initial value of parts that are typed by themselves. On refusal they are dropped.
    pub fn new(alloc: Global, form: CoreInitialForm) -> Result<CoreInitial, NoMemory>
        requires { IsTrue (is_typed_initial (initial_of form)) }
        ensures { IfOk result (λ made. initial_tree made ≡ initial_of form) }
    {
        match Rc::new(alloc, form) {
            Ok(form) => Ok(CoreInitial { form }),
            Err(failed) => {
                drop(failed);
                Err(NoMemory)
            }
        }
    }

    /// The parts that the initial value was made of.
    pub fn form(&self) -> &CoreInitialForm
        ensures tree { initial_of result.now ≡ initial_tree self.now }
        ensures typed { IsTrue (is_typed_initial (initial_tree self.now)) }
    {
        &self.form
    }

    /// An equal initial value.
    pub fn copy(&self, _alloc: Global) -> Result<CoreInitial, NoMemory>
        ensures { IfOk result (λ made. initial_tree made ≡ initial_tree self.now) }
    {
        match self.form.clone() {
            Ok(form) => Ok(CoreInitial { form }),
            Err(_) => Err(NoMemory),
        }
    }
}
