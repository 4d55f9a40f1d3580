//! Statements of the typed core, behind counted references: to copy one costs nothing.
ghost use Rattle.std.specs.Prelude.{◌≡◌, IfOk, IsTrue};
ghost use Rattle.core_tree.specs.CoreNodes.{is_typed_case};
ghost use Rattle.model_core.specs.TypedStat.{is_typed_stat};
ghost use Rattle.core_tree.specs.CoreStatForms.{stat_of, case_of};
ghost use Rattle.core_tree.specs.CoreTrees.{stat_tree, case_tree};

use crate::core_exprs::{CoreExpr, CoreInitial};
use c_types::CType;
use cake_base::{NoMemory, Place};
use model_types::marks::{DeclId, Mark, Span};
use sqlite_items::Items;
use std::alloc::Global;
use std::marker::Model;
use std::rc::Rc;

/// The form of a statement (ISO/IEC 9899:2024, 6.8), with where it begins and ends.
#[cycle(core_stat)]
#[derive(Drop)]
pub enum CoreStatForm {
    Evaluate {
        value: CoreExpr,
        span: Span,
    },
    /// The initialisation of an object of a type; at the object's name.
    Start {
        id: DeclId,
        ty: CType,
        values: Items<CoreInitial>,
        mark: Mark,
    },
    /// A block, with the objects of automatic storage that are declared in it.
    Block {
        objects: Items<DeclId>,
        body: Items<CoreStat>,
        span: Span,
    },
    If {
        condition: CoreExpr,
        first: CoreStat,
        second: Option<CoreStat>,
        span: Span,
    },
    /// A `switch`, with the objects of automatic storage that are declared in its body.
    Switch {
        value: CoreExpr,
        objects: Items<DeclId>,
        body: Items<CoreCase>,
        span: Span,
    },
    While {
        condition: CoreExpr,
        body: CoreStat,
        span: Span,
    },
    DoWhile {
        body: CoreStat,
        condition: CoreExpr,
        span: Span,
    },
    For {
        first: Option<CoreExpr>,
        condition: Option<CoreExpr>,
        step: Option<CoreExpr>,
        body: CoreStat,
        span: Span,
    },
    Break {
        place: Place,
    },
    Continue {
        place: Place,
    },
    Return {
        value: Option<CoreExpr>,
        place: Place,
    },
    /// A deferred statement, with the place of the word `defer`.
    Defer {
        body: CoreStat,
        place: Place,
        span: Span,
    },
}

/// A statement.
#[cycle(core_stat)]
pub struct CoreStat {
    form: Rc<CoreStatForm>,
}

impl Drop for CoreStat {
    #[cycle(core_stat_let_go)]
    fn drop(self) {
        let CoreStat { form: _ } = self;
    }
}

/// The form of a label or of a statement in the body of a `switch` (6.8.2, 6.8.5.3).
#[cycle(core_stat)]
#[derive(Drop)]
pub enum CoreCaseForm {
    Case { value: i128, place: Place },
    Default { place: Place },
    Statement { stat: CoreStat },
}

/// A label or a statement in the body of a `switch`.
#[cycle(core_stat)]
pub struct CoreCase {
    form: Rc<CoreCaseForm>,
}

impl Drop for CoreCase {
    #[cycle(core_stat_let_go)]
    fn drop(self) {
        let CoreCase { form: _ } = self;
    }
}

impl Model for CoreStat {
    ghost use Rattle.std.specs.Prelude.{IsTrue};
    ghost use Rattle.model_core.specs.Core as m;
    ghost use Rattle.model_core.specs.TypedStat.{is_typed_stat};
    ghost use Rattle.core_tree.specs.apparatus.CoreStatCode.{coded_stat};

    ghost Value = { m.Stat };

    ghost coded = { coded_stat };

    ghost use Rattle.core_tree.specs.CoreStatForms.{stat_of};

    ghost view = { λ a. stat_of a.form.value };

    ghost invariant = { λ a. IsTrue (is_typed_stat (stat_of a.form.value)) };

    ghost use Rattle.core_tree.specs.apparatus.CoreSizes.{stat_nodes};

    ghost size = { stat_nodes };

    ghost use Rattle.core_tree.specs.apparatus.CoreStatFalls.{stat_falls};

    ghost size_decreases = { λ a h. stat_falls a.form.value };
}

impl Model for CoreCase {
    ghost use Rattle.std.specs.Prelude.{IsTrue};
    ghost use Rattle.core_tree.specs.CoreNodes.{Case, is_typed_case};
    ghost use Rattle.core_tree.specs.apparatus.CoreStatCode.{coded_case};

    ghost Value = { Case };

    ghost coded = { coded_case };

    ghost use Rattle.core_tree.specs.CoreStatForms.{case_of};

    ghost view = { λ a. case_of a.form.value };

    ghost invariant = { λ a. IsTrue (is_typed_case (case_of a.form.value)) };

    ghost use Rattle.core_tree.specs.apparatus.CoreSizes.{case_nodes};

    ghost size = { case_nodes };

    ghost use Rattle.core_tree.specs.apparatus.CoreStatFalls.{case_falls};

    ghost size_decreases = { λ a h. case_falls a.form.value };
}

impl CoreStat {
    /// The statement of a form that is typed by itself. On refusal the form is dropped.
    pub fn new(alloc: Global, form: CoreStatForm) -> Result<CoreStat, NoMemory>
        requires { IsTrue (is_typed_stat (stat_of form)) }
        ensures { IfOk result (λ made. stat_tree made ≡ stat_of form) }
    {
        match Rc::new(alloc, form) {
            Ok(form) => Ok(CoreStat { form }),
            Err(failed) => {
                drop(failed);
                Err(NoMemory)
            }
        }
    }

    /// The form that the statement was made of.
    pub fn form(&self) -> &CoreStatForm
        ensures tree { stat_of result.now ≡ stat_tree self.now }
        ensures typed { IsTrue (is_typed_stat (stat_tree self.now)) }
    {
        &self.form
    }

    /// An equal statement.
    pub fn copy(&self, _alloc: Global) -> Result<CoreStat, NoMemory>
        ensures { IfOk result (λ made. stat_tree made ≡ stat_tree self.now) }
    {
        match self.form.clone() {
            Ok(form) => Ok(CoreStat { form }),
            Err(_) => Err(NoMemory),
        }
    }
}

impl CoreCase {
    /// The label or statement of a form that is typed by itself. On refusal the form is dropped.
    pub fn new(alloc: Global, form: CoreCaseForm) -> Result<CoreCase, NoMemory>
        requires { IsTrue (is_typed_case (case_of form)) }
        ensures { IfOk result (λ made. case_tree made ≡ case_of form) }
    {
        match Rc::new(alloc, form) {
            Ok(form) => Ok(CoreCase { form }),
            Err(failed) => {
                drop(failed);
                Err(NoMemory)
            }
        }
    }

    /// The form that the label or statement was made of.
    pub fn form(&self) -> &CoreCaseForm
        ensures tree { case_of result.now ≡ case_tree self.now }
        ensures typed { IsTrue (is_typed_case (case_tree self.now)) }
    {
        &self.form
    }

    /// An equal label or statement.
    pub fn copy(&self, _alloc: Global) -> Result<CoreCase, NoMemory>
        ensures { IfOk result (λ made. case_tree made ≡ case_tree self.now) }
    {
        match self.form.clone() {
            Ok(form) => Ok(CoreCase { form }),
            Err(_) => Err(NoMemory),
        }
    }
}
