//! Statements of a C89 program, behind counted references: to copy one costs nothing.
ghost use Rattle.std.specs.Prelude.{◌≡◌, IfOk};
ghost use Rattle.c89_tree.specs.UnitStatForms.{stat_of, stats_of, item_of, label_of};
ghost use Rattle.c89_tree.specs.UnitTrees.{stat_tree, stats_tree, item_tree, label_tree};

use crate::unit_exprs::OutExpr;
use crate::unit_types::OutDeclaration;
use cake_base::NoMemory;
use sqlite_items::Items;
use std::alloc::Global;
use std::marker::Model;
use std::rc::Rc;

/// The form of a label in the body of a `switch` (ISO/IEC 9899:1990, 6.6.1).
#[derive(Drop)]
pub enum OutLabelForm {
    Case { value: OutExpr },
    Default,
}

/// A label in the body of a `switch`.
pub struct OutLabel {
    form: Rc<OutLabelForm>,
}

impl Drop for OutLabel {
    fn drop(self) {
        let OutLabel { form: _ } = self;
    }
}

/// The form of a statement (6.6). Where it holds statements, these are a block's, which begins with the
/// declarations of its objects.
#[cycle(out_stat)]
#[derive(Drop)]
pub enum OutStatForm {
    Evaluate {
        value: OutExpr,
    },
    Assign {
        left: OutExpr,
        right: OutExpr,
    },
    Empty,
    Block {
        objects: Items<OutDeclaration>,
        body: OutStats,
    },
    If {
        condition: OutExpr,
        objects: Items<OutDeclaration>,
        body: OutStats,
    },
    IfElse {
        condition: OutExpr,
        objects: Items<OutDeclaration>,
        body: OutStats,
        other_objects: Items<OutDeclaration>,
        other_body: OutStats,
    },
    /// `for (;;)`.
    Forever {
        objects: Items<OutDeclaration>,
        body: OutStats,
    },
    Switch {
        value: OutExpr,
        items: Items<OutItem>,
    },
    Break,
    Continue,
    ReturnNothing,
    Return {
        value: OutExpr,
    },
}

/// A statement.
#[cycle(out_stat)]
pub struct OutStat {
    form: Rc<OutStatForm>,
}

impl Drop for OutStat {
    #[cycle(out_stat_let_go)]
    fn drop(self) {
        let OutStat { form: _ } = self;
    }
}

/// A list of statements.
#[cycle(out_stat)]
#[derive(Drop)]
pub struct OutStatsForm {
    pub stats: Items<OutStat>,
}

/// The statements of a block or of an expression's effects.
#[cycle(out_stat)]
pub struct OutStats {
    form: Rc<OutStatsForm>,
}

impl Drop for OutStats {
    #[cycle(out_stat_let_go)]
    fn drop(self) {
        let OutStats { form: _ } = self;
    }
}

/// A statement in the body of a `switch`, with the labels before it.
#[cycle(out_stat)]
#[derive(Drop)]
pub struct OutItemForm {
    pub labels: Items<OutLabel>,
    pub stat: OutStat,
}

/// A statement in the body of a `switch`, behind its labels.
#[cycle(out_stat)]
pub struct OutItem {
    form: Rc<OutItemForm>,
}

impl Drop for OutItem {
    #[cycle(out_stat_let_go)]
    fn drop(self) {
        let OutItem { form: _ } = self;
    }
}

impl Model for OutLabel {
    ghost use Rattle.model_core.specs.Program89 as m;
    ghost use Rattle.c89_tree.specs.apparatus.UnitStatCode.{coded_label};

    ghost Value = { m.Label };

    ghost coded = { coded_label };

    ghost use Rattle.c89_tree.specs.UnitStatForms.{label_of};

    ghost view = { λ a. label_of a.form.value };
}

impl Model for OutStat {
    ghost use Rattle.model_core.specs.Program89 as m;
    ghost use Rattle.c89_tree.specs.apparatus.UnitStatCode.{coded_stat};

    ghost Value = { m.Stat };

    ghost coded = { coded_stat };

    ghost use Rattle.c89_tree.specs.UnitStatForms.{stat_of};

    ghost view = { λ a. stat_of a.form.value };

    ghost use Rattle.c89_tree.specs.apparatus.UnitSizes.{stat_nodes};

    ghost size = { stat_nodes };

    ghost use Rattle.c89_tree.specs.apparatus.UnitStatFalls.{stat_falls};

    ghost size_decreases = { λ a h. stat_falls a.form.value };
}

impl Model for OutStats {
    ghost use Rattle.model_core.specs.Program89 as m;
    ghost use Rattle.c89_tree.specs.apparatus.UnitStatCode.{coded_stats};

    ghost Value = { m.Stats };

    ghost coded = { coded_stats };

    ghost use Rattle.c89_tree.specs.UnitStatForms.{stats_of};

    ghost view = { λ a. stats_of a.form.value };

    ghost use Rattle.c89_tree.specs.apparatus.UnitSizes.{stats_nodes};

    ghost size = { stats_nodes };

    ghost use Rattle.c89_tree.specs.apparatus.UnitStatFalls.{stats_falls};

    ghost size_decreases = { λ a h. stats_falls a.form.value };
}

impl Model for OutItem {
    ghost use Rattle.c89_tree.specs.ProgramNodes89.{Item};
    ghost use Rattle.c89_tree.specs.apparatus.UnitStatCode.{coded_item};

    ghost Value = { Item };

    ghost coded = { coded_item };

    ghost use Rattle.c89_tree.specs.UnitStatForms.{item_of};

    ghost view = { λ a. item_of a.form.value };

    ghost use Rattle.c89_tree.specs.apparatus.UnitSizes.{item_nodes};

    ghost size = { item_nodes };

    ghost use Rattle.c89_tree.specs.apparatus.UnitStatFalls.{item_falls};

    ghost size_decreases = { λ a h. item_falls a.form.value };
}

impl OutLabel {
    /// The label of a form. On refusal the form is dropped.
    pub fn new(alloc: Global, form: OutLabelForm) -> Result<OutLabel, NoMemory>
        ensures { IfOk result (λ made. label_tree made ≡ label_of form) }
    {
        match Rc::new(alloc, form) {
            Ok(form) => Ok(OutLabel { form }),
            Err(failed) => {
                drop(failed);
                Err(NoMemory)
            }
        }
    }

    /// The form that the label was made of.
    pub fn form(&self) -> &OutLabelForm
        ensures { label_of result.now ≡ label_tree self.now }
    {
        &self.form
    }

    /// An equal label.
    pub fn copy(&self, _alloc: Global) -> Result<OutLabel, NoMemory>
        ensures { IfOk result (λ made. label_tree made ≡ label_tree self.now) }
    {
        match self.form.clone() {
            Ok(form) => Ok(OutLabel { form }),
            Err(_) => Err(NoMemory),
        }
    }
}

impl OutStat {
    /// The statement of a form. On refusal the form is dropped.
    pub fn new(alloc: Global, form: OutStatForm) -> Result<OutStat, NoMemory>
        ensures { IfOk result (λ made. stat_tree made ≡ stat_of form) }
    {
        match Rc::new(alloc, form) {
            Ok(form) => Ok(OutStat { form }),
            Err(failed) => {
                drop(failed);
                Err(NoMemory)
            }
        }
    }

    /// The form that the statement was made of.
    pub fn form(&self) -> &OutStatForm
        ensures { stat_of result.now ≡ stat_tree self.now }
    {
        &self.form
    }

    /// An equal statement.
    pub fn copy(&self, _alloc: Global) -> Result<OutStat, NoMemory>
        ensures { IfOk result (λ made. stat_tree made ≡ stat_tree self.now) }
    {
        match self.form.clone() {
            Ok(form) => Ok(OutStat { form }),
            Err(_) => Err(NoMemory),
        }
    }
}

impl OutStats {
    /// The list of these statements. On refusal they are dropped.
    pub fn new(alloc: Global, form: OutStatsForm) -> Result<OutStats, NoMemory>
        ensures { IfOk result (λ made. stats_tree made ≡ stats_of form) }
    {
        match Rc::new(alloc, form) {
            Ok(form) => Ok(OutStats { form }),
            Err(failed) => {
                drop(failed);
                Err(NoMemory)
            }
        }
    }

    /// The statements that the list was made of.
    pub fn form(&self) -> &OutStatsForm
        ensures { stats_of result.now ≡ stats_tree self.now }
    {
        &self.form
    }

    /// An equal list.
    pub fn copy(&self, _alloc: Global) -> Result<OutStats, NoMemory>
        ensures { IfOk result (λ made. stats_tree made ≡ stats_tree self.now) }
    {
        match self.form.clone() {
            Ok(form) => Ok(OutStats { form }),
            Err(_) => Err(NoMemory),
        }
    }
}

impl OutItem {
    /// The statement with its labels of its parts. On refusal they are dropped.
    pub fn new(alloc: Global, form: OutItemForm) -> Result<OutItem, NoMemory>
        ensures { IfOk result (λ made. item_tree made ≡ item_of form) }
    {
        match Rc::new(alloc, form) {
            Ok(form) => Ok(OutItem { form }),
            Err(failed) => {
                drop(failed);
                Err(NoMemory)
            }
        }
    }

    /// The parts that the statement with its labels was made of.
    pub fn form(&self) -> &OutItemForm
        ensures { item_of result.now ≡ item_tree self.now }
    {
        &self.form
    }

    /// An equal statement with its labels.
    pub fn copy(&self, _alloc: Global) -> Result<OutItem, NoMemory>
        ensures { IfOk result (λ made. item_tree made ≡ item_tree self.now) }
    {
        match self.form.clone() {
            Ok(form) => Ok(OutItem { form }),
            Err(_) => Err(NoMemory),
        }
    }
}
