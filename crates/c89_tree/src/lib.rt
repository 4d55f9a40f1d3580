//! C89 programs as trees, each node made, read and copied.
#![tactic(auto)]

mod unit_exprs;
mod unit_program;
mod unit_stats;
mod unit_types;

pub use unit_exprs::{OutExpr, OutExprForm, OutInit, OutInitForm, OutPrefix, OutSuffix};
pub use unit_program::{
    C89Form, C89Unit, OutFunction, OutFunctionForm, OutOuter, OutOuterForm, OutStorage,
    OutStructure, OutStructureForm,
};
pub use unit_stats::{
    OutItem, OutItemForm, OutLabel, OutLabelForm, OutStat, OutStatForm, OutStats, OutStatsForm,
};
pub use unit_types::{OutBase, OutDeclaration, OutDeclarationForm, OutType, OutTypeForm};
