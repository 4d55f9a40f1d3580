//! The typed core of a unit, each node made, read and copied.
#![tactic(auto)]

mod core_exprs;
mod core_laws;
mod core_marks;
mod core_stats;
mod core_types;
mod core_unit;

pub use core_exprs::{
    CoreAssignment, CoreExpr, CoreExprForm, CoreInitial, CoreInitialForm, CoreLvalue,
    CoreLvalueForm,
};
pub use core_laws::typed_core_has_typed_parts;
pub use core_stats::{CoreCase, CoreCaseForm, CoreStat, CoreStatForm};
pub use core_unit::{
    Core, CoreForm, CoreFunction, CoreFunctionForm, CoreFunctionName, CoreNamedType, CoreObject,
    CoreObjectForm, CoreStorage,
};
pub use model_types::marks::{DeclId, Mark, Origin, Span};
