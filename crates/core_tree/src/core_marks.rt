//! Where the core's expressions and lvalues stand.
ghost use Rattle.std.specs.Prelude.{◌≡◌};
ghost use Rattle.model_core.specs.SourceMarks as m;
ghost use Rattle.core_tree.specs.CoreTrees.{expr_tree, lvalue_tree};

use crate::core_exprs::{CoreExpr, CoreExprForm, CoreLvalue, CoreLvalueForm};
use model_types::marks::Mark;

impl CoreExpr {
    /// Where the expression stands.
    pub fn mark(&self) -> Mark
        ensures { result ≡ m.expr_mark (expr_tree self.now) }
    {
        match self.form() {
            CoreExprForm::Constant { mark, .. } => *mark,
            CoreExprForm::Load { mark, .. } => *mark,
            CoreExprForm::Address { mark, .. } => *mark,
            CoreExprForm::FunctionRef { mark, .. } => *mark,
            CoreExprForm::Unary { mark, .. } => *mark,
            CoreExprForm::Binary { mark, .. } => *mark,
            CoreExprForm::Logic { mark, .. } => *mark,
            CoreExprForm::Choice { mark, .. } => *mark,
            CoreExprForm::Convert { mark, .. } => *mark,
            CoreExprForm::Call { mark, .. } => *mark,
            CoreExprForm::Assign { mark, .. } => *mark,
            CoreExprForm::Step { mark, .. } => *mark,
            CoreExprForm::MemberValue { mark, .. } => *mark,
            CoreExprForm::Comma { mark, .. } => *mark,
        }
    }
}

impl CoreLvalue {
    /// Where the lvalue stands.
    pub fn mark(&self) -> Mark
        ensures { result ≡ m.lvalue_mark (lvalue_tree self.now) }
    {
        match self.form() {
            CoreLvalueForm::Object { mark, .. } => *mark,
            CoreLvalueForm::Deref { mark, .. } => *mark,
            CoreLvalueForm::Index { mark, .. } => *mark,
            CoreLvalueForm::Field { mark, .. } => *mark,
            CoreLvalueForm::Arrow { mark, .. } => *mark,
            CoreLvalueForm::Literal { mark, .. } => *mark,
        }
    }
}
