//! The trees of a unit by the grammar, each node made, read and copied.
#![tactic(auto)]

mod syntax_declarations;
mod syntax_declarators;
mod syntax_depths;
mod syntax_expressions;
mod syntax_initializers;
pub mod syntax_laws;
mod syntax_places;
mod syntax_specifiers;
mod syntax_statements;
mod syntax_unit;
#[cfg(test)]
mod tests;

pub use model_types::marks::Span;
pub use syntax_declarations::{Assertion, Declaration, DeclarationForm, InitDeclarator};
pub use syntax_declarators::{Declarator, DeclaratorForm, Parameter, Suffix};
pub use syntax_expressions::{Expr, ExprForm};
pub use syntax_initializers::{Braces, Designator, Initializer, InitializerForm, InitializerItem};
pub use syntax_specifiers::{
    Enumerator, MemberDeclaration, Spec, Specs, SpecsForm, TypeName, TypeNameForm,
};
pub use syntax_statements::{Block, BlockItem, Statement, StatementForm};
pub use syntax_unit::{External, Tree, TreeForm};
