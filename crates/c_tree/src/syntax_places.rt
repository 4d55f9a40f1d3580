//! The first tokens of the parts of a unit.
ghost use Rattle.std.specs.Prelude.{◌≡◌};
ghost use Rattle.c_tree.specs.SyntaxPlaces as p;
ghost use Rattle.c_tree.specs.SyntaxTrees.{expr_tree, initializer_tree, specs_tree, type_name_tree, declarator_tree};
ghost use Rattle.c_tree.specs.SyntaxViews.{spec_of, suffixes_of};

use crate::syntax_declarators::{Declarator, DeclaratorForm, Suffix};
use crate::syntax_expressions::{Expr, ExprForm};
use crate::syntax_initializers::{Initializer, InitializerForm};
use crate::syntax_specifiers::{Spec, Specs, TypeName};
use cake_base::Place;
use model_grammar::syntax::Pointer;
use model_types::operators::StepSide;
use sqlite_items::Items;

impl Expr {
    /// The place of the first token, a parenthesis round the expression counted.
    pub fn first(&self) -> Place
        ensures { result ≡ p.expr_first (expr_tree self.now) }
    {
        match self.form() {
            ExprForm::Identifier(name) => name.place,
            ExprForm::Constant { place, .. } => *place,
            ExprForm::Text { place, .. } => *place,
            ExprForm::Truth { place, .. } => *place,
            ExprForm::Nullptr(place) => *place,
            ExprForm::Parenthesized { place, .. } => *place,
            ExprForm::CompoundLiteral { place, .. } => *place,
            ExprForm::FunctionLiteral { place, .. } => *place,
            ExprForm::Index { array, .. } => array.first(),
            ExprForm::Call { function, .. } => function.first(),
            ExprForm::Member { structure, .. } => structure.first(),
            ExprForm::Arrow { pointer, .. } => pointer.first(),
            ExprForm::Step {
                side,
                operand,
                place,
                ..
            } => match side {
                StepSide::Prefix => *place,
                StepSide::Postfix => operand.first(),
            },
            ExprForm::Unary { place, .. } => *place,
            ExprForm::SizeofExpr { place, .. } => *place,
            ExprForm::SizeofType { place, .. } => *place,
            ExprForm::Alignof { place, .. } => *place,
            ExprForm::Cast { place, .. } => *place,
            ExprForm::Binary { left, .. } => left.first(),
            ExprForm::Logic { left, .. } => left.first(),
            ExprForm::Conditional { condition, .. } => condition.first(),
            ExprForm::Assign { left, .. } => left.first(),
            ExprForm::AssignBy { left, .. } => left.first(),
            ExprForm::Comma { first, .. } => first.first(),
        }
    }
}

impl Initializer {
    /// The place of the first token.
    pub fn first(&self) -> Place
        ensures { result ≡ p.initializer_first (initializer_tree self.now) }
    {
        match self.form() {
            InitializerForm::Expr(value) => value.first(),
            InitializerForm::Braces(values) => values.place,
        }
    }
}

impl Spec {
    /// The place of the first token.
    pub fn first(&self) -> Place
        ensures { result ≡ p.spec_first (spec_of self.now) }
    {
        match self {
            Spec::Storage { place, .. } => *place,
            Spec::Function { place, .. } => *place,
            Spec::Keyword { place, .. } => *place,
            Spec::Qualifier(qualifier) => qualifier.place,
            Spec::StructTag { place, .. } => *place,
            Spec::Struct { place, .. } => *place,
            Spec::EnumTag { place, .. } => *place,
            Spec::Enum { place, .. } => *place,
            Spec::TypedefName(name) => name.place,
            Spec::TypeofExpr { place, .. } => *place,
            Spec::TypeofType { place, .. } => *place,
        }
    }
}

impl Specs {
    /// The place of the first token; none where there is no specifier.
    pub fn first(&self) -> Option<Place>
        ensures { result ≡ p.specs_first (specs_tree self.now) }
    {
        match self.form().specs.as_slice() {
            [] => None,
            [first, ..] => Some(first.first()),
        }
    }
}

impl TypeName {
    /// The place of the first token; none where there is no specifier.
    pub fn first(&self) -> Option<Place>
        ensures { result ≡ p.type_name_first (type_name_tree self.now) }
    {
        self.form().specs.first()
    }
}

impl Declarator {
    /// The place of the first token; none where the declarator has no token.
    pub fn first(&self) -> Option<Place>
        ensures { result ≡ p.declarator_first (declarator_tree self.now) }
    {
        match self.form() {
            DeclaratorForm::Named { pointers, name, .. } => star_or(pointers, Some(name.place)),
            DeclaratorForm::Unnamed { pointers, suffixes } => star_or(
                pointers,
                first_suffix(suffixes),
            ),
            DeclaratorForm::Grouped {
                pointers,
                place,
                ..
            } => star_or(pointers, Some(*place)),
        }
    }
}

/// The first `*`, and else what stands behind.
fn star_or(pointers: &Items<Pointer>, behind: Option<Place>) -> Option<Place>
    ensures { result ≡ p.star_or pointers.now behind }
{
    match pointers.as_slice() {
        [] => behind,
        [first, ..] => Some(first.star),
    }
}

fn first_suffix(suffixes: &Items<Suffix>) -> Option<Place>
    ensures { result ≡ p.suffixes_first (suffixes_of suffixes.now) }
{
    match suffixes.as_slice() {
        [] => None,
        [Suffix::Array { place, .. }, ..] => Some(*place),
        [Suffix::Function { place, .. }, ..] => Some(*place),
    }
}
