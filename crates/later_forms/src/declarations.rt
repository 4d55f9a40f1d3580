//! The forms that are built last, in declarations.
ghost use Rattle.std.specs.Prelude.{◌≡◌};
ghost use Rattle.model_checking.specs.LaterForms as later;
ghost use Rattle.c_tree.specs.SyntaxTrees.{declaration_tree};
ghost use Rattle.c_tree.specs.SyntaxViews as v;

use crate::expressions::{in_assertion, in_declarator, in_initializer, in_specs};
use c_tree::{Declaration, DeclarationForm, InitDeclarator, Initializer};
use cake_base::Place;

pub(crate) fn in_declaration(declaration: &Declaration) -> Option<Place>
    ensures { result ≡ later.in_declaration (declaration_tree declaration.now) }
{
    match declaration.form() {
        DeclarationForm::Simple { specs, declarators } => match in_specs(specs) {
            Some(place) => Some(place),
            None => in_init_declarators(declarators.as_slice()),
        },
        DeclarationForm::Assertion(assertion) => in_assertion(assertion),
        DeclarationForm::Attributes => None,
    }
}

fn in_init_declarators(init_declarators: &[InitDeclarator]) -> Option<Place>
    ensures { result ≡ later.in_init_declarators (v.init_declarators_of init_declarators.now) }
{
    for init_declarator in init_declarators {
        if let Some(place) = in_init_declarator(init_declarator) {
            return Some(place);
        }
    }
    None
}

fn in_init_declarator(init_declarator: &InitDeclarator) -> Option<Place>
    ensures { result ≡ later.in_init_declarator (v.init_declarator_of init_declarator.now) }
{
    match in_declarator(&init_declarator.declarator) {
        Some(place) => Some(place),
        None => in_maybe_initializer(&init_declarator.initializer),
    }
}

fn in_maybe_initializer(initializer: &Option<Initializer>) -> Option<Place>
    ensures { result ≡ later.in_maybe_initializer (v.maybe_initializer_of initializer.now) }
{
    match initializer {
        Some(initializer) => in_initializer(initializer),
        None => None,
    }
}
