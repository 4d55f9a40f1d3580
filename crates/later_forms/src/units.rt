//! The first form of a unit that is built last.
ghost use Rattle.std.specs.Prelude.{◌≡◌};
ghost use Rattle.model_checking.specs.LaterForms as later;
ghost use Rattle.c_tree.specs.SyntaxTrees.{unit_of};
ghost use Rattle.c_tree.specs.SyntaxViews as v;

use crate::declarations::in_declaration;
use crate::expressions::{in_declarator, in_specs};
use crate::statements::in_block;
use c_tree::{External, Tree};
use cake_base::Place;

/// The first token of the first form that is built last, where the unit has one: `defer`, the `if` before a declaration
/// in its parentheses, the `(` of a function literal, `typeof`, `typeof_unqual`, `auto`, `constexpr` or `nullptr`.
pub fn first_later(tree: &Tree) -> Option<Place>
    ensures { result ≡ later.first_later (unit_of tree.now) }
{
    in_externals(tree.form().externals.as_slice())
}

fn in_externals(externals: &[External]) -> Option<Place>
    ensures { result ≡ later.in_externals (v.externals_of externals.now) }
{
    for external in externals {
        if let Some(place) = in_external(external) {
            return Some(place);
        }
    }
    None
}

fn in_external(external: &External) -> Option<Place>
    ensures { result ≡ later.in_external (v.external_of external.now) }
{
    match external {
        External::Function {
            specs,
            declarator,
            body,
        } => match in_specs(specs) {
            Some(place) => Some(place),
            None => match in_declarator(declarator) {
                Some(place) => Some(place),
                None => in_block(body),
            },
        },
        External::Declaration(declaration) => in_declaration(declaration),
    }
}
