//! Initializers (ISO/IEC 9899:2024, 6.7.11).
ghost use Rattle.std.specs.Prelude.{◌≡◌, IfOk};
ghost use Rattle.c_tree.specs.SyntaxDepth.{capped, initializer_depth};
ghost use Rattle.c_tree.specs.SyntaxViews.{initializer_of};
ghost use Rattle.c_tree.specs.SyntaxTrees.{initializer_tree};

use crate::syntax_depths::initializer_form_depth;
use crate::syntax_expressions::Expr;
use cake_base::{NoMemory, Place};
use model_grammar::syntax::Name;
use sqlite_items::Items;
use std::alloc::Global;
use std::marker::Model;
use std::rc::Rc;

/// The forms of an initializer (6.7.11).
#[cycle(syntax)]
#[derive(Drop)]
pub enum InitializerForm {
    Expr(Expr),
    Braces(Braces),
}

/// An initializer.
#[cycle(syntax)]
pub struct Initializer {
    form: Rc<InitializerForm>,
    depth: u32,
}

impl Drop for Initializer {
    #[cycle(letting_go)]
    fn drop(self) {
        let Initializer { form: _, depth: _ } = self;
    }
}

/// Initializers in braces, with the place of the `{`.
#[cycle(syntax)]
#[derive(Drop)]
pub struct Braces {
    pub items: Items<InitializerItem>,
    pub place: Place,
}

/// An initializer in braces, behind its designators.
#[cycle(syntax)]
#[derive(Drop)]
pub struct InitializerItem {
    pub designators: Items<Designator>,
    pub value: Initializer,
}

/// A designator, with the place of its `[` or `.`.
#[cycle(syntax)]
#[derive(Drop)]
pub enum Designator {
    Element { index: Expr, place: Place },
    Member { member: Name, place: Place },
}

impl Model for Initializer {
    ghost use Rattle.std.specs.Prelude.{◌≡◌};
    ghost use Rattle.model_grammar.specs.SyntaxForms as m;
    ghost use Rattle.c_tree.specs.apparatus.SyntaxSizes.{initializer_nodes};
    ghost use Rattle.c_tree.specs.SyntaxDepth.{initializer_depth, capped};
    ghost use Rattle.c_tree.specs.apparatus.SyntaxCode.{coded_initializer};

    ghost Value = { m.Initializer };

    ghost coded = { coded_initializer };

    ghost use Rattle.c_tree.specs.SyntaxViews.{initializer_of};

    ghost view = { λ a. initializer_of a.form.value };

    ghost invariant = { λ a. a.depth ≡ capped (initializer_depth (initializer_of a.form.value)) };

    ghost size = { initializer_nodes };

    ghost use Rattle.c_tree.specs.apparatus.SyntaxFalls.{initializer_falls};

    ghost size_decreases = { λ a h. initializer_falls a.form.value };
}

impl Initializer {
    /// The initializer of this form. On refusal the form is dropped.
    pub fn new(alloc: Global, form: InitializerForm) -> Result<Initializer, NoMemory>
        ensures { IfOk result (λ made. initializer_tree made ≡ initializer_of form) }
    {
        let depth = initializer_form_depth(&form);
        match Rc::new(alloc, form) {
            Ok(form) => Ok(Initializer { form, depth }),
            Err(failed) => {
                drop(failed);
                Err(NoMemory)
            }
        }
    }

    /// The form that the initializer was made of.
    pub fn form(&self) -> &InitializerForm
        ensures { initializer_of result.now ≡ initializer_tree self.now }
    {
        &self.form
    }

    /// An equal initializer.
    pub fn copy(&self, _alloc: Global) -> Result<Initializer, NoMemory>
        ensures { IfOk result (λ made. initializer_tree made ≡ initializer_tree self.now) }
    {
        match self.form.clone() {
            Ok(form) => Ok(Initializer {
                form,
                depth: self.depth,
            }),
            Err(_) => Err(NoMemory),
        }
    }

    /// How deep the initializer is, or the greatest number where it is deeper.
    pub(crate) fn depth(&self) -> u32
        ensures { result ≡ capped (initializer_depth (initializer_tree self.now)) }
    {
        self.depth
    }
}
