//! Declarators (ISO/IEC 9899:2024, 6.7.7).
ghost use Rattle.std.specs.Prelude.{◌≡◌, IfOk};
ghost use Rattle.c_tree.specs.SyntaxDepth.{capped, declarator_depth};
ghost use Rattle.c_tree.specs.SyntaxViews.{declarator_of};
ghost use Rattle.c_tree.specs.SyntaxTrees.{declarator_tree};

use crate::syntax_depths::declarator_form_depth;
use crate::syntax_expressions::Expr;
use crate::syntax_specifiers::Specs;
use cake_base::{NoMemory, Place};
use model_grammar::syntax::{Name, Pointer};
use sqlite_items::Items;
use std::alloc::Global;
use std::marker::Model;
use std::rc::Rc;

/// The forms of a declarator (6.7.7) and of an abstract declarator (6.7.8): its `*` from the left, what stands behind
/// them, and the brackets and parentheses behind that.
#[cycle(syntax)]
#[derive(Drop)]
pub enum DeclaratorForm {
    /// A declarator of a name.
    Named {
        pointers: Items<Pointer>,
        name: Name,
        suffixes: Items<Suffix>,
    },
    /// A declarator whose name is missing.
    Unnamed {
        pointers: Items<Pointer>,
        suffixes: Items<Suffix>,
    },
    /// A declarator in parentheses, with the place of the `(`.
    Grouped {
        pointers: Items<Pointer>,
        inner: Declarator,
        suffixes: Items<Suffix>,
        place: Place,
    },
}

/// A declarator.
#[cycle(syntax)]
pub struct Declarator {
    form: Rc<DeclaratorForm>,
    depth: u32,
}

impl Drop for Declarator {
    #[cycle(letting_go)]
    fn drop(self) {
        let Declarator { form: _, depth: _ } = self;
    }
}

/// What makes an array or a function of what stands before it (6.7.7.3, 6.7.7.4). The place is that of the `[` or `(`.
#[cycle(syntax)]
#[derive(Drop)]
pub enum Suffix {
    /// An array, with its length where it has one.
    Array {
        length: Option<Expr>,
        place: Place,
    },
    /// A function with its parameters, and whether `...` stands behind them.
    Function {
        parameters: Items<Parameter>,
        is_variadic: bool,
        place: Place,
    },
}

/// A parameter (6.7.7.4), with the place of its first token.
#[cycle(syntax)]
#[derive(Drop)]
pub struct Parameter {
    pub specs: Specs,
    pub declarator: Declarator,
    pub first: Place,
}

impl Model for Declarator {
    ghost use Rattle.std.specs.Prelude.{◌≡◌};
    ghost use Rattle.model_grammar.specs.SyntaxForms as m;
    ghost use Rattle.c_tree.specs.apparatus.SyntaxSizes.{declarator_nodes};
    ghost use Rattle.c_tree.specs.SyntaxDepth.{declarator_depth, capped};
    ghost use Rattle.c_tree.specs.apparatus.SyntaxCode.{coded_declarator};

    ghost Value = { m.Declarator };

    ghost coded = { coded_declarator };

    ghost use Rattle.c_tree.specs.SyntaxViews.{declarator_of};

    ghost view = { λ a. declarator_of a.form.value };

    ghost invariant = { λ a. a.depth ≡ capped (declarator_depth (declarator_of a.form.value)) };

    ghost size = { declarator_nodes };

    ghost use Rattle.c_tree.specs.apparatus.SyntaxFalls.{declarator_falls};

    ghost size_decreases = { λ a h. declarator_falls a.form.value };
}

impl Declarator {
    /// The declarator of this form. On refusal the form is dropped.
    pub fn new(alloc: Global, form: DeclaratorForm) -> Result<Declarator, NoMemory>
        ensures { IfOk result (λ made. declarator_tree made ≡ declarator_of form) }
    {
        let depth = declarator_form_depth(&form);
        match Rc::new(alloc, form) {
            Ok(form) => Ok(Declarator { form, depth }),
            Err(failed) => {
                drop(failed);
                Err(NoMemory)
            }
        }
    }

    /// The form that the declarator was made of.
    pub fn form(&self) -> &DeclaratorForm
        ensures { declarator_of result.now ≡ declarator_tree self.now }
    {
        &self.form
    }

    /// An equal declarator.
    pub fn copy(&self, _alloc: Global) -> Result<Declarator, NoMemory>
        ensures { IfOk result (λ made. declarator_tree made ≡ declarator_tree self.now) }
    {
        match self.form.clone() {
            Ok(form) => Ok(Declarator {
                form,
                depth: self.depth,
            }),
            Err(_) => Err(NoMemory),
        }
    }

    /// How deep the declarator is, or the greatest number where it is deeper.
    pub(crate) fn depth(&self) -> u32
        ensures { result ≡ capped (declarator_depth (declarator_tree self.now)) }
    {
        self.depth
    }
}
