//! Declarations (ISO/IEC 9899:2024, 6.7, 6.7.12).
ghost use Rattle.std.specs.Prelude.{◌≡◌, IfOk};
ghost use Rattle.c_tree.specs.SyntaxDepth.{capped, declaration_depth};
ghost use Rattle.c_tree.specs.SyntaxViews.{declaration_of};
ghost use Rattle.c_tree.specs.SyntaxTrees.{declaration_tree};

use crate::syntax_declarators::Declarator;
use crate::syntax_depths::declaration_form_depth;
use crate::syntax_expressions::Expr;
use crate::syntax_initializers::Initializer;
use crate::syntax_specifiers::Specs;
use cake_base::{Bytes, NoMemory, Place};
use sqlite_items::Items;
use std::alloc::Global;
use std::marker::Model;
use std::rc::Rc;

/// The forms of a declaration (6.7).
#[cycle(syntax)]
#[derive(Drop)]
pub enum DeclarationForm {
    /// Specifiers, and declarators with their initializers.
    Simple {
        specs: Specs,
        declarators: Items<InitDeclarator>,
    },
    Assertion(Assertion),
    /// Attributes alone, which declare nothing.
    Attributes,
}

/// A declaration.
#[cycle(syntax)]
pub struct Declaration {
    form: Rc<DeclarationForm>,
    depth: u32,
}

impl Drop for Declaration {
    #[cycle(letting_go)]
    fn drop(self) {
        let Declaration { form: _, depth: _ } = self;
    }
}

/// A declarator, with its initializer where it has one.
#[cycle(syntax)]
#[derive(Drop)]
pub struct InitDeclarator {
    pub declarator: Declarator,
    pub initializer: Option<Initializer>,
}

/// `static_assert` with its condition and its message (6.7.12), and the place of its word.
#[cycle(syntax)]
#[derive(Drop)]
pub struct Assertion {
    pub condition: Expr,
    pub message: Option<Bytes>,
    pub place: Place,
}

impl Model for Declaration {
    ghost use Rattle.std.specs.Prelude.{◌≡◌};
    ghost use Rattle.model_grammar.specs.SyntaxForms as m;
    ghost use Rattle.c_tree.specs.apparatus.SyntaxSizes.{declaration_nodes};
    ghost use Rattle.c_tree.specs.SyntaxDepth.{declaration_depth, capped};
    ghost use Rattle.c_tree.specs.apparatus.SyntaxCode.{coded_declaration};

    ghost Value = { m.Declaration };

    ghost coded = { coded_declaration };

    ghost use Rattle.c_tree.specs.SyntaxViews.{declaration_of};

    ghost view = { λ a. declaration_of a.form.value };

    ghost invariant = { λ a. a.depth ≡ capped (declaration_depth (declaration_of a.form.value)) };

    ghost size = { declaration_nodes };

    ghost use Rattle.c_tree.specs.apparatus.SyntaxFalls.{declaration_falls};

    ghost size_decreases = { λ a h. declaration_falls a.form.value };
}

impl Declaration {
    /// The declaration of this form. On refusal the form is dropped.
    pub fn new(alloc: Global, form: DeclarationForm) -> Result<Declaration, NoMemory>
        ensures { IfOk result (λ made. declaration_tree made ≡ declaration_of form) }
    {
        let depth = declaration_form_depth(&form);
        match Rc::new(alloc, form) {
            Ok(form) => Ok(Declaration { form, depth }),
            Err(failed) => {
                drop(failed);
                Err(NoMemory)
            }
        }
    }

    /// The form that the declaration was made of.
    pub fn form(&self) -> &DeclarationForm
        ensures { declaration_of result.now ≡ declaration_tree self.now }
    {
        &self.form
    }

    /// An equal declaration.
    pub fn copy(&self, _alloc: Global) -> Result<Declaration, NoMemory>
        ensures { IfOk result (λ made. declaration_tree made ≡ declaration_tree self.now) }
    {
        match self.form.clone() {
            Ok(form) => Ok(Declaration {
                form,
                depth: self.depth,
            }),
            Err(_) => Err(NoMemory),
        }
    }

    /// How deep the declaration is, or the greatest number where it is deeper.
    pub(crate) fn depth(&self) -> u32
        ensures { result ≡ capped (declaration_depth (declaration_tree self.now)) }
    {
        self.depth
    }
}
