//! Translation units (ISO/IEC 9899:2024, 6.9).
ghost use Rattle.std.specs.Prelude.{◌≡◌, IfOk};
ghost use Rattle.c_tree.specs.SyntaxDepth.{capped, unit_depth};
ghost use Rattle.c_tree.specs.SyntaxViews.{tree_of_form};
ghost use Rattle.c_tree.specs.SyntaxTrees.{unit_of};

use crate::syntax_declarations::Declaration;
use crate::syntax_declarators::Declarator;
use crate::syntax_depths::unit_form_depth;
use crate::syntax_specifiers::Specs;
use crate::syntax_statements::Block;
use cake_base::NoMemory;
use sqlite_items::Items;
use std::alloc::Global;
use std::marker::Model;
use std::rc::Rc;

/// What a unit consists of (6.9).
#[derive(Drop)]
pub enum External {
    /// The definition of a function.
    Function {
        specs: Specs,
        declarator: Declarator,
        body: Block,
    },
    Declaration(Declaration),
}

/// A unit: its declarations and definitions in order.
#[derive(Drop)]
pub struct TreeForm {
    pub externals: Items<External>,
}

/// A whole tree of the grammar.
pub struct Tree {
    form: Rc<TreeForm>,
    depth: u32,
}

impl Drop for Tree {
    fn drop(self) {
        let Tree { form: _, depth: _ } = self;
    }
}

impl Model for Tree {
    ghost use Rattle.std.specs.Prelude.{◌≡◌, List};
    ghost use Rattle.std.specs.Coded.{coded_list};
    ghost use Rattle.model_grammar.specs.SyntaxForms as m;
    ghost use Rattle.c_tree.specs.SyntaxDepth.{unit_depth, capped};
    ghost use Rattle.c_tree.specs.apparatus.SyntaxCode.{coded_external};

    ghost Value = { List m.External };

    ghost coded = { coded_list coded_external };

    ghost use Rattle.c_tree.specs.SyntaxViews.{tree_of_form};

    ghost view = { λ a. tree_of_form a.form.value };

    ghost invariant = { λ a. a.depth ≡ capped (unit_depth (tree_of_form a.form.value)) };
}

impl Tree {
    /// The tree of this form. On refusal the form is dropped.
    pub fn new(alloc: Global, form: TreeForm) -> Result<Tree, NoMemory>
        ensures { IfOk result (λ made. unit_of made ≡ tree_of_form form) }
    {
        let depth = unit_form_depth(&form);
        match Rc::new(alloc, form) {
            Ok(form) => Ok(Tree { form, depth }),
            Err(failed) => {
                drop(failed);
                Err(NoMemory)
            }
        }
    }

    /// The form that the tree was made of.
    pub fn form(&self) -> &TreeForm
        ensures { tree_of_form result.now ≡ unit_of self.now }
    {
        &self.form
    }

    /// An equal tree.
    pub fn copy(&self, _alloc: Global) -> Result<Tree, NoMemory>
        ensures { IfOk result (λ made. unit_of made ≡ unit_of self.now) }
    {
        match self.form.clone() {
            Ok(form) => Ok(Tree {
                form,
                depth: self.depth,
            }),
            Err(_) => Err(NoMemory),
        }
    }

    /// How deep the tree is: a form is one deeper than the deepest of its parts, and lists aren't depth. 4,294,967,295
    /// where it is deeper.
    pub fn depth(&self) -> u32
        ensures { result ≡ capped (unit_depth (unit_of self.now)) }
    {
        self.depth
    }
}
