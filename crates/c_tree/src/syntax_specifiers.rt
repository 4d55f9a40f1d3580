//! Specifiers of declarations, and type names (ISO/IEC 9899:2024, 6.7.1 to 6.7.5, 6.7.8).
ghost use Rattle.std.specs.Prelude.{◌≡◌, IfOk};
ghost use Rattle.c_tree.specs.SyntaxDepth.{capped, specs_depth, type_name_depth};
ghost use Rattle.c_tree.specs.SyntaxViews.{type_name_of, specs_of};
ghost use Rattle.c_tree.specs.SyntaxTrees.{type_name_tree, specs_tree};

use crate::syntax_declarations::Assertion;
use crate::syntax_declarators::Declarator;
use crate::syntax_depths::{specs_form_depth, type_name_form_depth};
use crate::syntax_expressions::Expr;
use cake_base::{NoMemory, Place};
use model_grammar::syntax::{FunctionWord, Name, Qualifier, StorageWord, TypeWord, TypeofWord};
use sqlite_items::Items;
use std::alloc::Global;
use std::marker::Model;
use std::rc::Rc;

/// A type name (6.7.8): its specifiers, and its declarator, which has no name.
#[cycle(syntax)]
#[derive(Drop)]
pub struct TypeNameForm {
    pub specs: Specs,
    pub declarator: Declarator,
}

/// A type name.
#[cycle(syntax)]
pub struct TypeName {
    form: Rc<TypeNameForm>,
    depth: u32,
}

impl Drop for TypeName {
    #[cycle(letting_go)]
    fn drop(self) {
        let TypeName { form: _, depth: _ } = self;
    }
}

/// A specifier of a declaration (6.7.1 to 6.7.5). The place is that of its word.
#[cycle(syntax)]
#[derive(Drop)]
pub enum Spec {
    Storage {
        word: StorageWord,
        place: Place,
    },
    Function {
        word: FunctionWord,
        place: Place,
    },
    /// A type specifier that is one keyword.
    Keyword {
        word: TypeWord,
        place: Place,
    },
    Qualifier(Qualifier),
    /// A structure by its tag.
    StructTag {
        tag: Name,
        place: Place,
    },
    /// A structure with members in braces, and its tag where it has one.
    Struct {
        tag: Option<Name>,
        members: Items<MemberDeclaration>,
        place: Place,
    },
    /// An enumeration by its tag, with the specifiers of its type where they are written.
    EnumTag {
        tag: Name,
        fixed: Option<Specs>,
        place: Place,
    },
    /// An enumeration with enumerators in braces, with its tag and the specifiers of its type where they are written.
    Enum {
        tag: Option<Name>,
        fixed: Option<Specs>,
        enumerators: Items<Enumerator>,
        place: Place,
    },
    TypedefName(Name),
    /// `typeof` or `typeof_unqual` of an expression.
    TypeofExpr {
        word: TypeofWord,
        operand: Expr,
        place: Place,
    },
    /// `typeof` or `typeof_unqual` of a type name.
    TypeofType {
        word: TypeofWord,
        name: TypeName,
        place: Place,
    },
}

/// Specifiers in order (6.7.1).
#[cycle(syntax)]
#[derive(Drop)]
pub struct SpecsForm {
    pub specs: Items<Spec>,
}

/// A list of specifiers.
#[cycle(syntax)]
pub struct Specs {
    form: Rc<SpecsForm>,
    depth: u32,
}

impl Drop for Specs {
    #[cycle(letting_go)]
    fn drop(self) {
        let Specs { form: _, depth: _ } = self;
    }
}

/// What a declaration in the braces of a structure is (6.7.3.2).
#[cycle(syntax)]
#[derive(Drop)]
pub enum MemberDeclaration {
    Declarators {
        specs: Specs,
        declarators: Items<Declarator>,
    },
    Assertion(Assertion),
}

/// An enumerator, with the expression of its value where it has one (6.7.3.3).
#[cycle(syntax)]
#[derive(Drop)]
pub struct Enumerator {
    pub name: Name,
    pub value: Option<Expr>,
}

impl Model for TypeName {
    ghost use Rattle.std.specs.Prelude.{◌≡◌};
    ghost use Rattle.model_grammar.specs.SyntaxForms as m;
    ghost use Rattle.c_tree.specs.apparatus.SyntaxSizes.{type_name_nodes};
    ghost use Rattle.c_tree.specs.SyntaxDepth.{type_name_depth, capped};
    ghost use Rattle.c_tree.specs.apparatus.SyntaxCode.{coded_type_name};

    ghost Value = { m.TypeName };

    ghost coded = { coded_type_name };

    ghost use Rattle.c_tree.specs.SyntaxViews.{type_name_of};

    ghost view = { λ a. type_name_of a.form.value };

    ghost invariant = { λ a. a.depth ≡ capped (type_name_depth (type_name_of a.form.value)) };

    ghost size = { type_name_nodes };

    ghost use Rattle.c_tree.specs.apparatus.SyntaxFalls.{type_name_falls};

    ghost size_decreases = { λ a h. type_name_falls a.form.value };
}

impl Model for Specs {
    ghost use Rattle.std.specs.Prelude.{◌≡◌};
    ghost use Rattle.model_grammar.specs.SyntaxForms as m;
    ghost use Rattle.c_tree.specs.apparatus.SyntaxSizes.{specs_nodes};
    ghost use Rattle.c_tree.specs.SyntaxDepth.{specs_depth, capped};
    ghost use Rattle.c_tree.specs.apparatus.SyntaxCode.{coded_specs};

    ghost Value = { m.Specs };

    ghost coded = { coded_specs };

    ghost use Rattle.c_tree.specs.SyntaxViews.{specs_of};

    ghost view = { λ a. specs_of a.form.value };

    ghost invariant = { λ a. a.depth ≡ capped (specs_depth (specs_of a.form.value)) };

    ghost size = { specs_nodes };

    ghost use Rattle.c_tree.specs.apparatus.SyntaxFalls.{specs_falls};

    ghost size_decreases = { λ a h. specs_falls a.form.value };
}

impl TypeName {
    /// The type name of this form. On refusal the form is dropped.
    pub fn new(alloc: Global, form: TypeNameForm) -> Result<TypeName, NoMemory>
        ensures { IfOk result (λ made. type_name_tree made ≡ type_name_of form) }
    {
        let depth = type_name_form_depth(&form);
        match Rc::new(alloc, form) {
            Ok(form) => Ok(TypeName { form, depth }),
            Err(failed) => {
                drop(failed);
                Err(NoMemory)
            }
        }
    }

    /// The form that the type name was made of.
    pub fn form(&self) -> &TypeNameForm
        ensures { type_name_of result.now ≡ type_name_tree self.now }
    {
        &self.form
    }

    /// An equal type name.
    pub fn copy(&self, _alloc: Global) -> Result<TypeName, NoMemory>
        ensures { IfOk result (λ made. type_name_tree made ≡ type_name_tree self.now) }
    {
        match self.form.clone() {
            Ok(form) => Ok(TypeName {
                form,
                depth: self.depth,
            }),
            Err(_) => Err(NoMemory),
        }
    }

    /// How deep the type name is, or the greatest number where it is deeper.
    pub(crate) fn depth(&self) -> u32
        ensures { result ≡ capped (type_name_depth (type_name_tree self.now)) }
    {
        self.depth
    }
}

impl Specs {
    /// The list of specifiers of this form. On refusal the form is dropped.
    pub fn new(alloc: Global, form: SpecsForm) -> Result<Specs, NoMemory>
        ensures { IfOk result (λ made. specs_tree made ≡ specs_of form) }
    {
        let depth = specs_form_depth(&form);
        match Rc::new(alloc, form) {
            Ok(form) => Ok(Specs { form, depth }),
            Err(failed) => {
                drop(failed);
                Err(NoMemory)
            }
        }
    }

    /// The form that the list of specifiers was made of.
    pub fn form(&self) -> &SpecsForm
        ensures { specs_of result.now ≡ specs_tree self.now }
    {
        &self.form
    }

    /// An equal list of specifiers.
    pub fn copy(&self, _alloc: Global) -> Result<Specs, NoMemory>
        ensures { IfOk result (λ made. specs_tree made ≡ specs_tree self.now) }
    {
        match self.form.clone() {
            Ok(form) => Ok(Specs {
                form,
                depth: self.depth,
            }),
            Err(_) => Err(NoMemory),
        }
    }

    /// How deep the list of specifiers is, or the greatest number where it is deeper.
    pub(crate) fn depth(&self) -> u32
        ensures { result ≡ capped (specs_depth (specs_tree self.now)) }
    {
        self.depth
    }
}
