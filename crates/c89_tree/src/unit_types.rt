//! Types and declarations of a C89 program, behind counted references: to copy one costs nothing.
ghost use Rattle.std.specs.Prelude.{◌≡◌, IfOk};
ghost use Rattle.model_core.specs.Program89 as m;
ghost use Rattle.c89_tree.specs.UnitTypeForms.{type_of, declaration_of};
ghost use Rattle.c89_tree.specs.UnitTrees.{type_tree, declaration_tree};

use cake_base::{Bytes, NoMemory};
use sqlite_items::Items;
use std::alloc::Global;
use std::marker::Model;
use std::rc::Rc;

/// What a type is based on (ISO/IEC 9899:1990, 6.5.2).
#[derive(Drop)]
pub enum OutBase {
    Void,
    Char,
    SignedChar,
    UnsignedChar,
    Short,
    UnsignedShort,
    Int,
    UnsignedInt,
    Long,
    UnsignedLong,
    Struct { name: Bytes },
}

/// The form of a type (6.1.2.5). A base or a pointer is const only behind a pointer.
#[cycle(out_type)]
#[derive(Drop)]
pub enum OutTypeForm {
    Based {
        is_const: bool,
        base: OutBase,
    },
    Pointer {
        is_const: bool,
        to: OutType,
    },
    /// An array, with its length, where there is one.
    Array {
        count: Option<u64>,
        of: OutType,
    },
    Function {
        result: OutType,
        parameters: Items<OutType>,
        is_variadic: bool,
    },
}

/// A type.
#[cycle(out_type)]
pub struct OutType {
    form: Rc<OutTypeForm>,
}

impl Drop for OutType {
    #[cycle(out_type_let_go)]
    fn drop(self) {
        let OutType { form: _ } = self;
    }
}

/// The parts of a declaration of an object, a member or a parameter (6.5).
#[derive(Drop)]
pub struct OutDeclarationForm {
    pub ty: OutType,
    pub name: Bytes,
}

/// A declaration of an object, a member or a parameter.
pub struct OutDeclaration {
    form: Rc<OutDeclarationForm>,
}

impl Drop for OutDeclaration {
    fn drop(self) {
        let OutDeclaration { form: _ } = self;
    }
}

impl Model for OutType {
    ghost use Rattle.model_core.specs.Types89 as m;
    ghost use Rattle.c89_tree.specs.apparatus.UnitTypeCode.{coded_type};

    ghost Value = { m.Type89 };

    ghost coded = { coded_type };

    ghost use Rattle.c89_tree.specs.UnitTypeForms.{type_of};

    ghost view = { λ a. type_of a.form.value };

    ghost use Rattle.c89_tree.specs.apparatus.UnitSizes.{type_nodes};

    ghost size = { type_nodes };

    ghost use Rattle.c89_tree.specs.apparatus.UnitTypeFalls.{type_falls};

    ghost size_decreases = { λ a h. type_falls a.form.value };
}

impl Model for OutDeclaration {
    ghost use Rattle.model_core.specs.Program89 as m;
    ghost use Rattle.c89_tree.specs.apparatus.UnitStatCode.{coded_declaration};

    ghost Value = { m.Declaration };

    ghost coded = { coded_declaration };

    ghost use Rattle.c89_tree.specs.UnitTypeForms.{declaration_of};

    ghost view = { λ a. declaration_of a.form.value };
}

impl OutType {
    /// The type of a form. On refusal the form is dropped.
    pub fn new(alloc: Global, form: OutTypeForm) -> Result<OutType, NoMemory>
        ensures { IfOk result (λ made. type_tree made ≡ type_of form) }
    {
        match Rc::new(alloc, form) {
            Ok(form) => Ok(OutType { form }),
            Err(failed) => {
                drop(failed);
                Err(NoMemory)
            }
        }
    }

    /// The form that the type was made of.
    pub fn form(&self) -> &OutTypeForm
        ensures { type_of result.now ≡ type_tree self.now }
    {
        &self.form
    }

    /// An equal type.
    pub fn copy(&self, _alloc: Global) -> Result<OutType, NoMemory>
        ensures { IfOk result (λ made. type_tree made ≡ type_tree self.now) }
    {
        match self.form.clone() {
            Ok(form) => Ok(OutType { form }),
            Err(_) => Err(NoMemory),
        }
    }
}

impl OutType {
    /// Whether it is that of an object, and of no function.
    pub fn is_object(&self) -> bool
        ensures { result ≡ m.is_object (type_tree self.now) }
    {
        match self.form() {
            OutTypeForm::Based { .. } => true,
            OutTypeForm::Pointer { .. } => true,
            OutTypeForm::Array { .. } => true,
            OutTypeForm::Function { .. } => false,
        }
    }
}

impl OutDeclaration {
    /// The declaration of its parts. On refusal they are dropped.
    pub fn new(alloc: Global, form: OutDeclarationForm) -> Result<OutDeclaration, NoMemory>
        ensures { IfOk result (λ made. declaration_tree made ≡ declaration_of form) }
    {
        match Rc::new(alloc, form) {
            Ok(form) => Ok(OutDeclaration { form }),
            Err(failed) => {
                drop(failed);
                Err(NoMemory)
            }
        }
    }

    /// The parts that the declaration was made of.
    pub fn form(&self) -> &OutDeclarationForm
        ensures { declaration_of result.now ≡ declaration_tree self.now }
    {
        &self.form
    }

    /// An equal declaration.
    pub fn copy(&self, _alloc: Global) -> Result<OutDeclaration, NoMemory>
        ensures { IfOk result (λ made. declaration_tree made ≡ declaration_tree self.now) }
    {
        match self.form.clone() {
            Ok(form) => Ok(OutDeclaration { form }),
            Err(_) => Err(NoMemory),
        }
    }
}
