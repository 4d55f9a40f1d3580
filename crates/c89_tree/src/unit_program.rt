//! Structures, outer declarations, functions and the whole of a C89 program, behind counted references: to copy
//! one costs nothing.
ghost use Rattle.std.specs.Prelude.{◌≡◌, IfOk, length};
ghost use Rattle.model_core.specs.Program89 as m;
ghost use Rattle.c89_tree.specs.UnitProgramForms.{structure_of, outer_of, function_of, program_of, object_count_of};
ghost use Rattle.c89_tree.specs.UnitTrees.{structure_tree, outer_tree, function_tree, program_tree};

use crate::unit_exprs::OutInit;
use crate::unit_stats::OutStats;
use crate::unit_types::{OutDeclaration, OutType};
use cake_base::{Bytes, NoMemory};
use sqlite_items::Items;
use std::alloc::Global;
use std::marker::Model;
use std::rc::Rc;

/// The storage class that a declaration is written with (ISO/IEC 9899:1990, 6.5.1).
#[derive(Clone, Copy, Debug, PartialEq, Eq)]
pub enum OutStorage {
    Plainly,
    Static,
    Extern,
}

/// The form of a structure (6.5.2.1): its tag alone, or with one member at least.
#[derive(Drop)]
pub enum OutStructureForm {
    Tag {
        name: Bytes,
    },
    Members {
        name: Bytes,
        first: OutDeclaration,
        others: Items<OutDeclaration>,
    },
}

/// A structure.
pub struct OutStructure {
    form: Rc<OutStructureForm>,
}

impl Drop for OutStructure {
    fn drop(self) {
        let OutStructure { form: _ } = self;
    }
}

/// The parts of a declaration outside of functions (6.7).
#[derive(Drop)]
pub struct OutOuterForm {
    pub storage: OutStorage,
    pub ty: OutType,
    pub name: Bytes,
    /// Its initial value, where it has one.
    pub init: Option<OutInit>,
}

/// A declaration outside of functions.
pub struct OutOuter {
    form: Rc<OutOuterForm>,
}

impl Drop for OutOuter {
    fn drop(self) {
        let OutOuter { form: _ } = self;
    }
}

/// The parts of a defined function (6.7.1).
#[derive(Drop)]
pub struct OutFunctionForm {
    pub is_static: bool,
    pub result: OutType,
    pub name: Bytes,
    pub parameters: Items<OutDeclaration>,
    pub is_variadic: bool,
    /// The objects that are declared at the beginning of the body.
    pub objects: Items<OutDeclaration>,
    pub body: OutStats,
}

/// A defined function.
pub struct OutFunction {
    form: Rc<OutFunctionForm>,
}

impl Drop for OutFunction {
    fn drop(self) {
        let OutFunction { form: _ } = self;
    }
}

/// The parts of a program, in the order of the text.
#[derive(Drop)]
pub struct C89Form {
    pub structures: Items<OutStructure>,
    pub outers: Items<OutOuter>,
    pub functions: Items<OutFunction>,
}

/// A C89 program.
pub struct C89Unit {
    form: Rc<C89Form>,
}

impl Drop for C89Unit {
    fn drop(self) {
        let C89Unit { form: _ } = self;
    }
}

impl Model for OutStructure {
    ghost use Rattle.model_core.specs.Program89 as m;
    ghost use Rattle.c89_tree.specs.apparatus.UnitProgramCode.{coded_structure};

    ghost Value = { m.Structure89 };

    ghost coded = { coded_structure };

    ghost use Rattle.model_core.specs.Program89 as m;
    ghost use Rattle.c89_tree.specs.UnitProgramForms.{structure_of};

    ghost view = { λ a. structure_of a.form.value };
}

impl Model for OutOuter {
    ghost use Rattle.model_core.specs.Program89 as m;
    ghost use Rattle.c89_tree.specs.apparatus.UnitProgramCode.{coded_outer};

    ghost Value = { m.Outer };

    ghost coded = { coded_outer };

    ghost use Rattle.model_core.specs.Program89 as m;
    ghost use Rattle.c89_tree.specs.UnitProgramForms.{outer_of};

    ghost view = { λ a. outer_of a.form.value };
}

impl Model for OutFunction {
    ghost use Rattle.model_core.specs.Program89 as m;
    ghost use Rattle.c89_tree.specs.apparatus.UnitProgramCode.{coded_function};

    ghost Value = { m.Function };

    ghost coded = { coded_function };

    ghost use Rattle.model_core.specs.Program89 as m;
    ghost use Rattle.c89_tree.specs.UnitProgramForms.{function_of};

    ghost view = { λ a. function_of a.form.value };
}

impl Model for C89Unit {
    ghost use Rattle.model_core.specs.Program89 as m;
    ghost use Rattle.c89_tree.specs.apparatus.UnitProgramCode.{coded_program};

    ghost Value = { m.Program };

    ghost coded = { coded_program };

    ghost use Rattle.model_core.specs.Program89 as m;
    ghost use Rattle.c89_tree.specs.UnitProgramForms.{program_of};

    ghost view = { λ a. program_of a.form.value };
}

impl OutStructure {
    /// The structure of a form. On refusal the form is dropped.
    pub fn new(alloc: Global, form: OutStructureForm) -> Result<OutStructure, NoMemory>
        ensures { IfOk result (λ made. structure_tree made ≡ structure_of form) }
    {
        match Rc::new(alloc, form) {
            Ok(form) => Ok(OutStructure { form }),
            Err(failed) => {
                drop(failed);
                Err(NoMemory)
            }
        }
    }

    /// The form that the structure was made of.
    pub fn form(&self) -> &OutStructureForm
        ensures { structure_of result.now ≡ structure_tree self.now }
    {
        &self.form
    }

    /// An equal structure.
    pub fn copy(&self, _alloc: Global) -> Result<OutStructure, NoMemory>
        ensures { IfOk result (λ made. structure_tree made ≡ structure_tree self.now) }
    {
        match self.form.clone() {
            Ok(form) => Ok(OutStructure { form }),
            Err(_) => Err(NoMemory),
        }
    }
}

impl OutOuter {
    /// The declaration of its parts. On refusal they are dropped.
    pub fn new(alloc: Global, form: OutOuterForm) -> Result<OutOuter, NoMemory>
        ensures { IfOk result (λ made. outer_tree made ≡ outer_of form) }
    {
        match Rc::new(alloc, form) {
            Ok(form) => Ok(OutOuter { form }),
            Err(failed) => {
                drop(failed);
                Err(NoMemory)
            }
        }
    }

    /// The parts that the declaration was made of.
    pub fn form(&self) -> &OutOuterForm
        ensures { outer_of result.now ≡ outer_tree self.now }
    {
        &self.form
    }

    /// An equal declaration.
    pub fn copy(&self, _alloc: Global) -> Result<OutOuter, NoMemory>
        ensures { IfOk result (λ made. outer_tree made ≡ outer_tree self.now) }
    {
        match self.form.clone() {
            Ok(form) => Ok(OutOuter { form }),
            Err(_) => Err(NoMemory),
        }
    }
}

impl OutOuter {
    /// Whether it declares an object, and no function.
    pub fn is_object(&self) -> bool
        ensures { result ≡ m.is_object (outer_tree self.now).type }
    {
        self.form.ty.is_object()
    }
}

impl OutFunction {
    /// The function of its parts. On refusal they are dropped.
    pub fn new(alloc: Global, form: OutFunctionForm) -> Result<OutFunction, NoMemory>
        ensures { IfOk result (λ made. function_tree made ≡ function_of form) }
    {
        match Rc::new(alloc, form) {
            Ok(form) => Ok(OutFunction { form }),
            Err(failed) => {
                drop(failed);
                Err(NoMemory)
            }
        }
    }

    /// The parts that the function was made of.
    pub fn form(&self) -> &OutFunctionForm
        ensures { function_of result.now ≡ function_tree self.now }
    {
        &self.form
    }

    /// An equal function.
    pub fn copy(&self, _alloc: Global) -> Result<OutFunction, NoMemory>
        ensures { IfOk result (λ made. function_tree made ≡ function_tree self.now) }
    {
        match self.form.clone() {
            Ok(form) => Ok(OutFunction { form }),
            Err(_) => Err(NoMemory),
        }
    }
}

impl C89Unit {
    /// The program of its parts. On refusal they are dropped.
    pub fn new(alloc: Global, form: C89Form) -> Result<C89Unit, NoMemory>
        ensures { IfOk result (λ made. program_tree made ≡ program_of form) }
    {
        match Rc::new(alloc, form) {
            Ok(form) => Ok(C89Unit { form }),
            Err(failed) => {
                drop(failed);
                Err(NoMemory)
            }
        }
    }

    /// The parts that the program was made of.
    pub fn form(&self) -> &C89Form
        ensures { program_of result.now ≡ program_tree self.now }
    {
        &self.form
    }

    /// An equal program.
    pub fn copy(&self, _alloc: Global) -> Result<C89Unit, NoMemory>
        ensures { IfOk result (λ made. program_tree made ≡ program_tree self.now) }
    {
        match self.form.clone() {
            Ok(form) => Ok(C89Unit { form }),
            Err(_) => Err(NoMemory),
        }
    }

    /// The number of its defined functions.
    pub fn function_count(&self) -> usize
        ensures { result ≡ length (program_tree self.now).functions }
    {
        self.form.functions.len()
    }

    /// The number of its declarations of objects outside of functions.
    pub fn object_count(&self) -> usize
        ensures { result ≡ object_count_of (program_tree self.now).outers }
    {
        object_count(self.form.outers.as_slice())
    }
}

fn object_count(outers: &[OutOuter]) -> usize
    ensures { result ≡ object_count_of outers.now }
{
    let mut count = 0;
    for outer in outers {
        count += outer.is_object() as usize;
    }
    count
}
