//! Objects, functions and the whole of the typed core, behind counted references: to copy one costs nothing.
ghost use Rattle.std.specs.Prelude.{◌≡◌, IfOk, IsTrue, length};
ghost use Rattle.model_core.specs.TypedUnitParts.{is_typed_object, is_typed_function};
ghost use Rattle.model_core.specs.TypedCore.{TypedCore};
ghost use Rattle.core_tree.specs.CoreUnitForms.{object_of, function_of, core_of};
ghost use Rattle.core_tree.specs.CoreTrees.{object_tree, function_tree, core_tree};

use crate::core_exprs::CoreInitial;
use crate::core_stats::CoreStat;
use c_types::{CType, Structs};
use cake_base::{Bytes, NoMemory, Place};
use model_types::marks::DeclId;
use sqlite_items::Items;
use std::alloc::Global;
use std::marker::Model;
use std::rc::Rc;

/// What an object is (ISO/IEC 9899:2024, 6.2.4).
#[derive(Drop)]
pub enum CoreStorage {
    Automatic,
    Parameter,
    /// Of static storage, with its initial values.
    Static { values: Items<CoreInitial> },
    /// Declared and nowhere defined.
    Declared,
    /// The object of a string literal, without the zero behind its bytes.
    Text { bytes: Bytes },
}

/// What the core says of an object.
#[derive(Drop)]
pub struct CoreObjectForm {
    pub id: DeclId,
    /// Its name in the source, where it has one.
    pub name: Option<Bytes>,
    pub ty: CType,
    /// Whether its name has external linkage (6.2.2).
    pub is_external: bool,
    pub storage: CoreStorage,
    pub is_address_taken: bool,
    pub place: Place,
    /// The place that counts for its name where units are joined.
    pub joint_place: Place,
}

/// An object of a unit.
pub struct CoreObject {
    form: Rc<CoreObjectForm>,
}

impl Drop for CoreObject {
    fn drop(self) {
        let CoreObject { form: _ } = self;
    }
}

/// The name of a function, or the place of a function literal.
#[derive(Drop)]
pub enum CoreFunctionName {
    Named { name: Bytes },
    Lambda { place: Place },
}

/// What the core says of a function.
#[derive(Drop)]
pub struct CoreFunctionForm {
    pub id: DeclId,
    pub name: CoreFunctionName,
    pub ty: CType,
    /// Whether its name has external linkage (6.2.2).
    pub is_external: bool,
    /// The objects of its parameters in order.
    pub parameters: Items<DeclId>,
    /// Its body, where it is defined.
    pub body: Option<CoreStat>,
    pub place: Place,
    /// The place that counts for its name where units are joined.
    pub joint_place: Place,
}

/// A function of a unit.
pub struct CoreFunction {
    form: Rc<CoreFunctionForm>,
}

impl Drop for CoreFunction {
    fn drop(self) {
        let CoreFunction { form: _ } = self;
    }
}

/// The type of a declarator or a type-name, and its place.
#[derive(Drop)]
pub struct CoreNamedType {
    pub place: Place,
    pub ty: CType,
}

/// The parts of a core.
#[derive(Drop)]
pub struct CoreForm {
    pub objects: Items<CoreObject>,
    pub functions: Items<CoreFunction>,
    pub structs: Structs,
    /// The types of all declarators and type-names of the unit.
    pub named_types: Items<CoreNamedType>,
}

/// A unit, which is typed.
pub struct Core {
    form: Rc<CoreForm>,
}

impl Drop for Core {
    fn drop(self) {
        let Core { form: _ } = self;
    }
}

impl Model for CoreObject {
    ghost use Rattle.std.specs.Prelude.{IsTrue};
    ghost use Rattle.model_core.specs.Core as m;
    ghost use Rattle.model_core.specs.TypedUnitParts.{is_typed_object};
    ghost use Rattle.core_tree.specs.apparatus.CoreUnitCode.{coded_object};

    ghost Value = { m.DeclaredObject };

    ghost coded = { coded_object };

    ghost use Rattle.core_tree.specs.CoreUnitForms.{object_of};

    ghost view = { λ a. object_of a.form.value };

    ghost invariant = { λ a. IsTrue (is_typed_object (object_of a.form.value)) };
}

impl Model for CoreFunction {
    ghost use Rattle.std.specs.Prelude.{IsTrue};
    ghost use Rattle.model_core.specs.Core as m;
    ghost use Rattle.model_core.specs.TypedUnitParts.{is_typed_function};
    ghost use Rattle.core_tree.specs.apparatus.CoreUnitCode.{coded_function};

    ghost Value = { m.Function };

    ghost coded = { coded_function };

    ghost use Rattle.core_tree.specs.CoreUnitForms.{function_of};

    ghost view = { λ a. function_of a.form.value };

    ghost invariant = { λ a. IsTrue (is_typed_function (function_of a.form.value)) };
}

impl Model for Core {
    ghost use Rattle.model_core.specs.Core as m;
    ghost use Rattle.model_core.specs.TypedCore.{TypedCore};
    ghost use Rattle.core_tree.specs.apparatus.CoreUnitCode.{coded_core};

    ghost Value = { m.Core };

    ghost coded = { coded_core };

    ghost use Rattle.core_tree.specs.CoreUnitForms.{core_of};

    ghost view = { λ a. core_of a.form.value };

    ghost invariant = { λ a. TypedCore (core_of a.form.value) };
}

impl CoreObject {
    /// The object of parts that are typed by themselves. On refusal they are dropped.
    pub fn new(alloc: Global, form: CoreObjectForm) -> Result<CoreObject, NoMemory>
        requires { IsTrue (is_typed_object (object_of form)) }
        ensures { IfOk result (λ made. object_tree made ≡ object_of form) }
    {
        match Rc::new(alloc, form) {
            Ok(form) => Ok(CoreObject { form }),
            Err(failed) => {
                drop(failed);
                Err(NoMemory)
            }
        }
    }

    /// The parts that the object was made of.
    pub fn form(&self) -> &CoreObjectForm
        ensures tree { object_of result.now ≡ object_tree self.now }
        ensures typed { IsTrue (is_typed_object (object_tree self.now)) }
    {
        &self.form
    }

    /// An equal object.
    pub fn copy(&self, _alloc: Global) -> Result<CoreObject, NoMemory>
        ensures { IfOk result (λ made. object_tree made ≡ object_tree self.now) }
    {
        match self.form.clone() {
            Ok(form) => Ok(CoreObject { form }),
            Err(_) => Err(NoMemory),
        }
    }
}

impl CoreFunction {
    /// The function of parts that are typed by themselves. On refusal they are dropped.
    pub fn new(alloc: Global, form: CoreFunctionForm) -> Result<CoreFunction, NoMemory>
        requires { IsTrue (is_typed_function (function_of form)) }
        ensures { IfOk result (λ made. function_tree made ≡ function_of form) }
    {
        match Rc::new(alloc, form) {
            Ok(form) => Ok(CoreFunction { form }),
            Err(failed) => {
                drop(failed);
                Err(NoMemory)
            }
        }
    }

    /// The parts that the function was made of.
    pub fn form(&self) -> &CoreFunctionForm
        ensures tree { function_of result.now ≡ function_tree self.now }
        ensures typed { IsTrue (is_typed_function (function_tree self.now)) }
    {
        &self.form
    }

    /// An equal function.
    pub fn copy(&self, _alloc: Global) -> Result<CoreFunction, NoMemory>
        ensures { IfOk result (λ made. function_tree made ≡ function_tree self.now) }
    {
        match self.form.clone() {
            Ok(form) => Ok(CoreFunction { form }),
            Err(_) => Err(NoMemory),
        }
    }
}

impl Core {
    /// The core of parts that are typed together. On refusal they are dropped.
    pub fn new(alloc: Global, form: CoreForm) -> Result<Core, NoMemory>
        requires { TypedCore (core_of form) }
        ensures { IfOk result (λ made. core_tree made ≡ core_of form) }
    {
        match Rc::new(alloc, form) {
            Ok(form) => Ok(Core { form }),
            Err(failed) => {
                drop(failed);
                Err(NoMemory)
            }
        }
    }

    /// The parts that the core was made of.
    pub fn form(&self) -> &CoreForm
        ensures tree { core_of result.now ≡ core_tree self.now }
        ensures typed { TypedCore (core_tree self.now) }
    {
        &self.form
    }

    /// An equal core.
    pub fn copy(&self, _alloc: Global) -> Result<Core, NoMemory>
        ensures { IfOk result (λ made. core_tree made ≡ core_tree self.now) }
    {
        match self.form.clone() {
            Ok(form) => Ok(Core { form }),
            Err(_) => Err(NoMemory),
        }
    }

    /// The structures of the unit.
    pub fn structs(&self) -> &Structs
        ensures { result.now ≡ (core_tree self.now).structs }
    {
        &self.form.structs
    }

    /// The number of its functions, defined or declared.
    pub fn function_count(&self) -> usize
        ensures { result ≡ length (core_tree self.now).functions }
    {
        self.form.functions.len()
    }

    /// The number of its objects, those of blocks, of literals and of strings among them.
    pub fn object_count(&self) -> usize
        ensures { result ≡ length (core_tree self.now).objects }
    {
        self.form.objects.len()
    }
}
