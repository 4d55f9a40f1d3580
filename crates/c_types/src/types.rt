//! Types behind counted references: to copy one costs nothing.
ghost use Rattle.std.specs.Prelude.{◌≡◌, [], ◌∷◌, ◌++◌, ◌↔◌, length, slice_get, IfOk, OnOk, OnErr};
ghost use Rattle.std.specs.Option.{option_copied};
ghost use Rattle.model_types.specs.Types as m;
ghost use Rattle.c_types.specs.Forms.{form_of};

use cake_base::NoMemory;
use model_types::numbers::Basic;
use model_types::types::{Quals, StructId};
use std::alloc::Global;
use std::marker::Model;
use std::rc::Rc;

/// The form of a type (ISO/IEC 9899:2024, 6.2.5).
#[cycle(ty)]
#[derive(Drop)]
pub enum TypeForm {
    Void,
    Integer(Basic),
    /// An enumeration, with its underlying type and the `order` of the word `enum` that made it.
    Enum(Basic, u32),
    Pointer(CType),
    /// An array, with its element and, where there is one, its length.
    Array(CType, Option<u64>),
    Struct(StructId),
    /// A function, with its result, its parameters, and whether it is variadic.
    Function(CType, TypeList, bool),
}

/// A type: a form with its qualifiers. The qualifiers of an array are its element's.
#[cycle(ty)]
#[derive(Drop)]
pub struct CType {
    form: Rc<TypeForm>,
    quals: Quals,
}

/// A list of types.
#[cycle(ty)]
#[derive(Drop)]
pub struct TypeList {
    list: Vec<CType>,
}

impl Model for CType {
    ghost use Rattle.model_types.specs.Types as m;
    ghost use Rattle.model_types.specs.apparatus.TypesCode.{coded_type};

    ghost Value = { m.CType };

    ghost coded = { coded_type };

    ghost use Rattle.c_types.specs.Forms.{form_of};

    ghost view = { λ a. m.typed (form_of a.form.value) a.quals };

    ghost size = { m.type_nodes };

    ghost use Rattle.c_types.specs.Falls.{type_falls};

    ghost size_decreases = { λ a h. type_falls a.form.value };
}

impl Model for TypeList {
    ghost use Rattle.std.specs.Prelude.{List};
    ghost use Rattle.std.specs.Coded.{coded_list};
    ghost use Rattle.model_types.specs.Types as m;
    ghost use Rattle.model_types.specs.apparatus.TypesCode.{coded_type};

    ghost Value = { List m.CType };

    ghost coded = { coded_list coded_type };

    ghost view = { λ a. a.list.items };

    ghost size = { λ ts. m.types_nodes (m.types ts) };

    ghost use Rattle.c_types.specs.Falls.{list_falls};

    ghost size_decreases = { λ a h. list_falls a.list.items };
}

impl CType {
    /// The type of this form with these qualifiers. On refusal the form is dropped.
    pub fn new(alloc: Global, form: TypeForm, quals: Quals) -> Result<CType, NoMemory>
        ensures { IfOk result (λ made. made ≡ m.typed (form_of form) quals) }
    {
        match Rc::new(alloc, form) {
            Ok(form) => Ok(CType { form, quals }),
            Err(_) => Err(NoMemory),
        }
    }

    /// The form that the type was made of.
    pub fn form(&self) -> &TypeForm
        ensures { form_of result.now ≡ m.form_of_type self.now }
    {
        &self.form
    }

    /// The qualifiers that the type was made with.
    pub fn quals(&self) -> Quals
        ensures { result ≡ m.quals_of_type self.now }
    {
        self.quals
    }

    /// The type of the same form with these qualifiers.
    pub fn with_quals(&self, _alloc: Global, quals: Quals) -> Result<CType, NoMemory>
        ensures { IfOk result (λ made. made ≡ m.typed (m.form_of_type self.now) quals) }
    {
        match self.form.clone() {
            Ok(form) => Ok(CType { form, quals }),
            Err(_) => Err(NoMemory),
        }
    }

    /// An equal type.
    pub fn copy(&self, _alloc: Global) -> Result<CType, NoMemory>
        ensures { IfOk result (λ made. made ≡ self.now) }
    {
        match self.form.clone() {
            Ok(form) => Ok(CType {
                form,
                quals: self.quals,
            }),
            Err(_) => Err(NoMemory),
        }
    }
}

impl TypeList {
    /// The empty list.
    pub fn new(alloc: Global) -> TypeList
        ensures { result ≡ [] }
    {
        TypeList {
            list: Vec::new(alloc),
        }
    }

    /// Adds a type at the end. On refusal the list is unchanged, and the type is dropped.
    pub fn push(&mut self, ty: CType) -> Result<(), NoMemory>
        ensures ok { OnOk result (self.new ≡ self.old ++ ty ∷ []) }
        ensures err { OnErr result (self.new ≡ self.old) }
    {
        match self.list.push(ty) {
            Ok(()) => Ok(()),
            Err(_) => Err(NoMemory),
        }
    }

    /// The number of types.
    pub fn count(&self) -> usize
        ensures { result ≡ length self.now }
    {
        self.list.len()
    }

    /// The type of a rank, counted from 0; none where the rank isn't below the count.
    pub fn get(&self, at: usize) -> Option<&CType>
        ensures { option_copied result ≡ slice_get self.now at }
    {
        self.list.get(at)
    }

    /// The types in order.
    pub fn as_slice(&self) -> &[CType]
        ensures { result.now ≡ self.now }
    {
        &self.list
    }
}
