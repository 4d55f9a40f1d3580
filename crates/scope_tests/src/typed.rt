//! Types by their words.
ghost use Rattle.std.specs.Prelude.{ℕ, List, pos, Some, IsTrue, IfOk};
ghost use Rattle.model_types.specs.Types.{form_of_type};
ghost use Rattle.model_types.specs.Structures.{Structure, names_below};
ghost use Rattle.model_types.specs.Layout.{is_complete};
ghost use Rattle.model_scopes.specs.Declarations as d;

use c_types::{Basic, CType, Quals, TypeForm, TypeList};
use cake_base::NoMemory;
use decl_scope::Kind;
use std::alloc::Global;

pub const PLAIN: Quals = Quals {
    has_const: false,
    has_restrict: false,
    has_owner: false,
    has_view: false,
    has_opt: false,
};

const OWNER: Quals = Quals {
    has_const: false,
    has_restrict: false,
    has_owner: true,
    has_view: false,
    has_opt: true,
};

pub fn int(alloc: Global) -> Result<CType, NoMemory>
    ensures known { IfOk result (λ t. (n : ℕ) → IsTrue (names_below n t)) }
    ensures integer { IfOk result (λ t. IsTrue (d.fits_kind Kind.Enumerator (form_of_type t) (Some (record { value = pos 0; basic = Basic.Int })))) }
    ensures complete { IfOk result (λ t. (ss : List Structure) → IsTrue (is_complete ss t)) }
{
    CType::new(alloc, TypeForm::Integer(Basic::Int), PLAIN)
}

/// An array of int.
fn array(alloc: Global, length: Option<u64>) -> Result<CType, NoMemory>
    ensures { IfOk result (λ t. (n : ℕ) → IsTrue (names_below n t)) }
{
    let element = int(alloc)?;
    CType::new(alloc, TypeForm::Array(element, length), PLAIN)
}

fn pointer(alloc: Global, target: CType, quals: Quals) -> Result<CType, NoMemory>
    requires { (n : ℕ) → IsTrue (names_below n target) }
    ensures { IfOk result (λ t. (n : ℕ) → IsTrue (names_below n t)) }
{
    CType::new(alloc, TypeForm::Pointer(target), quals)
}

/// A function without parameters.
fn function(alloc: Global, answer: CType) -> Result<CType, NoMemory>
    requires { (n : ℕ) → IsTrue (names_below n answer) }
    ensures { IfOk result (λ t. (n : ℕ) → IsTrue (names_below n t)) }
{
    CType::new(
        alloc,
        TypeForm::Function(answer, TypeList::new(alloc), false),
        PLAIN,
    )
}

/// A function of one parameter that gives nothing.
fn procedure(alloc: Global, parameter: CType) -> Result<CType, NoMemory>
    requires { (n : ℕ) → IsTrue (names_below n parameter) }
    ensures { IfOk result (λ t. (n : ℕ) → IsTrue (names_below n t)) }
{
    let mut parameters = TypeList::new(alloc);
    parameters.push(parameter)?;
    let nothing = CType::new(alloc, TypeForm::Void, PLAIN)?;
    CType::new(alloc, TypeForm::Function(nothing, parameters, false), PLAIN)
}

/// A pointer to void.
fn block(alloc: Global, quals: Quals) -> Result<CType, NoMemory>
    ensures { IfOk result (λ t. (n : ℕ) → IsTrue (names_below n t)) }
{
    let nothing = CType::new(alloc, TypeForm::Void, PLAIN)?;
    pointer(alloc, nothing, quals)
}

/// An enumeration, by the place of its word.
fn enumeration(alloc: Global, order: u32) -> Result<CType, NoMemory>
    ensures { IfOk result (λ t. (n : ℕ) → IsTrue (names_below n t)) }
{
    CType::new(alloc, TypeForm::Enum(Basic::Int, order), PLAIN)
}

/// The length that a word gives an array: `[]`, `[3]` or `[4]`.
fn length_of(word: &str) -> Option<u64> {
    if word == "[3]" {
        return Some(3);
    }
    if word == "[4]" {
        return Some(4);
    }
    None
}

/// A function that gives a pointer to an array.
fn array_function(alloc: Global, length: Option<u64>) -> Result<CType, NoMemory>
    ensures { IfOk result (λ t. (n : ℕ) → IsTrue (names_below n t)) }
{
    function(alloc, pointer(alloc, array(alloc, length)?, PLAIN)?)
}

/// `void`, `void*`, `long`, the enumerations 1 and 2, and else int.
fn object_type(alloc: Global, word: &str) -> Result<CType, NoMemory>
    ensures { IfOk result (λ t. (n : ℕ) → IsTrue (names_below n t)) }
{
    if word == "void" {
        return CType::new(alloc, TypeForm::Void, PLAIN);
    }
    if word == "void*" {
        return block(alloc, PLAIN);
    }
    if word == "long" {
        return CType::new(alloc, TypeForm::Integer(Basic::Long), PLAIN);
    }
    if word == "enum1" {
        return enumeration(alloc, 1);
    }
    if word == "enum2" {
        return enumeration(alloc, 2);
    }
    int(alloc)
}

/// `int()`, `void(int)`, `void(void*)` with and without ownership, and else the type of an object.
fn function_type(alloc: Global, word: &str) -> Result<CType, NoMemory>
    ensures { IfOk result (λ t. (n : ℕ) → IsTrue (names_below n t)) }
{
    if word == "int()" {
        return function(alloc, int(alloc)?);
    }
    if word == "void(int)" {
        return procedure(alloc, int(alloc)?);
    }
    if word == "void(void*_Owner_Opt)" {
        return procedure(alloc, block(alloc, OWNER)?);
    }
    if word == "void(void*)" {
        return procedure(alloc, block(alloc, PLAIN)?);
    }
    object_type(alloc, word)
}

/// The type of a word: one of those above (int, where it is none of them), or `[]`, `[3]` or `[4]` for arrays of int, and `&[]`, `&[3]` or `&[4]` for
/// functions that give a pointer to such an array.
pub fn type_of(alloc: Global, word: &str) -> Result<CType, NoMemory>
    ensures { IfOk result (λ t. (n : ℕ) → IsTrue (names_below n t)) }
{
    if let Some(length) = word.strip_prefix('&') {
        return array_function(alloc, length_of(length));
    }
    if word.starts_with('[') {
        return array(alloc, length_of(word));
    }
    function_type(alloc, word)
}
