//! The built-in functions and their types.
ghost use Rattle.std.specs.Prelude.{◌≡◌, IfOk, [], ◌∷◌};
ghost use Rattle.model_types.specs.Types as t;
ghost use Rattle.model_core.specs.CoreTypes as p;
ghost use Rattle.model_core.specs.BuiltinTypes as m;
ghost use Rattle.model_scopes.specs.DeclarationRules as r;

use c_types::{CType, TypeForm, TypeList};
use cake_base::NoMemory;
use check_types::plain;
use model_types::numbers::Basic;
use model_types::types::Quals;
use std::alloc::Global;

/// `_Owner _Opt`.
const OWNER: Quals = Quals {
    has_const: false,
    has_restrict: false,
    has_owner: true,
    has_view: false,
    has_opt: true,
};

fn size_type(alloc: Global) -> Result<CType, NoMemory>
    ensures { IfOk result (λ made. made ≡ m.size_type) }
{
    plain(alloc, TypeForm::Integer(Basic::UnsignedLong))
}

fn status_type(alloc: Global) -> Result<CType, NoMemory>
    ensures { IfOk result (λ made. made ≡ p.plain (t.Integer Basic.Int)) }
{
    plain(alloc, TypeForm::Integer(Basic::Int))
}

/// `void *_Owner _Opt`.
fn block_type(alloc: Global) -> Result<CType, NoMemory>
    ensures { IfOk result (λ made. made ≡ m.owned_pointer) }
{
    let target = plain(alloc, TypeForm::Void)?;
    CType::new(alloc, TypeForm::Pointer(target), OWNER)
}

/// The parameter list of one type.
fn one_parameter(alloc: Global, ty: CType) -> Result<TypeList, NoMemory>
    ensures { IfOk result (λ list. list ≡ ty ∷ []) }
{
    let mut list = TypeList::new(alloc);
    list.push(ty)?;
    Ok(list)
}

fn function_type(alloc: Global, answer: CType, parameters: TypeList) -> Result<CType, NoMemory>
    ensures { IfOk result (λ made. made ≡ m.function_type answer (t.types parameters)) }
{
    plain(alloc, TypeForm::Function(answer, parameters, false))
}

fn malloc_type(alloc: Global) -> Result<CType, NoMemory>
    ensures { IfOk result (λ made. made ≡ m.declared_type m.Malloc) }
{
    let parameters = one_parameter(alloc, size_type(alloc)?)?;
    function_type(alloc, block_type(alloc)?, parameters)
}

fn calloc_type(alloc: Global) -> Result<CType, NoMemory>
    ensures { IfOk result (λ made. made ≡ m.declared_type m.Calloc) }
{
    let mut parameters = one_parameter(alloc, size_type(alloc)?)?;
    parameters.push(size_type(alloc)?)?;
    function_type(alloc, block_type(alloc)?, parameters)
}

/// The type of a function that gives nothing.
fn procedure_type(alloc: Global, parameters: TypeList) -> Result<CType, NoMemory>
    ensures { IfOk result (λ made. made ≡ m.function_type (p.plain t.Void) (t.types parameters)) }
{
    let nothing = plain(alloc, TypeForm::Void)?;
    function_type(alloc, nothing, parameters)
}

fn free_type(alloc: Global) -> Result<CType, NoMemory>
    ensures { IfOk result (λ made. made ≡ m.declared_type m.Free) }
{
    let parameters = one_parameter(alloc, block_type(alloc)?)?;
    procedure_type(alloc, parameters)
}

fn exit_type(alloc: Global) -> Result<CType, NoMemory>
    ensures { IfOk result (λ made. made ≡ m.declared_type m.Exit) }
{
    let parameters = one_parameter(alloc, status_type(alloc)?)?;
    procedure_type(alloc, parameters)
}

/// The type of the built-in function of that name, if it is one (7.24.3, 7.24.4).
pub fn built_in_type(alloc: Global, name: &[u8]) -> Result<Option<CType>, NoMemory>
    ensures { IfOk result (λ found. found ≡ r.built_in_type name.now) }
{
    if b"malloc".as_slice() == name {
        return Ok(Some(malloc_type(alloc)?));
    }
    if b"calloc".as_slice() == name {
        return Ok(Some(calloc_type(alloc)?));
    }
    if b"free".as_slice() == name {
        return Ok(Some(free_type(alloc)?));
    }
    if b"exit".as_slice() == name {
        return Ok(Some(exit_type(alloc)?));
    }
    if b"abort".as_slice() == name {
        return Ok(Some(procedure_type(alloc, TypeList::new(alloc))?));
    }
    Ok(None)
}
