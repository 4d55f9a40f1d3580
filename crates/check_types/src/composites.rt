//! Composite types.
ghost use Rattle.std.specs.Prelude.{◌≡◌, IfOk};
ghost use Rattle.std.specs.Option.{option_copied};
ghost use Rattle.model_types.specs.Types as t;
ghost use Rattle.model_scopes.specs.CompositeTypes as m;
ghost use Rattle.check_types.specs.Parameters.{composite_if_any};

use c_types::{CType, TypeForm, TypeList};
use cake_base::NoMemory;
use std::alloc::Global;

/// The length of an array, of one of two types that knows it.
fn known_length(a: Option<u64>, b: Option<u64>) -> Option<u64>
    ensures { result ≡ m.known_length a b }
{
    match a {
        Some(n) => Some(n),
        None => b,
    }
}

/// The later type, with the length of the earlier array where it is an array without one.
pub fn with_length(alloc: Global, earlier: &CType, later: &CType) -> Result<CType, NoMemory>
    ensures { IfOk result (λ made. made ≡ m.with_length earlier.now later.now) }
{
    match (earlier.form(), later.form()) {
        (TypeForm::Array(_, Some(length)), TypeForm::Array(element, None)) => {
            let element = element.copy(alloc)?;
            CType::new(
                alloc,
                TypeForm::Array(element, Some(*length)),
                later.quals(),
            )
        }
        _ => later.copy(alloc),
    }
}

/// The composite type of two compatible types (ISO/IEC 9899:2024, 6.2.7).
#[cycle(composite)]
pub fn composite(alloc: Global, a: &CType, b: &CType) -> Result<CType, NoMemory>
    ensures { IfOk result (λ made. made ≡ m.composite a.now b.now) }
{
    match (a.form(), b.form()) {
        (TypeForm::Integer(_), TypeForm::Enum(basic, order)) => {
            CType::new(alloc, TypeForm::Enum(*basic, *order), a.quals())
        }
        (TypeForm::Pointer(t), TypeForm::Pointer(u)) => {
            let target = composite(alloc, t, u)?;
            CType::new(alloc, TypeForm::Pointer(target), a.quals())
        }
        (TypeForm::Array(t, m), TypeForm::Array(u, n)) => {
            let element = composite(alloc, t, u)?;
            let length = known_length(*m, *n);
            CType::new(alloc, TypeForm::Array(element, length), a.quals())
        }
        (TypeForm::Function(r, ps, variadic), TypeForm::Function(s, qs, _)) => {
            let answer = composite(alloc, r, s)?;
            let parameters = composite_types(alloc, ps.as_slice(), qs.as_slice())?;
            CType::new(
                alloc,
                TypeForm::Function(answer, parameters, *variadic),
                a.quals(),
            )
        }
        _ => a.copy(alloc),
    }
}

/// The composite types of parameters, one by one.
#[cycle(composite)]
fn composite_types(alloc: Global, ps: &[CType], qs: &[CType]) -> Result<TypeList, NoMemory>
    ensures { IfOk result (λ made. t.types made ≡ m.composite_types (t.types ps.now) (t.types qs.now)) }
{
    let mut made = TypeList::new(alloc);
    for at in 0..ps.len() {
        made.push(composite_or_copy(alloc, &ps[at], qs.get(at))?)?;
    }
    Ok(made)
}

/// The composite type of two types, or the first where there is no second.
#[cycle(composite)]
fn composite_or_copy(alloc: Global, p: &CType, q: Option<&CType>) -> Result<CType, NoMemory>
    ensures { IfOk result (λ made. made ≡ composite_if_any p.now (option_copied q.entry)) }
{
    match q {
        Some(q) => composite(alloc, p, q),
        None => p.copy(alloc),
    }
}
