//! Typedef names (ISO/IEC 9899:2024, 6.7.9).
ghost use Rattle.std.specs.Prelude.{◌≡◌, false, IfOk, IfSome, IsTrue};
ghost use Rattle.std.specs.Option.{option_map, option_copied};
ghost use Rattle.model_types.specs.Structures as t;
ghost use Rattle.model_scopes.specs.Declarations as d;
ghost use Rattle.model_scopes.specs.Binding as b;
ghost use Rattle.model_checking.specs.State.{State};
ghost use Rattle.model_checking.specs.SpecifierTypes as m;
ghost use Rattle.check_base.specs.Turns.{Turns};
ghost use Rattle.check_base.specs.Answers.{Answers};

use c_types::CType;
use check_base::{CheckError, constraint};
use decl_scope::{Entry, Scopes};
use model_grammar::syntax::Name;
use std::alloc::Global;

/// The name isn't declared as what its use asks for.
const UNDECLARED: u32 = 5;

/// What a name that is no tag is declared as, where it is visible.
fn visible<'a>(scopes: &'a Scopes, name: &Name) -> Option<&'a Entry>
    ensures latest { option_copied result ≡ option_map (λ d. d.latest) (b.declared_as (b.look false name.now.text scopes.now) scopes.now) }
    ensures known { IfSome result (λ e. IsTrue (t.knows scopes.now.structs e.now.ty)) }
{
    match scopes.look(false, name.text.as_slice()) {
        Some(id) => Some(scopes.entry(id)),
        None => None,
    }
}

/// The type that a name was declared with, if it is one of a type.
fn type_if_typedef(alloc: Global, entry: &Entry, name: &Name) -> Result<CType, CheckError>
    ensures answer { (s : State) → Answers result (m.type_if_typedef name.now (d.is_typedef entry.now.kind) entry.now.ty s) s }
    ensures same { IfOk result (λ ty. ty ≡ entry.now.ty) }
{
    if entry.is_typedef() {
        Ok(entry.ty.copy(alloc)?)
    } else {
        Err(CheckError::Fault(constraint(name.place, UNDECLARED)))
    }
}

/// The type of a typedef name. C05 at the name, where it isn't one of a type.
pub fn typedef_type(alloc: Global, scopes: &Scopes, name: &Name) -> Result<CType, CheckError>
    ensures answer { Turns (m.typedef_type name.now) scopes.now result scopes.now }
    ensures known { IfOk result (λ ty. IsTrue (t.knows scopes.now.structs ty)) }
{
    match visible(scopes, name) {
        Some(entry) => type_if_typedef(alloc, entry, name),
        None => Err(CheckError::Fault(constraint(name.place, UNDECLARED))),
    }
}
