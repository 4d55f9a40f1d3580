//! Enumerations by their tags, before their enumerators, and their enumerators one by one (ISO/IEC 9899:2024, 6.7.3.3,
//! 6.7.3.4).
ghost use Rattle.std.specs.Prelude.{◌≡◌, ℤ, pos, ◌+ℤ◌, IsTrue, IfOk, OnOk, Some, None};
ghost use Rattle.std.specs.Option.{option_copied, option_map};
ghost use Rattle.model_types.specs.Structures as t;
ghost use Rattle.model_types.specs.Types.{form_of_type};
ghost use Rattle.model_types.specs.Operations.{fits};
ghost use Rattle.model_core.specs.CoreTypes.{basic_of};
ghost use Rattle.model_core.specs.SameTypes.{is_integer};
ghost use Rattle.model_scopes.specs.DeclarationRules.{broken_rule, constraint_at};
ghost use Rattle.model_checking.specs.State.{State, gives, in_scopes};
ghost use Rattle.model_checking.specs.DeclaratorNames.{rule_at};
ghost use Rattle.model_checking.specs.Enumerations as m;
ghost use Rattle.check_base.specs.Answers.{Answers};
ghost use Rattle.check_base.specs.Turns.{Turns};
ghost use Rattle.check_specifiers.specs.EnumerationTypes.{enumeration_of};
ghost use Rattle.check_tags.specs.Enumerated.{as_enumeration, begun_as_typed};

use crate::structures::is_struct;
use crate::tags::{declare_tag, refusal, tag_entry, tag_type};
use c_types::{Basic, CType, Const, TypeForm};
use cake_base::{Bytes, Fault, NoMemory, Place};
use check_base::{CheckError, constraint, first_of_faults};
use check_specifiers::{Enumeration, enum_type, enumerator_basic, enumerator_type, range_fault};
use check_types::is_integer;
use decl_scope::{Entry, Kind, Linkage, Scopes};
use model_grammar::syntax::Name;
use std::alloc::Global;

/// The name isn't declared.
const UNDECLARED: u32 = 5;
/// The tag is of another kind.
const OTHER_TAG: u32 = 6;
/// A fixed type is no integer type.
const FIXED_TYPE: u32 = 27;

/// The integer type that the specifiers of a fixed type give, of another enumeration its own. C27 at its first token, where
/// they give no such type.
pub fn fixed_by(ty: Option<&CType>, first: Place) -> Result<Basic, CheckError>
    ensures { (s : State) → Answers result (m.fixed_by (option_copied ty.entry) first s) s }
{
    match ty {
        Some(ty) => fixed_basic(ty, first),
        None => Err(CheckError::Fault(constraint(first, FIXED_TYPE))),
    }
}

fn fixed_basic(ty: &CType, first: Place) -> Result<Basic, CheckError>
    ensures { (s : State) → Answers result (m.fixed_by (Some ty.now) first s) s }
{
    match ty.form() {
        TypeForm::Integer(basic) => Ok(*basic),
        TypeForm::Enum(basic, _) => Ok(*basic),
        TypeForm::Void => Err(CheckError::Fault(constraint(first, FIXED_TYPE))),
        TypeForm::Pointer(_) => Err(CheckError::Fault(constraint(first, FIXED_TYPE))),
        TypeForm::Array(..) => Err(CheckError::Fault(constraint(first, FIXED_TYPE))),
        TypeForm::Struct(_) => Err(CheckError::Fault(constraint(first, FIXED_TYPE))),
        TypeForm::Function(..) => Err(CheckError::Fault(constraint(first, FIXED_TYPE))),
    }
}

/// The type of an enumeration whose tag is declared with this type. C06 at the tag, where it is that of a structure.
fn as_enum(name: &Name, ty: CType) -> Result<CType, CheckError>
    ensures answer { (s : State) → Answers result (m.as_enum name.now ty s) s }
    ensures same { IfOk result (λ made. made ≡ ty) }
{
    if is_struct(&ty) {
        drop(ty);
        Err(CheckError::Fault(constraint(name.place, OTHER_TAG)))
    } else {
        Ok(ty)
    }
}

/// The enumeration of a fixed type whose tag isn't declared.
fn new_fixed_enum(
    alloc: Global,
    scopes: &mut Scopes,
    name: &Name,
    basic: Basic,
    place: Place,
) -> Result<CType, CheckError>
    ensures answer { Turns (m.enum_by None name.now (Some basic) place) scopes.old result scopes.new }
    ensures known { IfOk result (λ ty. IsTrue (t.knows scopes.new.structs ty)) }
{
    let ty = enum_type(alloc, Some(basic), place)?;
    declare_tag(alloc, scopes, name, &ty, false)
}

/// A tag that isn't declared: only a fixed type declares it.
fn new_enum(
    alloc: Global,
    scopes: &mut Scopes,
    name: &Name,
    fixed: Option<Basic>,
    place: Place,
) -> Result<CType, CheckError>
    ensures answer { Turns (m.enum_by None name.now fixed place) scopes.old result scopes.new }
    ensures known { IfOk result (λ ty. IsTrue (t.knows scopes.new.structs ty)) }
{
    match fixed {
        Some(basic) => new_fixed_enum(alloc, scopes, name, basic, place),
        None => Err(CheckError::Fault(constraint(name.place, UNDECLARED))),
    }
}

/// Whether a tag is that of the innermost scope: it stands alone with a fixed type.
fn is_own(is_lone: bool, fixed: Option<Basic>) -> bool
    ensures { result ≡ m.is_own is_lone fixed }
{
    match fixed {
        Some(_) => is_lone,
        None => false,
    }
}

/// The enumeration of a tag without braces, given its fixed type, if there is one; `place` is that of the word `enum`. Alone
/// and with a fixed type it is that of the innermost scope. C05 at the tag, where nothing declares it; C01 and C06 there.
pub fn enum_tag(
    alloc: Global,
    scopes: &mut Scopes,
    is_lone: bool,
    name: &Name,
    fixed: Option<Basic>,
    place: Place,
) -> Result<CType, CheckError>
    ensures answer { (before : State) → Turns (λ s. m.enum_tag is_lone name.now place before (gives fixed s)) scopes.old result scopes.new }
    ensures known { IfOk result (λ ty. IsTrue (t.knows scopes.new.structs ty)) }
{
    match tag_type(alloc, scopes, is_own(is_lone, fixed), name)? {
        Some(ty) => as_enum(name, ty),
        None => new_enum(alloc, scopes, name, fixed, place),
    }
}

/// Before the enumerators, where the tag isn't declared in this scope.
fn begin_new(
    alloc: Global,
    scopes: &mut Scopes,
    name: &Name,
    fixed: Option<Basic>,
    place: Place,
) -> Result<Enumeration, CheckError>
    ensures answer { Turns (m.begun_by None name.now fixed place) scopes.old (as_enumeration result) scopes.new }
    ensures known { IfOk result (λ e. IsTrue (t.knows scopes.new.structs e.ty)) }
    ensures integer { IfOk result (λ e. IsTrue (is_integer (form_of_type e.ty))) }
{
    let ty = enum_type(alloc, fixed, place)?;
    match declare_tag(alloc, scopes, name, &ty, true) {
        Ok(ty) => Ok(Enumeration {
            ty,
            is_fixed: fixed.is_some(),
        }),
        Err(e) => Err(e),
    }
}

/// Before the enumerators, where the tag was declared in this scope with a fixed type.
fn begin_again(
    alloc: Global,
    scopes: &mut Scopes,
    name: &Name,
    ty: &CType,
) -> Result<Enumeration, CheckError>
    requires { IsTrue (t.knows scopes.old.structs ty.now) }
    ensures answer { Turns (begun_as_typed ty.now name.now) scopes.old (as_enumeration result) scopes.new }
    ensures known { IfOk result (λ e. IsTrue (t.knows scopes.new.structs e.ty)) }
    ensures integer { IfOk result (λ e. IsTrue (is_integer (form_of_type e.ty))) }
{
    if is_struct(ty) {
        return Err(CheckError::Fault(constraint(name.place, OTHER_TAG)));
    }
    if !is_integer(ty) {
        // No tag is declared with another type.
        return Err(CheckError::NoMemory);
    }
    match declare_tag(alloc, scopes, name, ty, true) {
        Ok(ty) => Ok(Enumeration { ty, is_fixed: true }),
        Err(e) => Err(e),
    }
}

/// Before the enumerators of a tag.
fn begin_tagged(
    alloc: Global,
    scopes: &mut Scopes,
    name: &Name,
    fixed: Option<Basic>,
    place: Place,
) -> Result<Enumeration, CheckError>
    ensures answer { Turns (m.begun (Some name.now) fixed place) scopes.old (as_enumeration result) scopes.new }
    ensures known { IfOk result (λ e. IsTrue (t.knows scopes.new.structs e.ty)) }
    ensures integer { IfOk result (λ e. IsTrue (is_integer (form_of_type e.ty))) }
{
    match tag_type(alloc, scopes, true, name)? {
        Some(ty) => begin_again(alloc, scopes, name, &ty),
        None => begin_new(alloc, scopes, name, fixed, place),
    }
}

/// Before the enumerators of an enumeration, given its fixed type, if there is one: its type, and whether it is fixed. C01 and
/// C06 at the tag.
pub fn begin_enum(
    alloc: Global,
    scopes: &mut Scopes,
    tag: Option<&Name>,
    fixed: Option<Basic>,
    place: Place,
) -> Result<Enumeration, CheckError>
    ensures answer { Turns (m.begun (option_copied tag.entry) fixed place) scopes.old (as_enumeration result) scopes.new }
    ensures known { IfOk result (λ e. IsTrue (t.knows scopes.new.structs e.ty)) }
    ensures integer { IfOk result (λ e. IsTrue (is_integer (form_of_type e.ty))) }
{
    match tag {
        Some(name) => begin_tagged(alloc, scopes, name, fixed, place),
        None => Ok(Enumeration {
            ty: enum_type(alloc, fixed, place)?,
            is_fixed: fixed.is_some(),
        }),
    }
}

fn named_braces_fault(
    alloc: Global,
    scopes: &Scopes,
    name: &Name,
    place: Place,
) -> Result<Option<Fault>, NoMemory>
    ensures { IfOk result (λ fault. (s : State) → fault ≡ rule_at (m.braces_rule place (in_scopes scopes.now s)) (Some name.now)) }
{
    let ty = enum_type(alloc, None, place)?;
    let entry = tag_entry(alloc, name, &ty, true)?;
    rule_fault(scopes, &entry)
}

/// C01 or C06 at a tag that gets braces with enumerators, as it stands before its fixed type.
pub fn braces_fault(
    alloc: Global,
    scopes: &Scopes,
    tag: Option<&Name>,
    place: Place,
) -> Result<Option<Fault>, NoMemory>
    ensures { IfOk result (λ fault. (s : State) → fault ≡ rule_at (m.braces_rule place (in_scopes scopes.now s)) (option_copied tag.entry)) }
{
    match tag {
        Some(name) => named_braces_fault(alloc, scopes, name, place),
        None => Ok(None),
    }
}

/// The smallest rule that a declaration would break, at the place of its name.
fn rule_fault(scopes: &Scopes, entry: &Entry) -> Result<Option<Fault>, NoMemory>
    ensures { IfOk result (λ fault. fault ≡ option_map (λ rule. constraint_at entry.now.place rule) (broken_rule entry.now scopes.now)) }
{
    match scopes.broken_rule(entry)? {
        Some(rule) => Ok(Some(constraint(entry.place, rule))),
        None => Ok(None),
    }
}

/// The declaration of an enumerator with its value.
fn enumerator_entry(
    alloc: Global,
    enumeration: &Enumeration,
    name: &Name,
    value: i128,
) -> Result<Entry, NoMemory>
    requires { IsTrue (fits (basic_of (form_of_type (m.enumerator_type (enumeration_of enumeration.now)))) value) }
    ensures { IfOk result (λ made. made ≡ m.enumerator_declaration (enumeration_of enumeration.now) name.now value) }
{
    Ok(Entry {
        name: Bytes::of(alloc, name.text.as_slice())?,
        kind: Kind::Enumerator,
        linkage: Linkage::Absent,
        ty: enumerator_type(alloc, enumeration)?,
        value: Some(Const {
            value,
            basic: enumerator_basic(enumeration),
        }),
        defines: false,
        automatic: false,
        place: name.place,
    })
}

/// C01 or C02 at the name of an enumerator, as it stands before its value.
#[tactic(auto, using(crate::proofs::EnumLaws::zero_fits))]
pub fn enumerator_fault(
    alloc: Global,
    scopes: &Scopes,
    enumeration: &Enumeration,
    name: &Name,
) -> Result<Option<Fault>, NoMemory>
    ensures { IfOk result (λ fault. (s : State) → fault ≡ rule_at (m.enumerator_rule (enumeration_of enumeration.now) (in_scopes scopes.now s)) (Some name.now)) }
{
    let entry = enumerator_entry(alloc, enumeration, name, 0)?;
    rule_fault(scopes, &entry)
}

/// An enumerator with its value is declared in the innermost scope. C30 at its name, where the value isn't one of its type;
/// C01 and C02 there.
pub fn declare_enumerator(
    alloc: Global,
    scopes: &mut Scopes,
    enumeration: &Enumeration,
    name: &Name,
    value: i128,
) -> Result<i128, CheckError>
    requires known { IsTrue (t.knows scopes.old.structs enumeration.now.ty) }
    requires integer { IsTrue (is_integer (form_of_type enumeration.now.ty)) }
    ensures answer { Turns (m.with_enumerator (enumeration_of enumeration.now) name.now value) scopes.old result scopes.new }
    ensures structs { OnOk result (scopes.new.structs ≡ scopes.old.structs) }
    ensures fits { IfOk result (λ made. IsTrue (fits (basic_of (form_of_type (m.enumerator_type (enumeration_of enumeration.now)))) made)) }
{
    if scopes.ids() == u32::MAX {
        return Err(CheckError::NoMemory);
    }
    let rule = enumerator_fault(alloc, scopes, enumeration, name)?;
    match first_of_faults(rule, range_fault(enumeration, name, value)) {
        Some(fault) => Err(CheckError::Fault(fault)),
        None => {
            let entry = enumerator_entry(alloc, enumeration, name, value)?;
            match scopes.declare(entry) {
                Ok(_) => Ok(value),
                Err(e) => Err(refusal(e)),
            }
        }
    }
}

/// One more than a value of an integer type.
fn next_value(basic: Basic, value: i128) -> i128
    requires { IsTrue (fits basic value) }
    ensures { result ≡ value +ℤ pos 1 }
{
    value + 1
}

/// The value of an enumerator: the one that is given, else one more than that of the enumerator before it, else 0.
pub fn value_behind(enumeration: &Enumeration, previous: Option<i128>, given: Option<i128>) -> i128
    requires { (v : ℤ) → previous ≡ Some v → IsTrue (fits (basic_of (form_of_type (m.enumerator_type (enumeration_of enumeration.now)))) v) }
    ensures { result ≡ m.value_behind previous given }
{
    match given {
        Some(value) => value,
        None => match previous {
            Some(value) => next_value(enumerator_basic(enumeration), value),
            None => 0,
        },
    }
}
