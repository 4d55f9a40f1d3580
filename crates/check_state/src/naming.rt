//! Types that are named, and objects whose address is taken.
ghost use Rattle.std.specs.Prelude.{◌≡◌, OnOk, OnErr};
ghost use Rattle.model_grammar.specs.declared.syntax.PrefixOp.TheVariants.{Address};
ghost use Rattle.core_tree.specs.CoreTrees.{lvalue_tree};
ghost use Rattle.model_checking.specs.State as m;
ghost use Rattle.model_checking.specs.Declaring as d;
ghost use Rattle.model_checking.specs.UnaryRules as u;
ghost use Rattle.check_base.specs.Meanings.{meaning_of};
ghost use Rattle.check_state.specs.Kept.{Steps};
ghost use Rattle.check_state.specs.Seen.{use_of, ids_if_any};
ghost use Rattle.check_state.specs.StateSteps.{note_parameter};

use crate::pending::Pending;
use crate::uses::Use;
use c_types::CType;
use cake_base::{NoMemory, Place};
use check_base::Meaning;
use core_tree::{CoreLvalue, CoreLvalueForm};
use decl_scope::{DeclId, Entry, Kind};
use model_grammar::syntax::PrefixOp;

/// An object that is named itself.
fn object_itself(object: &CoreLvalue) -> Option<DeclId>
    ensures { u.taken_object (lvalue_tree object.now) ≡ ids_if_any result }
{
    match object.form() {
        CoreLvalueForm::Object { id, .. } => Some(*id),
        CoreLvalueForm::Deref { .. } => None,
        CoreLvalueForm::Index { .. } => None,
        CoreLvalueForm::Field { .. } => None,
        CoreLvalueForm::Arrow { .. } => None,
        CoreLvalueForm::Literal { .. } => None,
    }
}

/// What `&` takes the address of.
fn addressed(meaning: &Meaning) -> Option<DeclId>
    ensures { u.taken m.Evaluated Address (meaning_of meaning.now) ≡ ids_if_any result }
{
    match meaning {
        Meaning::Place { object, .. } => object_itself(object),
        Meaning::Value(_) => None,
        Meaning::Function { .. } => None,
        Meaning::Target(_) => None,
    }
}

/// The object whose address an operator takes in a part.
fn taken(usage: Use, op: PrefixOp, meaning: &Meaning) -> Option<DeclId>
    ensures { u.taken (use_of usage) op (meaning_of meaning.now) ≡ ids_if_any result }
{
    match usage {
        Use::Evaluated => taken_by(op, meaning),
        Use::Unevaluated => None,
    }
}

fn taken_by(op: PrefixOp, meaning: &Meaning) -> Option<DeclId>
    ensures { u.taken m.Evaluated op (meaning_of meaning.now) ≡ ids_if_any result }
{
    match op {
        PrefixOp::Address => addressed(meaning),
        PrefixOp::Indirection => None,
        PrefixOp::Plus => None,
        PrefixOp::Minus => None,
        PrefixOp::Complement => None,
        PrefixOp::Not => None,
    }
}

impl<'t> Pending<'t> {
    /// Notes the type that is named at a place, where it is evaluated. After a refusal nothing has changed.
    pub fn note_type(&mut self, usage: Use, place: Place, ty: &CType) -> Result<(), NoMemory>
        ensures ok { OnOk result (Steps (m.note_type (use_of usage) place ty.now) self.old self.new) }
        ensures err { OnErr result (self.new ≡ self.old) }
    {
        match usage {
            Use::Evaluated => self.add_named(place, ty),
            Use::Unevaluated => Ok(()),
        }
    }

    /// Notes the type of an object or a function that is declared with its name at a place, where it is evaluated. After a
    /// refusal nothing has changed.
    pub fn note_kind(
        &mut self,
        usage: Use,
        kind: Kind,
        place: Place,
        ty: &CType,
    ) -> Result<(), NoMemory>
        ensures ok { OnOk result (Steps (d.note_kind (use_of usage) kind place ty.now) self.old self.new) }
        ensures err { OnErr result (self.new ≡ self.old) }
    {
        match kind {
            Kind::Object => self.note_type(usage, place, ty),
            Kind::Function => self.note_type(usage, place, ty),
            Kind::TypeName => Ok(()),
            Kind::Enumerator => Ok(()),
            Kind::Tag => Ok(()),
        }
    }

    /// Notes the type of what is declared again in the body of a function, where it is a parameter's object and is evaluated
    /// (ISO/IEC 9899:2024, 6.9.2). After a refusal nothing has changed.
    pub fn note_parameter(&mut self, usage: Use, parameter: &Entry) -> Result<(), NoMemory>
        ensures ok { OnOk result (Steps (note_parameter (use_of usage) parameter.now) self.old self.new) }
        ensures err { OnErr result (self.new ≡ self.old) }
    {
        match parameter.kind {
            Kind::Object => self.note_type(usage, parameter.place, &parameter.ty),
            Kind::Function => Ok(()),
            Kind::TypeName => Ok(()),
            Kind::Enumerator => Ok(()),
            Kind::Tag => Ok(()),
        }
    }

    /// Notes the object whose address a written `&` takes, where it is evaluated (6.5.4.2); of other operators nothing. After a
    /// refusal nothing has changed.
    #[tactic(auto, using(crate::proofs::ListLaws::no_id_more))]
    pub fn note_taken(
        &mut self,
        usage: Use,
        op: PrefixOp,
        meaning: &Meaning,
    ) -> Result<(), NoMemory>
        ensures ok { OnOk result (Steps (u.note_taken (use_of usage) op (meaning_of meaning.now)) self.old self.new) }
        ensures err { OnErr result (self.new ≡ self.old) }
    {
        match taken(usage, op, meaning) {
            Some(id) => self.add_taken(id),
            None => Ok(()),
        }
    }
}
