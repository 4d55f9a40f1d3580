//! Objects that strings, compound literals and values of structures make.
ghost use Rattle.std.specs.Prelude.{◌≡◌, ◌<◌, ◌+◌, length, Some, None, IfOk, OnOk, OnErr};
ghost use Rattle.std.specs.Option.{option_map};
ghost use Rattle.core_tree.specs.CoreNodes.{initials};
ghost use Rattle.core_tree.specs.CoreTrees.{expr_tree};
ghost use Rattle.model_checking.specs.Declaring as d;
ghost use Rattle.model_checking.specs.Literals as l;
ghost use Rattle.model_checking.specs.HeldValues as h;
ghost use Rattle.check_state.specs.Kept.{state, Steps};
ghost use Rattle.check_state.specs.Seen.{use_of, made_of};

use crate::made::Made;
use crate::pending::Pending;
use crate::uses::Use;
use c_types::{Basic, CType, TypeForm};
use cake_base::{Bytes, NoMemory};
use check_types::plain;
use core_tree::{CoreExpr, CoreInitial, Mark};
use decl_scope::{DeclId, Scopes};
use sqlite_items::Items;
use std::alloc::Global;

/// The next id, where there is one.
pub(crate) fn next_id(scopes: &Scopes) -> Result<DeclId, NoMemory>
    ensures id { IfOk result (λ id. id.0 ≡ scopes.now.ids) }
    ensures below { OnOk result (scopes.now.ids < 4294967295) }
{
    let next = scopes.ids();
    if next == u32::MAX {
        Err(NoMemory)
    } else {
        Ok(DeclId(next))
    }
}

/// The type of a string: an array of char with a zero behind the bytes (ISO/IEC 9899:2024, 6.4.5).
pub fn text_type(alloc: Global, bytes: &[u8]) -> Result<CType, NoMemory>
    ensures { IfOk result (λ made. made ≡ l.text_type bytes.now) }
{
    let element = plain(alloc, TypeForm::Integer(Basic::Char))?;
    plain(
        alloc,
        TypeForm::Array(element, Some(bytes.len() as u64 + 1)),
    )
}

impl<'t> Pending<'t> {
    /// Makes the object of a string (6.4.5), and gives its id. After a refusal nothing has changed.
    pub fn make_text(
        &mut self,
        scopes: &mut Scopes,
        usage: Use,
        bytes: &[u8],
        mark: Mark,
    ) -> Result<DeclId, NoMemory>
        ensures ok { OnOk result (state scopes.new self.new ≡ l.with_made (l.text_made (use_of usage) scopes.old.ids bytes.now mark) (state scopes.old self.old)) }
        ensures id { IfOk result (λ id. id.0 ≡ scopes.old.ids) }
        ensures err { OnErr result ((scopes.new ≡ scopes.old) × (self.new ≡ self.old)) }
    {
        let id = next_id(scopes)?;
        let ty = text_type(self.alloc(), bytes)?;
        let text = Bytes::of(self.alloc(), bytes)?;
        let made = Made {
            id,
            ty,
            place: mark.at,
            text: Some(text),
            values: None,
            is_evaluated: usage.is_evaluated(),
        };
        self.add_made(scopes, made)?;
        Ok(id)
    }

    /// Makes the object of a compound literal at file scope, with its values (6.5.3.6), and gives its id. After a refusal
    /// nothing has changed.
    pub fn make_static(
        &mut self,
        scopes: &mut Scopes,
        usage: Use,
        mark: Mark,
        ty: &CType,
        values: Items<CoreInitial>,
    ) -> Result<DeclId, NoMemory>
        ensures ok { OnOk result (state scopes.new self.new ≡ l.with_made (l.made_object (use_of usage) scopes.old.ids mark ty.now (Some (initials values))) (state scopes.old self.old)) }
        ensures id { IfOk result (λ id. id.0 ≡ scopes.old.ids) }
        ensures err { OnErr result ((scopes.new ≡ scopes.old) × (self.new ≡ self.old)) }
    {
        let id = next_id(scopes)?;
        let ty = ty.copy(self.alloc())?;
        let made = Made {
            id,
            ty,
            place: mark.at,
            text: None,
            values: Some(values),
            is_evaluated: usage.is_evaluated(),
        };
        self.add_made(scopes, made)?;
        Ok(id)
    }

    /// Adds an automatic object, where it is one of the innermost block. After a refusal nothing has changed.
    pub fn add_automatic_if(&mut self, is_automatic: bool, id: DeclId) -> Result<(), NoMemory>
        ensures ok { OnOk result (Steps (d.in_block_if is_automatic id.0) self.old self.new) }
        ensures err { OnErr result (self.new ≡ self.old) }
    {
        if is_automatic {
            self.add_automatic(id)
        } else {
            Ok(())
        }
    }

    fn add_literal(
        &mut self,
        scopes: &mut Scopes,
        usage: Use,
        id: DeclId,
        made: Made,
    ) -> Result<(), NoMemory>
        requires { scopes.old.ids < 4294967295 }
        ensures ok { OnOk result (state scopes.new self.new ≡ l.with_automatic (use_of usage) id.0 (l.with_made (made_of made) (state scopes.old self.old))) }
        ensures err { OnErr result ((scopes.new ≡ scopes.old) × (self.new ≡ self.old)) }
    {
        match usage {
            Use::Evaluated => self.add_made_automatic(scopes, id, made),
            Use::Unevaluated => self.add_made(scopes, made),
        }
    }

    /// Makes the object of a compound literal in a block (6.5.3.6), one of the innermost block where it is evaluated, and gives
    /// its id. After a refusal nothing has changed.
    pub fn make_automatic(
        &mut self,
        scopes: &mut Scopes,
        usage: Use,
        mark: Mark,
        ty: &CType,
    ) -> Result<DeclId, NoMemory>
        ensures ok { OnOk result (state scopes.new self.new ≡ l.with_automatic (use_of usage) scopes.old.ids (l.with_made (l.made_object (use_of usage) scopes.old.ids mark ty.now None) (state scopes.old self.old))) }
        ensures id { IfOk result (λ id. id.0 ≡ scopes.old.ids) }
        ensures err { OnErr result ((scopes.new ≡ scopes.old) × (self.new ≡ self.old)) }
    {
        let id = next_id(scopes)?;
        let ty = ty.copy(self.alloc())?;
        let made = Made {
            id,
            ty,
            place: mark.at,
            text: None,
            values: None,
            is_evaluated: usage.is_evaluated(),
        };
        self.add_literal(scopes, usage, id, made)?;
        Ok(id)
    }

    /// Makes the object of temporary lifetime that holds the value of a structure whose array member is asked for (6.2.4), and
    /// gives its id. After a refusal nothing has changed.
    pub fn hold(
        &mut self,
        scopes: &mut Scopes,
        usage: Use,
        value: &CoreExpr,
    ) -> Result<DeclId, NoMemory>
        ensures ok { OnOk result (state scopes.new self.new ≡ h.with_held (use_of usage) (expr_tree value.now) (state scopes.old self.old)) }
        ensures id { IfOk result (λ id. id.0 ≡ scopes.old.ids) }
        ensures err { OnErr result ((scopes.new ≡ scopes.old) × (self.new ≡ self.old)) }
    {
        self.make_automatic(scopes, usage, value.mark(), value.ty())
    }
}
