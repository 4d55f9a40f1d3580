//! Scopes, with the automatic objects that are declared or made in them.
ghost use Rattle.std.specs.Prelude.{◌≡◌, IfOk, OnOk, OnErr};
ghost use Rattle.model_scopes.specs.Scopes as o;
ghost use Rattle.core_tree.specs.CoreStatForms.{ids};
ghost use Rattle.model_checking.specs.State as m;
ghost use Rattle.model_checking.specs.Scoping as s;
ghost use Rattle.model_checking.specs.ParameterDeclarations as p;
ghost use Rattle.check_state.specs.Kept.{state};

use crate::pending::Pending;
use cake_base::NoMemory;
use decl_scope::{DeclId, Scopes};
use sqlite_items::Items;
use std::marker::Model;

/// What is set aside while a scope is open: the automatic objects of the block around it so far. Contracts see their ids.
#[derive(Drop)]
pub struct Around {
    objects: Items<DeclId>,
}

impl Model for Around {
    ghost use Rattle.std.specs.Prelude.{List, ℕ};
    ghost use Rattle.core_tree.specs.CoreStatForms.{ids};

    ghost Value = { List ℕ };

    ghost view = { λ a. ids a.objects };
}

fn enter_scope(scopes: &mut Scopes, is_literal: bool) -> Result<(), NoMemory>
    ensures ok { OnOk result (scopes.new ≡ o.enter is_literal scopes.old) }
    ensures err { OnErr result (scopes.new ≡ scopes.old) }
{
    if is_literal {
        scopes.enter_literal()
    } else {
        scopes.enter()
    }
}

impl<'t> Pending<'t> {
    /// Enters a scope, or that of the parameters of a function literal, in which no object is made yet (ISO/IEC 9899:2024,
    /// 6.2.1), and sets the automatic objects of the block so far aside. After a refusal nothing has changed.
    pub fn enter(&mut self, scopes: &mut Scopes, is_literal: bool) -> Result<Around, NoMemory>
        ensures ok { OnOk result (state scopes.new self.new ≡ s.entered is_literal (state scopes.old self.old)) }
        ensures around { IfOk result (λ around. around ≡ self.old.automatic) }
        ensures err { OnErr result ((scopes.new ≡ scopes.old) × (self.new ≡ self.old)) }
    {
        enter_scope(scopes, is_literal)?;
        let none = Items::new(self.alloc());
        let objects = self.change_automatic(none);
        Ok(Around { objects })
    }

    /// Leaves the innermost scope for the one around it, whose automatic objects come back, and gives its own (6.2.4).
    pub fn leave(&mut self, scopes: &mut Scopes, around: Around) -> Items<DeclId>
        ensures left { (before : m.State) → before.automatic ≡ around → state scopes.new self.new ≡ s.after_scope before (state scopes.old self.old) }
        ensures objects { ids result ≡ self.old.automatic }
    {
        let Around { objects } = around;
        scopes.leave();
        self.change_automatic(objects)
    }

    /// Leaves out the objects of the ids that were drawn since this one was the next: no block has them. After a refusal nothing
    /// has changed.
    pub fn leave_out_since(&mut self, scopes: &Scopes, next: u32) -> Result<(), NoMemory>
        ensures ok { OnOk result ((before : m.State) → before.scopes.ids ≡ next → state scopes.now self.new ≡ p.leaves_out_since before (state scopes.now self.old)) }
        ensures err { OnErr result (self.new ≡ self.old) }
    {
        self.add_left_out(next, scopes.ids())
    }
}
