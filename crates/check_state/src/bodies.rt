//! Function literals that wait, bodies of functions, and values of objects of static storage.
ghost use Rattle.std.specs.Prelude.{◌≡◌, IfOk, OnOk, OnErr};
ghost use Rattle.check_state.specs.Kept.{state, Steps};
ghost use Rattle.check_state.specs.Seen.{use_of};
ghost use Rattle.check_state.specs.SeenValues.{valued_of, body_of};
ghost use Rattle.check_state.specs.StateSteps.{with_waiting, with_none_waiting, with_valued, with_body};

use crate::literals::{Literals, Waiting};
use crate::objects::next_id;
use crate::params::Params;
use crate::pending::Pending;
use crate::uses::Use;
use crate::values::{Body, Valued};
use c_tree::Expr;
use c_types::CType;
use cake_base::NoMemory;
use decl_scope::{DeclId, Scopes};

impl<'t> Pending<'t> {
    /// Lets a function literal of a type wait for the end of its full expression, with what is declared in the scope of its
    /// parameters, and gives the id of its function. After a refusal nothing has changed.
    pub fn wait(
        &mut self,
        scopes: &mut Scopes,
        evaluation: Use,
        literal: &'t Expr,
        ty: CType,
        params: Params,
    ) -> Result<DeclId, NoMemory>
        ensures ok { OnOk result (state scopes.new self.new ≡ with_waiting (record { evaluation = use_of evaluation; id = scopes.old.ids; literal = literal.now; type = ty; parameters = params }) (state scopes.old self.old)) }
        ensures id { IfOk result (λ id. id.0 ≡ scopes.old.ids) }
        ensures err { OnErr result ((scopes.new ≡ scopes.old) × (self.new ≡ self.old)) }
    {
        let id = next_id(scopes)?;
        let waiting = Waiting {
            evaluation,
            id,
            literal,
            ty,
            params,
        };
        self.add_waiting(scopes, waiting)?;
        Ok(id)
    }

    /// Takes the function literals that wait, whose bodies are checked next.
    pub fn take_waiting(&mut self) -> Literals<'t>
        ensures taken { result ≡ self.old.waiting }
        ensures none { Steps with_none_waiting self.old self.new }
    {
        self.take_literals()
    }

    /// Adds a function with its body (ISO/IEC 9899:2024, 6.9.2). Of one that isn't evaluated the objects of the ids that were
    /// drawn since `next` was the next are left out in its place. After a refusal nothing has changed.
    pub fn add_function(
        &mut self,
        scopes: &Scopes,
        usage: Use,
        body: Body,
        next: u32,
    ) -> Result<(), NoMemory>
        ensures ok { OnOk result (state scopes.now self.new ≡ with_body (use_of usage) (body_of body) next (state scopes.now self.old)) }
        ensures err { OnErr result (self.new ≡ self.old) }
    {
        match usage {
            Use::Evaluated => self.add_body(body),
            Use::Unevaluated => {
                drop(body);
                self.add_left_out(next, scopes.ids())
            }
        }
    }

    /// Adds the values of an object of static storage (6.7.11). After a refusal nothing has changed.
    pub fn add_valued(&mut self, valued: Valued) -> Result<(), NoMemory>
        ensures ok { OnOk result (Steps (with_valued (valued_of valued)) self.old self.new) }
        ensures err { OnErr result (self.new ≡ self.old) }
    {
        self.add_values(valued)
    }
}
