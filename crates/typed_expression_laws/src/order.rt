//! Laws of the order in which a core has its objects, functions and named types: each function does nothing, and its contract is
//! the law.
ghost use Rattle.std.specs.Prelude.{◌≡◌, true, List};
ghost use Rattle.std.specs.Result.{IfOk};
ghost use Rattle.model_grammar.specs.SyntaxForms as syntax;
ghost use Rattle.model_core.specs.MadeNames.{is_in_order};
ghost use Rattle.model_checking.specs.State.{State};
ghost use Rattle.model_checking.specs.MadeUnit.{core_of};
ghost use Rattle.model_checking.specs.Units.{elab_unit};

/// The core that is made of what is known at the end of a unit.
pub fn core_is_in_order()
    ensures { (s : State) → is_in_order (core_of s) ≡ true }
{}

/// The core of a unit that breaks nothing.
pub fn unit_is_in_order()
    ensures { (trees : List syntax.External) → IfOk (elab_unit trees) (λ core. is_in_order core ≡ true) }
{}
