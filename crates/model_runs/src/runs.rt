//! Laws of the runs: each function does nothing, and its contract is the law.
ghost use Rattle.std.specs.Prelude.{◌≡◌, ◌⊎◌, ℕ, ◌+◌, ◌≤◌, ℤ, Bool, List, [], Option};
ghost use Rattle.cake_base.specs.declared.places.Place.{Place};
ghost use Rattle.model_runs.specs.Memory.{Value};
ghost use Rattle.model_runs.specs.Run.{State, Out};
ghost use Rattle.model_runs.specs.SourceFrame.{Frame};
ghost use Rattle.model_runs.specs.SourceStatements.{perform_all};
ghost use Rattle.model_runs.specs.DefersInList.{perform_with};
ghost use Rattle.model_runs.specs.SourceRun.{call_defined, run23};
ghost use Rattle.model_core.specs.Core.{Stats, Core, Function};

/// The statements of a block run as with a list of what the block has deferred, of which the newest
/// runs first when control leaves it.
pub fn defers_are_a_list()
    ensures { (f : Frame) (bound : ℕ) (stats : Stats) (s : State) → perform_all f bound stats s ≡ perform_with f bound stats [] s }
{}

/// A bound on how deep calls lie in one another, and on the rounds of loops, never decides where it is
/// at least the number of turns.
pub fn bound_never_decides()
    ensures { (core : Core) (bound other : ℕ) (place : Option Place) (g : Function) (fits : Bool) (vs : List Value) (s : State) →
        s.turns ≤ bound → bound ≤ other → call_defined core other place g fits vs s ≡ call_defined core bound place g fits vs s }
{}

/// A run that is over stays as it is with more turns.
pub fn run_that_is_over_stays_over()
    ensures { (n more : ℕ) (core : Core) (entry : List ℕ) (arguments : List Value) (world : List ℤ) →
        ((run23 n core entry arguments world).ending ≡ Out) ⊎ (run23 (n + more) core entry arguments world ≡ run23 n core entry arguments world) }
{}
