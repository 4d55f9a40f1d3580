//! Programs that aren't those of their units: each is typed, and its run shows what was done wrong; the unit's own program
//! runs as the unit.
ghost use Rattle.std.specs.Prelude.{◌≡◌, true, false, pos, negsuc, [], ◌∷◌, codes, Some, None};
ghost use Rattle.std.specs.Option.{option_map};
ghost use Rattle.model_core.specs.Core as unit;
ghost use Rattle.model_core.specs.Program89 as text;
ghost use Rattle.model_runs.specs.Memory.{Single, Number};
ghost use Rattle.model_runs.specs.Run.{Returned};
ghost use Rattle.model_runs.specs.SourceRun.{run23};
ghost use Rattle.model_c89.specs.TargetRun.{run89};
ghost use Rattle.model_c89.specs.Typing89.{is_typed};
ghost use Rattle.lowering_rows.specs.WrongPrograms.{load_first, loaded_later, two_locals, one_local, left_first, right_first, test_first, step_first, continue_to_test, continue_to_body};
ghost use Rattle.lowering_rows.specs.WrongPrograms.{second_where_asked, second_always, place_first, value_first, new_each_time, kept_each_time, internal, exported};
ghost use Rattle.lowering_rows.specs.SampleNames.{lowered};

/// A load that waits for what stands behind it.
pub fn loaded_later()
    ensures typed { is_typed loaded_later ≡ true }
    ensures unit { (run23 50 load_first (codes "main") [] []).ending ≡ Returned (Single (Number (pos 12))) }
    ensures wrong { (run89 50 loaded_later (codes "main") [] []).ending ≡ Returned (Single (Number (pos 14))) }
    ensures right { (run89 50 (lowered load_first) (codes "main") [] []).ending ≡ Returned (Single (Number (pos 12))) }
{}

/// Two locals that share a name.
pub fn one_local()
    ensures typed { is_typed one_local ≡ true }
    ensures unit { (run23 50 two_locals (codes "main") [] []).ending ≡ Returned (Single (Number (pos 1))) }
    ensures wrong { (run89 50 one_local (codes "main") [] []).ending ≡ Returned (Single (Number (pos 2))) }
    ensures right { (run89 50 (lowered two_locals) (codes "main") [] []).ending ≡ Returned (Single (Number (pos 1))) }
{}

/// The right operand first.
pub fn right_first()
    ensures typed { is_typed right_first ≡ true }
    ensures unit { (run23 50 left_first (codes "main") [] (pos 5 ∷ pos 3 ∷ [])).ending ≡ Returned (Single (Number (pos 2))) }
    ensures wrong { (run89 50 right_first (codes "main") [] (pos 5 ∷ pos 3 ∷ [])).ending ≡ Returned (Single (Number (negsuc 1))) }
    ensures right { (run89 50 (lowered left_first) (codes "main") [] (pos 5 ∷ pos 3 ∷ [])).ending ≡ Returned (Single (Number (pos 2))) }
{}

/// The step of `for` before its first test.
pub fn step_first()
    ensures typed { is_typed step_first ≡ true }
    ensures unit { (run23 50 test_first (codes "main") [] []).ending ≡ Returned (Single (Number (pos 1))) }
    ensures wrong { (run89 50 step_first (codes "main") [] []).ending ≡ Returned (Single (Number (pos 0))) }
    ensures right { (run89 50 (lowered test_first) (codes "main") [] []).ending ≡ Returned (Single (Number (pos 1))) }
{}

/// `continue` that skips the test of `do`.
pub fn continue_to_body()
    ensures typed { is_typed continue_to_body ≡ true }
    ensures unit { (run23 50 continue_to_test (codes "main") [] (pos 1 ∷ [])).ending ≡ Returned (Single (Number (pos 1))) }
    ensures wrong { (run89 50 continue_to_body (codes "main") [] (pos 1 ∷ [])).ending ≡ Returned (Single (Number (pos 2))) }
    ensures right { (run89 50 (lowered continue_to_test) (codes "main") [] (pos 1 ∷ [])).ending ≡ Returned (Single (Number (pos 1))) }
{}

/// `&&` that evaluates both.
pub fn second_always()
    ensures typed { is_typed second_always ≡ true }
    ensures unit { (run23 50 second_where_asked (codes "main") [] []).ending ≡ Returned (Single (Number (pos 0))) }
    ensures wrong { (run89 50 second_always (codes "main") [] []).ending ≡ Returned (Single (Number (pos 1))) }
    ensures right { (run89 50 (lowered second_where_asked) (codes "main") [] []).ending ≡ Returned (Single (Number (pos 0))) }
{}

/// The right side of an assignment before its place.
pub fn value_first()
    ensures typed { is_typed value_first ≡ true }
    ensures unit { (run23 50 place_first (codes "main") [] []).ending ≡ Returned (Single (Number (pos 1))) }
    ensures wrong { (run89 50 value_first (codes "main") [] []).ending ≡ Returned (Single (Number (pos 5))) }
    ensures right { (run89 50 (lowered place_first) (codes "main") [] []).ending ≡ Returned (Single (Number (pos 1))) }
{}

/// A local that keeps its value.
pub fn kept_each_time()
    ensures typed { is_typed kept_each_time ≡ true }
    ensures unit { (run23 50 new_each_time (codes "main") [] (pos 0 ∷ pos 1 ∷ [])).ending ≡ Returned (Single (Number (pos 1))) }
    ensures wrong { (run89 50 kept_each_time (codes "main") [] (pos 0 ∷ pos 1 ∷ [])).ending ≡ Returned (Single (Number (pos 2))) }
    ensures right { (run89 50 (lowered new_each_time) (codes "main") [] (pos 0 ∷ pos 1 ∷ [])).ending ≡ Returned (Single (Number (pos 1))) }
{}

/// A function of the unit alone that another unit could call: the program has an external function that the unit hasn't.
pub fn exported()
    ensures typed { is_typed exported ≡ true }
    ensures unit { unit.function_of internal.functions (codes "f") ≡ None }
    ensures wrong { option_map (λ (g : text.Function). g.is_static) (text.function_of exported.functions (codes "f")) ≡ Some false }
    ensures right { option_map (λ (g : text.Function). g.is_static) (text.function_of (lowered internal).functions (codes "db")) ≡ Some true }
{}
