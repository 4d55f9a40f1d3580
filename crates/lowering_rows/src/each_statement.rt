//! Each statement: the program is typed, and runs as the unit does.
ghost use Rattle.std.specs.Prelude.{◌≡◌, true, pos, [], ◌∷◌, codes};
ghost use Rattle.model_core.specs.TypedCore.{is_typed_core};
ghost use Rattle.model_runs.specs.Memory.{Single, Number};
ghost use Rattle.model_runs.specs.Run.{Returned};
ghost use Rattle.model_runs.specs.SourceRun.{run23};
ghost use Rattle.model_c89.specs.TargetRun.{run89};
ghost use Rattle.model_c89.specs.Typing89.{is_typed};
ghost use Rattle.model_c89.specs.Flat89.{Flat};
ghost use Rattle.lowering_rows.specs.EachStatement.{while_loop, do_loop, for_loop, endless_loop, switch};
ghost use Rattle.lowering_rows.specs.SampleNames.{lowered};

/// `while` with `continue`, `break` and `else`.
pub fn while_loop()
    ensures core { is_typed_core while_loop ≡ true }
    ensures typed { is_typed (lowered while_loop) ≡ true }
    ensures flat { Flat (lowered while_loop) }
    ensures ends_first { (run23 50 while_loop (codes "main") [] (pos 1 ∷ pos 1 ∷ pos 1 ∷ pos 0 ∷ pos 0 ∷ pos 0 ∷ pos 0 ∷ pos 1 ∷ pos 0 ∷ pos 1 ∷ pos 9 ∷ [])).ending ≡ Returned (Single (Number (pos 9))) }
    ensures runs_first { run89 50 (lowered while_loop) (codes "main") [] (pos 1 ∷ pos 1 ∷ pos 1 ∷ pos 0 ∷ pos 0 ∷ pos 0 ∷ pos 0 ∷ pos 1 ∷ pos 0 ∷ pos 1 ∷ pos 9 ∷ []) ≡ run23 50 while_loop (codes "main") [] (pos 1 ∷ pos 1 ∷ pos 1 ∷ pos 0 ∷ pos 0 ∷ pos 0 ∷ pos 0 ∷ pos 1 ∷ pos 0 ∷ pos 1 ∷ pos 9 ∷ []) }
    ensures ends_second { (run23 50 while_loop (codes "main") [] (pos 0 ∷ pos 8 ∷ [])).ending ≡ Returned (Single (Number (pos 8))) }
    ensures runs_second { run89 50 (lowered while_loop) (codes "main") [] (pos 0 ∷ pos 8 ∷ []) ≡ run23 50 while_loop (codes "main") [] (pos 0 ∷ pos 8 ∷ []) }
{}

/// `continue` in `do` goes to the test.
pub fn do_loop()
    ensures core { is_typed_core do_loop ≡ true }
    ensures typed { is_typed (lowered do_loop) ≡ true }
    ensures flat { Flat (lowered do_loop) }
    ensures ends { (run23 50 do_loop (codes "main") [] (pos 1 ∷ pos 1 ∷ pos 0 ∷ pos 0 ∷ pos 0 ∷ [])).ending ≡ Returned (Single (Number (pos 0))) }
    ensures runs { run89 50 (lowered do_loop) (codes "main") [] (pos 1 ∷ pos 1 ∷ pos 0 ∷ pos 0 ∷ pos 0 ∷ []) ≡ run23 50 do_loop (codes "main") [] (pos 1 ∷ pos 1 ∷ pos 0 ∷ pos 0 ∷ pos 0 ∷ []) }
{}

/// The step of `for` comes behind the first round, also where `continue` ends one.
pub fn for_loop()
    ensures core { is_typed_core for_loop ≡ true }
    ensures typed { is_typed (lowered for_loop) ≡ true }
    ensures flat { Flat (lowered for_loop) }
    ensures ends_first { (run23 50 for_loop (codes "main") [] (pos 0 ∷ pos 0 ∷ pos 0 ∷ pos 0 ∷ pos 0 ∷ [])).ending ≡ Returned (Single (Number (pos 0))) }
    ensures runs_first { run89 50 (lowered for_loop) (codes "main") [] (pos 0 ∷ pos 0 ∷ pos 0 ∷ pos 0 ∷ pos 0 ∷ []) ≡ run23 50 for_loop (codes "main") [] (pos 0 ∷ pos 0 ∷ pos 0 ∷ pos 0 ∷ pos 0 ∷ []) }
    ensures runs_second { run89 50 (lowered for_loop) (codes "main") [] (pos 5 ∷ []) ≡ run23 50 for_loop (codes "main") [] (pos 5 ∷ []) }
{}

/// A `for` without a test.
pub fn endless_loop()
    ensures core { is_typed_core endless_loop ≡ true }
    ensures typed { is_typed (lowered endless_loop) ≡ true }
    ensures flat { Flat (lowered endless_loop) }
    ensures ends { (run23 50 endless_loop (codes "main") [] (pos 0 ∷ pos 0 ∷ pos 1 ∷ [])).ending ≡ Returned (Single (Number (pos 0))) }
    ensures runs { run89 50 (lowered endless_loop) (codes "main") [] (pos 0 ∷ pos 0 ∷ pos 1 ∷ []) ≡ run23 50 endless_loop (codes "main") [] (pos 0 ∷ pos 0 ∷ pos 1 ∷ []) }
{}

/// Labels, falling through, and objects of the body.
pub fn switch()
    ensures core { is_typed_core switch ≡ true }
    ensures typed { is_typed (lowered switch) ≡ true }
    ensures flat { Flat (lowered switch) }
    ensures ends_first { (run23 50 switch (codes "main") [] (pos 1 ∷ [])).ending ≡ Returned (Single (Number (pos 0))) }
    ensures runs_first { run89 50 (lowered switch) (codes "main") [] (pos 1 ∷ []) ≡ run23 50 switch (codes "main") [] (pos 1 ∷ []) }
    ensures runs_second { run89 50 (lowered switch) (codes "main") [] (pos 2 ∷ []) ≡ run23 50 switch (codes "main") [] (pos 2 ∷ []) }
    ensures runs_third { run89 50 (lowered switch) (codes "main") [] (pos 3 ∷ []) ≡ run23 50 switch (codes "main") [] (pos 3 ∷ []) }
    ensures runs_fourth { run89 50 (lowered switch) (codes "main") [] (pos 4 ∷ []) ≡ run23 50 switch (codes "main") [] (pos 4 ∷ []) }
{}
