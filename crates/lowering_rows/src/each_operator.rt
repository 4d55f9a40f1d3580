//! Each operator beside calls: the program is typed, and runs as the unit does.
ghost use Rattle.std.specs.Prelude.{◌≡◌, true, pos, negsuc, [], ◌∷◌, codes};
ghost use Rattle.model_core.specs.TypedCore.{is_typed_core};
ghost use Rattle.model_runs.specs.Memory.{Single, Number};
ghost use Rattle.model_runs.specs.Run.{Returned};
ghost use Rattle.model_runs.specs.SourceRun.{run23};
ghost use Rattle.model_c89.specs.TargetRun.{run89};
ghost use Rattle.model_c89.specs.Typing89.{is_typed};
ghost use Rattle.model_c89.specs.Flat89.{Flat};
ghost use Rattle.lowering_rows.specs.EachOperator.{sums, compound, logic, choice, elements, conversions, pointers};
ghost use Rattle.lowering_rows.specs.SampleNames.{lowered};

/// Sums and products of calls: what stands before a call is kept.
pub fn sums()
    ensures core { is_typed_core sums ≡ true }
    ensures typed { is_typed (lowered sums) ≡ true }
    ensures flat { Flat (lowered sums) }
    ensures ends { (run23 50 sums (codes "main") [] (pos 3 ∷ pos 4 ∷ [])).ending ≡ Returned (Single (Number (pos 12))) }
    ensures runs { run89 50 (lowered sums) (codes "main") [] (pos 3 ∷ pos 4 ∷ []) ≡ run23 50 sums (codes "main") [] (pos 3 ∷ pos 4 ∷ []) }
{}

/// A compound assignment loads behind its right operand; a step gives the old value.
pub fn compound()
    ensures core { is_typed_core compound ≡ true }
    ensures typed { is_typed (lowered compound) ≡ true }
    ensures flat { Flat (lowered compound) }
    ensures ends { (run23 50 compound (codes "main") [] (pos 2 ∷ [])).ending ≡ Returned (Single (Number (pos 100))) }
    ensures runs { run89 50 (lowered compound) (codes "main") [] (pos 2 ∷ []) ≡ run23 50 compound (codes "main") [] (pos 2 ∷ []) }
{}

/// The second operand of `&&` and `||` is done only where it counts.
pub fn logic()
    ensures core { is_typed_core logic ≡ true }
    ensures typed { is_typed (lowered logic) ≡ true }
    ensures flat { Flat (lowered logic) }
    ensures ends_first { (run23 50 logic (codes "main") [] (pos 1 ∷ pos 0 ∷ pos 0 ∷ pos 5 ∷ pos 0 ∷ [])).ending ≡ Returned (Single (Number (pos 11))) }
    ensures runs_first { run89 50 (lowered logic) (codes "main") [] (pos 1 ∷ pos 0 ∷ pos 0 ∷ pos 5 ∷ pos 0 ∷ []) ≡ run23 50 logic (codes "main") [] (pos 1 ∷ pos 0 ∷ pos 0 ∷ pos 5 ∷ pos 0 ∷ []) }
    ensures ends_second { (run23 50 logic (codes "main") [] (pos 0 ∷ pos 1 ∷ pos 1 ∷ [])).ending ≡ Returned (Single (Number (pos 10))) }
    ensures runs_second { run89 50 (lowered logic) (codes "main") [] (pos 0 ∷ pos 1 ∷ pos 1 ∷ []) ≡ run23 50 logic (codes "main") [] (pos 0 ∷ pos 1 ∷ pos 1 ∷ []) }
{}

/// One of two operands is done.
pub fn choice()
    ensures core { is_typed_core choice ≡ true }
    ensures typed { is_typed (lowered choice) ≡ true }
    ensures flat { Flat (lowered choice) }
    ensures ends_first { (run23 50 choice (codes "main") [] (pos 1 ∷ pos 7 ∷ [])).ending ≡ Returned (Single (Number (pos 7))) }
    ensures runs_first { run89 50 (lowered choice) (codes "main") [] (pos 1 ∷ pos 7 ∷ []) ≡ run23 50 choice (codes "main") [] (pos 1 ∷ pos 7 ∷ []) }
    ensures ends_second { (run23 50 choice (codes "main") [] (pos 0 ∷ pos 7 ∷ [])).ending ≡ Returned (Single (Number (negsuc 6))) }
    ensures runs_second { run89 50 (lowered choice) (codes "main") [] (pos 0 ∷ pos 7 ∷ []) ≡ run23 50 choice (codes "main") [] (pos 0 ∷ pos 7 ∷ []) }
{}

/// Places are found before what is stored there.
pub fn elements()
    ensures core { is_typed_core elements ≡ true }
    ensures typed { is_typed (lowered elements) ≡ true }
    ensures flat { Flat (lowered elements) }
    ensures ends { (run23 50 elements (codes "main") [] (pos 0 ∷ pos 4 ∷ pos 1 ∷ [])).ending ≡ Returned (Single (Number (pos 34))) }
    ensures runs { run89 50 (lowered elements) (codes "main") [] (pos 0 ∷ pos 4 ∷ pos 1 ∷ []) ≡ run23 50 elements (codes "main") [] (pos 0 ∷ pos 4 ∷ pos 1 ∷ []) }
{}

/// Bool and types below int.
pub fn conversions()
    ensures core { is_typed_core conversions ≡ true }
    ensures typed { is_typed (lowered conversions) ≡ true }
    ensures flat { Flat (lowered conversions) }
    ensures ends_first { (run23 50 conversions (codes "main") [] (pos 6 ∷ [])).ending ≡ Returned (Single (Number (pos 1132))) }
    ensures runs_first { run89 50 (lowered conversions) (codes "main") [] (pos 6 ∷ []) ≡ run23 50 conversions (codes "main") [] (pos 6 ∷ []) }
    ensures ends_second { (run23 50 conversions (codes "main") [] (pos 0 ∷ [])).ending ≡ Returned (Single (Number (pos 43))) }
    ensures runs_second { run89 50 (lowered conversions) (codes "main") [] (pos 0 ∷ []) ≡ run23 50 conversions (codes "main") [] (pos 0 ∷ []) }
{}

/// What a pointer leads to, which an operand behind changes.
pub fn pointers()
    ensures core { is_typed_core pointers ≡ true }
    ensures typed { is_typed (lowered pointers) ≡ true }
    ensures flat { Flat (lowered pointers) }
    ensures ends { (run23 50 pointers (codes "main") [] (pos 4 ∷ [])).ending ≡ Returned (Single (Number (pos 42))) }
    ensures runs { run89 50 (lowered pointers) (codes "main") [] (pos 4 ∷ []) ≡ run23 50 pointers (codes "main") [] (pos 4 ∷ []) }
{}
