//! Runs of small units, which the checker computes: each function does nothing, and its contract is
//! what the run of a unit is.
ghost use Rattle.std.specs.Prelude.{◌≡◌, true, false, pos, [], ◌∷◌, codes};
ghost use Rattle.std.specs.List.{list_all};
ghost use Rattle.model_runs.specs.Memory.{Heap};
ghost use Rattle.model_runs.specs.SourceRun.{run23, ended23};
ghost use Rattle.model_core.specs.TypedCore.{is_typed_core};
ghost use Rattle.c_model.specs.Examples.{loop_with_defer, written_by_loop, deferred_assignment, hidden_name, load_before_call, function_literal};
ghost use Rattle.c_model.specs.Examples.{no_value, without_value, returned, with_nothing, call_of_nothing, chosen_nothing, nothing_is_used};
ghost use Rattle.model_c89.specs.Typing89.{is_typed};
ghost use Rattle.model_c89.specs.TargetRun.{run89};
ghost use Rattle.c_model.specs.ExampleTexts.{writes_bytes, prints_node, node_printed};
ghost use Rattle.c_model.specs.ExampleList.{list_of_nodes, with_memory, without_memory};
ghost use Rattle.c_model.specs.ExampleReleases.{freed_in_loop, dead_in_loop, no_loop, freed_twice, released_twice, nothing_to_free, never_freed, asks_for_owner};
ghost use Rattle.model_runs.specs.Ownership.{Misuse, left_by, keeps_promise};

/// A deferred call runs at the end of each round, also where `continue` ends it.
pub fn defers_run_in_each_round()
    ensures { run23 100 loop_with_defer (codes "main") [] [] ≡ returned written_by_loop 0 }
{}

/// A returned value is there before what is deferred runs.
pub fn defers_run_behind_returned_value()
    ensures value { run23 100 deferred_assignment (codes "f") [] [] ≡ returned [] 1 }
    ensures later { run23 100 deferred_assignment (codes "main") [] [] ≡ returned [] 12 }
{}

/// A name in a scope hides one outside of it.
pub fn inner_name_hides_outer()
    ensures { run23 100 hidden_name (codes "f") [] [] ≡ returned [] 1 }
{}

/// The left operand is evaluated before the right one.
pub fn operands_go_from_left_to_right()
    ensures { run23 100 load_before_call (codes "main") [] [] ≡ returned [] 3 }
{}

/// A function literal is called through a pointer.
pub fn function_literal_is_called()
    ensures { run23 100 function_literal (codes "main") [] [] ≡ returned [] 42 }
{}

/// An object without a value has none to read.
pub fn uninitialised_object_is_undefined()
    ensures { run23 100 no_value (codes "main") [] [] ≡ without_value }
{}

/// The missing value of a call is used where it is chosen, and not where it is dropped.
pub fn chosen_value_is_used()
    ensures chosen { run23 100 (with_nothing chosen_nothing) (codes "main") [] [] ≡ nothing_is_used }
    ensures dropped { run23 100 (with_nothing call_of_nothing) (codes "main") [] [] ≡ returned [] 0 }
{}

/// A list is built on the heap, printed and freed, or not built where there is no memory.
pub fn list_is_printed_and_freed()
    ensures built { run23 100 list_of_nodes (codes "main") [] (pos 1 ∷ pos 1 ∷ pos 1 ∷ []) ≡ with_memory }
    ensures refused { run23 100 list_of_nodes (codes "main") [] [] ≡ without_memory }
{}

/// An owner that a loop frees is dead in its second round, and the first use of it there is the end.
pub fn freed_owner_is_dead_in_next_round()
    ensures dead { run23 100 freed_in_loop (codes "main") [] (pos 1 ∷ []) ≡ dead_in_loop }
    ensures misuse { Misuse freed_in_loop dead_in_loop.ending }
    ensures refused { run23 100 freed_in_loop (codes "main") [] [] ≡ no_loop }
{}

/// An owner that is freed twice ends the run at the second call.
pub fn second_release_is_bad()
    ensures bad { run23 100 freed_twice (codes "main") [] (pos 1 ∷ []) ≡ released_twice }
    ensures misuse { Misuse freed_twice released_twice.ending }
    ensures refused { run23 100 freed_twice (codes "main") [] [] ≡ nothing_to_free }
{}

/// A list that is freed leaves nothing owned, and an owner that isn't freed is left.
pub fn unfreed_owner_is_left()
    ensures freed { left_by (ended23 100 list_of_nodes (codes "main") [] (pos 1 ∷ pos 1 ∷ pos 1 ∷ [])) ≡ [] }
    ensures left { left_by (ended23 100 never_freed (codes "main") [] (pos 1 ∷ [])) ≡ Heap 1 ∷ [] }
{}

/// An outside function that promises an owner and answers null isn't honest.
pub fn null_for_sure_owner_is_dishonest()
    ensures null { list_all (keeps_promise asks_for_owner) (run23 100 asks_for_owner (codes "main") [] []).events ≡ false }
    ensures handle { list_all (keeps_promise asks_for_owner) (run23 100 asks_for_owner (codes "main") [] (pos 7 ∷ [])).events ≡ true }
{}

/// The units of this file are typed.
pub fn units_are_typed()
    ensures defers { is_typed_core loop_with_defer ≡ true }
    ensures assignment { is_typed_core deferred_assignment ≡ true }
    ensures hiding { is_typed_core hidden_name ≡ true }
    ensures order { is_typed_core load_before_call ≡ true }
    ensures literal { is_typed_core function_literal ≡ true }
    ensures uninitialised { is_typed_core no_value ≡ true }
    ensures list { is_typed_core list_of_nodes ≡ true }
    ensures rounds { is_typed_core freed_in_loop ≡ true }
    ensures releases { is_typed_core freed_twice ≡ true }
    ensures unfreed { is_typed_core never_freed ≡ true }
    ensures owner { is_typed_core asks_for_owner ≡ true }
{}

/// A text that writes the bytes of the first unit, and is typed.
pub fn text_writes_bytes()
    ensures typed { is_typed writes_bytes ≡ true }
    ensures run { run89 100 writes_bytes (codes "main") [] [] ≡ returned written_by_loop 0 }
{}

/// A text that takes a node from the heap, prints it and frees it, and is typed.
pub fn text_prints_node()
    ensures typed { is_typed prints_node ≡ true }
    ensures run { run89 100 prints_node (codes "main") [] (pos 1 ∷ pos 2 ∷ []) ≡ node_printed }
{}
