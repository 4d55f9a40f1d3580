//! Units whose runs are known: their programs are typed, and run as they do.
ghost use Rattle.std.specs.Prelude.{◌≡◌, true, pos, [], ◌∷◌, codes};
ghost use Rattle.model_runs.specs.SourceRun.{run23};
ghost use Rattle.model_c89.specs.TargetRun.{run89};
ghost use Rattle.model_c89.specs.Typing89.{is_typed};
ghost use Rattle.model_c89.specs.Spelling89.{canonical};
ghost use Rattle.c_model.specs.Examples.{hidden_name, load_before_call, returned};
ghost use Rattle.c_model.specs.ExampleList.{list_of_nodes, with_memory, without_memory};
ghost use Rattle.lowering_rows.specs.SampleNames.{lowered};

/// An inner object that has the name of an outer one.
pub fn inner_name_hides_outer()
    ensures typed { is_typed (lowered hidden_name) ≡ true }
    ensures runs { run89 100 (lowered hidden_name) (codes "f") [] [] ≡ returned [] 1 }
{}

/// A call behind a load: the loaded value is kept in a temporary.
pub fn operands_go_from_left_to_right()
    ensures typed { is_typed (lowered load_before_call) ≡ true }
    ensures runs { run89 100 (lowered load_before_call) (codes "main") [] [] ≡ returned [] 3 }
{}

/// A list on the heap, with a structure, an outside function and a loop.
pub fn list_is_printed_and_freed()
    ensures typed { is_typed (lowered list_of_nodes) ≡ true }
    ensures built { run89 100 (lowered list_of_nodes) (codes "main") [] (pos 1 ∷ pos 1 ∷ pos 1 ∷ []) ≡ with_memory }
    ensures refused { run89 100 (lowered list_of_nodes) (codes "main") [] [] ≡ without_memory }
{}
