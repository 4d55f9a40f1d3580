//! Laws of the definitions: each function does nothing, and its contract is the law.
ghost use Rattle.std.specs.Prelude.{◌≡◌, ℤ, pos, List, [], Some, Ok, codes};
ghost use Rattle.model_c89.specs.Reading89.{Reads89};
ghost use Rattle.model_runs.specs.Memory.{Single, Number};
ghost use Rattle.model_runs.specs.Run.{Returned, Undefined};
ghost use Rattle.model_runs.specs.SourceRun.{run23};
ghost use Rattle.model_c89.specs.TargetRun.{run89};
ghost use Rattle.model_core.specs.Core.{Core};
ghost use Rattle.model_core.specs.TypedCore.{TypedCore};
ghost use Rattle.model_tokens.specs.declared.tokens.CTok.{CTok};
ghost use Rattle.c_model.specs.FirstUnit.{IsUnit};
ghost use Rattle.model_tokens.specs.PpTokens.{PpToken, tokens_of};
ghost use Rattle.model_tokens.specs.CTokens.{c_tokens_of};
ghost use Rattle.c_model.specs.ExampleParts.{at_column};
ghost use Rattle.c_model.specs.FirstRow.{seven_text, seven_tokens, seven_core, seven_program, seven_written, overflow_tokens, overflow_core, nine_tokens, nine_core};

use model_types::outcomes::Cause;

/// The text of a first unit has its tokens.
pub fn seven_is_converted()
    ensures { (tokens : List PpToken) × (tokens_of 0 seven_text ≡ Ok tokens) × (c_tokens_of tokens ≡ Ok seven_tokens) }
{}

/// They are the first unit of its core.
pub fn seven_is_a_unit()
    ensures { IsUnit seven_tokens seven_core }
{}

/// Its `main` returns 7 with one turn, whatever the world.
pub fn seven_returns_7()
    ensures { (world : List ℤ) → run23 1 seven_core (codes "main") [] world ≡ record { events = []; moves = []; ending = Returned (Single (Number (pos 7))) } }
{}

/// The text that was written for it reads as its program, and that returns 7 too.
pub fn seven_is_written()
    ensures reads { Reads89 seven_written seven_program }
    ensures runs { (world : List ℤ) → run89 1 seven_program (codes "main") [] world ≡ record { events = []; moves = []; ending = Returned (Single (Number (pos 7))) } }
{}

/// The places of an expression in parentheses, and of one that begins with it, written out.
pub fn parentheses_have_places()
    ensures { IsUnit nine_tokens nine_core }
{}

/// The core of every first unit is typed.
pub fn first_unit_is_typed()
    ensures { (ts : List CTok) (core : Core) → IsUnit ts core → TypedCore core }
{}

/// A sum past the greatest int is a unit, and its run is undefined at the operator.
pub fn overflow_is_undefined()
    ensures unit { IsUnit overflow_tokens overflow_core }
    ensures run { (world : List ℤ) → run23 1 overflow_core (codes "main") [] world ≡ record { events = []; moves = []; ending = Undefined Cause.Overflow (Some (at_column 36 8)) } }
{}
