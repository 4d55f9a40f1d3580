//! Laws of preprocessing.
ghost use Rattle.std.specs.Prelude.{◌≡◌, ◌<◌, ◌≤◌, ℕ, List, ◌∷◌, length, Some, None, Result, Ok, Err};
ghost use Rattle.cake_base.specs.Outside.{Held};
ghost use Rattle.model_preprocessing.specs.declared.directives.ReadCause.TheVariants as cause;
ghost use Rattle.model_tokens.specs.PpTokens.{PpToken};
ghost use Rattle.model_macros.specs.MacroArguments.{Run};
ghost use Rattle.model_macros.specs.Expansion as expansion;
ghost use Rattle.model_preprocessing.specs.Processes.{Refusal, unread};
ghost use Rattle.model_preprocessing.specs.ControlLines.{MOST_TOKENS, stop_of};
ghost use Rattle.model_preprocessing.specs.PreprocessedUnit.{Options, Prepared, first_log, preprocessed, asked, preprocessed_up_to, log_of};
ghost use Rattle.model_preprocessing.specs.PreprocessingLaws.{NamesFirst, EndsAtRead, IsPlain, IsReplaced, unit_of};

/// The main file is the first that is asked for.
pub fn main_file_is_read_first()
    ensures { (held : Held) (options : Options) (name : List ℕ) → (others : List (List ℕ)) × (asked held options name ≡ name ∷ others) }
{}

/// The files 0 and 1 have their names from the start: whatever preprocessing answers, and where a
/// read fails.
pub fn first_files_are_named()
    ensures answered { (held : Held) (options : Options) (name : List ℕ) → NamesFirst name (log_of (preprocessed held options name)) }
    ensures failed { (held : Held) (options : Options) (name : List ℕ) (k : ℕ) (answer : Result Prepared Refusal) → preprocessed_up_to held options name k ≡ Some answer → NamesFirst name (log_of answer) }
{}

/// Each read may fail, and no other: then preprocessing ends with the file that was asked for.
pub fn failed_reads_end()
    ensures each { (held : Held) (options : Options) (name : List ℕ) (k : ℕ) → k < length (asked held options name) → EndsAtRead held options name k }
    ensures first { (held : Held) (options : Options) (name : List ℕ) → preprocessed_up_to held options name 1 ≡ Some (Err (record { stop = unread 0 cause.Failed; log = first_log name })) }
    ensures none { (held : Held) (options : Options) (name : List ℕ) → preprocessed_up_to held options name 0 ≡ None }
    ensures past { (held : Held) (options : Options) (name : List ℕ) (k : ℕ) → length (asked held options name) < k → preprocessed_up_to held options name k ≡ None }
{}

/// A unit without directives is the macro replacement of its tokens (ISO/IEC 9899:2024, 6.10.5.1), with
/// the predefined macros alone; where replacement breaks a rule or passes its limit, so does the unit.
pub fn plain_unit_is_replaced()
    ensures tokens { (held : Held) (options : Options) (name text : List ℕ) (tokens : List PpToken) (run : Run) (made : ℕ) → IsPlain held options name text tokens → IsReplaced name tokens (Ok (run, made)) → length run ≤ MOST_TOKENS → preprocessed held options name ≡ Ok (unit_of name text run) }
    ensures stops { (held : Held) (options : Options) (name text : List ℕ) (tokens : List PpToken) (stop : expansion.Stop) (made : ℕ) → IsPlain held options name text tokens → IsReplaced name tokens (Err (stop, made)) → preprocessed held options name ≡ Err (record { stop = stop_of stop; log = first_log name }) }
{}
