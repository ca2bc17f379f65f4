//! Laws of the definitions of words and commands. Each law is the contract of a function that does nothing.

ghost use Rattle.std.specs.Prelude.{◌≡◌, ◌↔◌, ℕ, List, [], None, Some, map, option_map, true};
ghost use Rattle.clap.specs.Words.{Row};
ghost use Rattle.cli_arguments.specs.Arguments.{Argument};
ghost use Rattle.cli_arguments.specs.LineFaults.{refusal_at};
ghost use Rattle.cli_arguments.specs.Lines.{are_accepted, error_kinds, texts_of, values_at};
ghost use Rattle.cli_arguments.specs.Samples.{EachAsks, samples};
ghost use Rattle.cli_arguments.specs.Table.{commands};
ghost use Rattle.cli_arguments.specs.WellFormed.{are_well_formed, is_flag};

/// Words are accepted exactly if they have no kind of error.
pub fn accepted_exactly()
    ensures { (words : List (List ℕ)) → (error_kinds words ≡ []) ↔ (are_accepted words ≡ true) }
{}

/// Each command has a line that is accepted, in which each value has its form and OUT's path is not an input's.
pub fn each_command_is_asked_for()
    ensures asked { EachAsks samples }
    ensures each { map (λ s. s.line.name) samples ≡ map (λ s. s.name) commands }
{}

/// The commands can be distinguished, and so can the arguments of each.
pub fn table_is_well_formed()
    ensures { are_well_formed commands ≡ true }
{}

/// A flag is never refused for a word, and is not a path.
pub fn flags_have_no_words()
    ensures told { (a : Argument) (rows : List Row) → is_flag a.count ≡ true → refusal_at a rows ≡ None }
    ensures paths { (a : Argument) (rows : List Row) → is_flag a.count ≡ true
        → option_map texts_of (values_at a rows) ≡ Some [] }
{}
