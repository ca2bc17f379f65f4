//! Laws about scripts.
//!
//! Each law is the contract of a function with an empty body, and its clauses are about the definitions alone.
ghost use Rattle.std.specs.Prelude.{◌≡◌, ◌<◌, ◌^◌, ◌⊎◌, ℕ, List, Some, Ok, Err};
ghost use Rattle.std.specs.Fmt.{decimal};
ghost use Rattle.text_input_files.specs.Events.{Act};
ghost use Rattle.text_input_files.specs.Numbers.{number_of};
ghost use Rattle.text_input_files.specs.Script.{IsFirstFault, IsScript, script_of};
ghost use Rattle.text_input_files.specs.declared.script.ScriptFault.{ScriptFault};

/// A field is a number exactly if it is the printed form of that number.
pub fn numbers_as_printed()
    ensures printed { (n : ℕ) → n < 2 ^ 32 → number_of (decimal n) ≡ Some n }
    ensures only { (field : List ℕ) (n : ℕ) → number_of field ≡ Some n → (n < 2 ^ 32) × (field ≡ decimal n) }
{}

/// Bytes are a script exactly if the first line that counts has the number of sites, each further one is an event, and
/// there are no more than 10,000 of them.
pub fn script_of_lines()
    ensures lines { (bytes : List ℕ) (sites : ℕ) (events : List Act)
        → script_of bytes ≡ Ok (sites, events)
        → IsScript bytes sites events }
    ensures listed { (bytes : List ℕ) (sites : ℕ) (events : List Act)
        → IsScript bytes sites events
        → script_of bytes ≡ Ok (sites, events) }
{}

/// Otherwise the fault is that of the first faulty line, with its number, counted from 1.
pub fn fault_of_lines()
    ensures lines { (bytes : List ℕ) (fault : ScriptFault) (line : ℕ)
        → script_of bytes ≡ Err (fault, line)
        → IsFirstFault bytes fault line }
    ensures listed { (bytes : List ℕ) (fault : ScriptFault) (line : ℕ)
        → IsFirstFault bytes fault line
        → script_of bytes ≡ Err (fault, line) }
{}

/// Bytes are a script or have exactly one fault at one line, and never both.
pub fn script_or_fault()
    ensures either { (bytes : List ℕ)
        → ((sites : ℕ) × (events : List Act) × IsScript bytes sites events)
        ⊎ ((fault : ScriptFault) × (line : ℕ) × IsFirstFault bytes fault line) }
    ensures not_both { (bytes : List ℕ) (sites : ℕ) (events : List Act) (fault : ScriptFault) (line : ℕ)
        → IsScript bytes sites events
        → IsFirstFault bytes fault line
        → ⊥ }
    ensures one { (bytes : List ℕ) (fault other : ScriptFault) (line other_line : ℕ)
        → IsFirstFault bytes fault line
        → IsFirstFault bytes other other_line
        → (fault ≡ other) × (line ≡ other_line) }
{}
