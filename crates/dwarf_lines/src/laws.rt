//! Relations between the definitions.

ghost use Rattle.std.specs.Prelude.{◌≡◌, ◌↔◌, ℕ, List, Option};
ghost use Rattle.dwarf_lines.specs.Header.{HeaderRecord};
ghost use Rattle.dwarf_lines.specs.Machine.{rows_from};
ghost use Rattle.dwarf_lines.specs.Runs.{Appends};
ghost use Rattle.dwarf_lines.specs.Covering.{IsCovering};
ghost use Rattle.dwarf_lines.specs.declared.registers.Registers.{Registers};
ghost use Rattle.dwarf_lines.specs.declared.registers.Row.{Row};

/// The machine appends one list of rows, for any bytes.
pub fn one_run()
    ensures { (header : HeaderRecord) (r : Registers) (bytes : List ℕ) (rows : List Row) →
        Appends header r bytes rows ↔ (rows ≡ rows_from header r bytes) }
{}

/// At most one row is the first that covers an address.
pub fn one_covering()
    ensures { (rows : List Row) (address : ℕ) (one other : Option Row) →
        IsCovering rows address one → IsCovering rows address other → one ≡ other }
{}
