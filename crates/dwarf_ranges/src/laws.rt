//! Relations between the definitions.

ghost use Rattle.std.specs.Prelude.{◌≡◌, ℕ, List, Option};
ghost use Rattle.dwarf_ranges.specs.Aranges.{IsFirstTuple};
ghost use Rattle.dwarf_ranges.specs.declared.arange.Arange.{Arange};

/// At most one tuple is the first that contains an address.
pub fn one_first_tuple()
    ensures { (tuples : List Arange) (address : ℕ) (one other : Option Arange) →
        IsFirstTuple tuples address one → IsFirstTuple tuples address other → one ≡ other }
{}
