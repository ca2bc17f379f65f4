//! Relations between the definitions, for every list of bytes. Each law is the contract of a function that does
//! nothing.

ghost use Rattle.std.specs.Prelude.{◌≡◌, ◌<◌, ◌⊎◌, ℕ, List, Option, Some, true, Contains, length};
ghost use Rattle.std.specs.Cmp.{IsTotalOrder};
ghost use Rattle.std.specs.declared.cmp.Ordering.TheVariants.{Equal};
ghost use Rattle.macho_symbols.specs.Symbols.{Tuple, table_of, entry_of, candidate_in, candidates, is_in_section};
ghost use Rattle.macho_symbols.specs.Fault.{IsSymbolFault, HasSymbols};
ghost use Rattle.macho_symbols.specs.Nearest.{tuple_cmp, IsNearest};
ghost use Rattle.macho_symbols.specs.declared.fault.SymbolFault.{SymbolFault};

/// An image has symbols or a symbol fault, never both and never two faults.
pub fn one_symbol_fault()
    ensures some { (image : List ℕ) → HasSymbols image ⊎ ((f : SymbolFault) × IsSymbolFault image f) }
    ensures one { (image : List ℕ) (f g : SymbolFault) → IsSymbolFault image f → IsSymbolFault image g → f ≡ g }
    ensures none { (image : List ℕ) (f : SymbolFault) → HasSymbols image → IsSymbolFault image f → ⊥ }
{}

/// The candidates are the entries of the symbol table that meet the definition.
pub fn candidates_are_entries()
    ensures from { (image : List ℕ) (c : Tuple) → Contains (candidates image) c →
        (i : ℕ) × (i < (table_of image).nsyms) × (candidate_in image (entry_of image i) ≡ Some c) }
    ensures each { (image : List ℕ) (i : ℕ) (c : Tuple) → i < (table_of image).nsyms →
        candidate_in image (entry_of image i) ≡ Some c → Contains (candidates image) c }
{}

/// A candidate is in its section and has a name.
pub fn candidates_are_named()
    ensures inside { (image : List ℕ) (c : Tuple) → Contains (candidates image) c
        → is_in_section image c.sect c.value ≡ true }
    ensures name { (image : List ℕ) (c : Tuple) → Contains (candidates image) c → 0 < length c.name }
{}

/// The order of candidates is total, and candidates that compare as equal are the same.
pub fn total_order()
    ensures total { IsTotalOrder tuple_cmp }
    ensures exact { (c d : Tuple) → tuple_cmp c d ≡ Equal → c ≡ d }
{}

/// An address has one nearest candidate or none, never both and never two.
pub fn one_nearest()
    ensures some { (image : List ℕ) (address : ℕ) → (found : Option Tuple) × IsNearest image address found }
    ensures one { (image : List ℕ) (address : ℕ) (found other : Option Tuple) →
        IsNearest image address found → IsNearest image address other → found ≡ other }
{}
