//! Relations between the definitions. Each law is the contract of a function that does nothing.

ghost use Rattle.std.specs.Prelude.{◌≡◌, ◌++◌, ◌<◌, ◌≤◌, ◌^◌, ℕ, List, Some, length};
ghost use Rattle.dwarf_encoding.specs.Leb128.{signed_leb128_at, signed_leb128_bytes, unsigned_leb128_at};
ghost use Rattle.dwarf_encoding.specs.Leb128.{unsigned_leb128_bytes};

/// A number is read from its bytes, with the bytes after them.
pub fn numbers_are_read_back()
    ensures unsigned { (number : ℕ) (rest : List ℕ) → number < 2 ^ 64
        → unsigned_leb128_at (unsigned_leb128_bytes number ++ rest) ≡ Some (number, rest) }
    ensures signed { (number : ℕ) (rest : List ℕ) → number < 2 ^ 64
        → signed_leb128_at (signed_leb128_bytes number ++ rest) ≡ Some (number, rest) }
{}

/// A number has at most ten bytes.
pub fn at_most_ten_bytes()
    ensures unsigned { (number : ℕ) → length (unsigned_leb128_bytes number) ≤ 10 }
    ensures signed { (number : ℕ) → length (signed_leb128_bytes number) ≤ 10 }
{}
