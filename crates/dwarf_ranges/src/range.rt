//! A range of addresses.

ghost use Rattle.std.specs.Prelude.{◌≡◌, ◌&&◌, nat_le, nat_lt};

/// The addresses from `low` on that are below `high`.
#[derive(Clone, Copy, Debug, PartialEq, Eq)]
pub struct CodeRange {
    pub low: u64,
    pub high: u64,
}

impl CodeRange {
    /// Whether the range contains an address.
    pub fn contains(&self, address: u64) -> bool
        ensures { result ≡ (nat_le self.now.low address && nat_lt address self.now.high) }
    {
        self.low <= address && address < self.high
    }
}
