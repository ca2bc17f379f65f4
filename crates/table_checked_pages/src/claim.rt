//! The place at which bytes are said to be stored.

/// The place at which bytes are said to be stored in a file, as an entry of an index states it.
#[derive(Clone, Copy, Drop)]
pub struct Claim {
    /// The offset of the first stored byte, which belongs to the highest level.
    pub offset: u64,
    /// The number of bytes, without the digests before them.
    pub size: u64,
    /// The SHA-256 of the highest level.
    pub root: [u8; 32],
}
