//! The choice of a wanted slice.

use archive_core::{Digest, FindRow};
use heap_memory::Heap;

/// A chosen slice.
#[derive(Drop)]
pub struct Chosen<P> {
    /// Where it is.
    pub place: P,
    /// Its SHA-256.
    pub digest: Digest,
    /// Its length in bytes.
    pub size: u64,
}

/// The choice of a wanted slice.
#[derive(Drop)]
pub enum Choice<P> {
    /// This slice.
    One(Chosen<P>),
    /// None, or several with no preference: the rows of those that answer.
    Undecided(Vec<FindRow, Heap>),
}
