//! Where a slice of indexed archives is.

use crate::kept::Kept;
use index_lookup::NamedSlice;

/// Where a slice is that was chosen by indexes.
#[derive(Drop)]
pub enum Place<A> {
    /// In its archive, as its entry names it.
    Named(NamedSlice),
    /// Among the slices that were read from the archives.
    Kept(Kept<A>),
}
