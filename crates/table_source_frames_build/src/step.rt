//! A step of a store.

/// A step: the frames from an address on are those of a location; location 0 has none.
#[derive(Clone, Copy)]
pub(crate) struct Step {
    pub start: u64,
    pub location: u32,
}
