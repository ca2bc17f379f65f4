//! The frames that were found for addresses.

ghost use Rattle.std.specs.Prelude.{◌≡◌, ◌≢◌, ℕ, OnOk, Some};
ghost use Rattle.std.specs.Ordering.{nat_cmp};
ghost use Rattle.std.specs.BTreeMap as tree_map;

use dwarf_source_frames::SourceFrame;
use heap_memory::{Heap, NoMemory};
use std::collections::BTreeMap;

/// The frames of an address, the innermost first.
#[derive(Drop)]
pub(crate) struct FrameList<'a> {
    pub frames: Vec<SourceFrame<'a>, Heap>,
}

/// The frames that were found, by their addresses.
pub(crate) type Found<'a> = BTreeMap<u64, FrameList<'a>, Heap>;

/// Adds the frames of an address.
pub(crate) fn put_frames<'a>(
    found: &mut Found<'a>,
    address: u64,
    list: FrameList<'a>,
) -> Result<(), NoMemory>
    ensures here { OnOk result (tree_map.get nat_cmp found.new address ≡ Some list.entry) }
    ensures others { OnOk result ((a : ℕ) → a ≢ address →
        tree_map.get nat_cmp found.new a ≡ tree_map.get nat_cmp found.old a) }
{
    found.insert(address, list)?;
    Ok(())
}
