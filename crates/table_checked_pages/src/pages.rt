//! Stored bytes, and their known pages.

ghost use Rattle.std.specs.Prelude.{◌≡◌, ◌+◌, ◌<◌, ◌^◌, ℕ, List, [], OnOk, length};
ghost use Rattle.table_checked_pages.specs.Pages.{digests_size};

use crate::Claim;
use crate::level::Level;
use heap_memory::Heap;

/// Bytes that are stored in a device, read page by page. Each page is compared with its digest once, before one of its
/// bytes is returned, and is kept from then on. Each call passes the device, so one device can serve several of these.
#[derive(Drop)]
pub struct Pages {
    pub(crate) claim: Claim,
    // The known pages of each level, from the bytes up; a level that is missing has none.
    pub(crate) levels: Vec<Level, Heap>,
    pub(crate) heap: Heap,
    ghost fits: { claim.offset + digests_size claim.size + claim.size < 2 ^ 64 },
}
