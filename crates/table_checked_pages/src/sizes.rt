//! The sizes of stored bytes.

ghost use Rattle.std.specs.Prelude.{◌≡◌, ◌≤◌, ◌+◌, ◌*◌, ◌/◌};
ghost use Rattle.table_checked_pages.specs.Pages.{digests_size, level_size, pages_in};

/// The size of a page in bytes.
pub const PAGE_LEN: u64 = 4096;

/// The size of a digest in bytes.
pub(crate) const DIGEST_LEN: u64 = 32;

/// The number of digests in a page.
pub(crate) const FAN_OUT: u64 = PAGE_LEN / DIGEST_LEN;

/// The number of pages of `size` bytes.
pub fn pages_in(size: u64) -> u64
    ensures { result ≡ pages_in size }
{
    size / PAGE_LEN + if size % PAGE_LEN == 0 { 0 } else { 1 }
}

/// The size of a level above `size` bytes; level 0 is the bytes themselves.
pub(crate) fn level_size(size: u64, level: usize) -> u64
    ensures { result ≡ level_size level size }
{
    let mut here = size;
    let mut k = 0;
    'up: while k < level {
        here = DIGEST_LEN * pages_in(here);
        k += 1;
    }
    here
}

/// The size of the digests of all levels, which are stored before `size` bytes.
pub fn digests_len(size: u64) -> u64
    ensures is { result ≡ digests_size size }
    ensures most { result ≤ size }
{
    let mut here = size;
    let mut len = 0;
    'up: while here > PAGE_LEN {
        here = DIGEST_LEN * pages_in(here);
        len += here;
    }
    len
}
