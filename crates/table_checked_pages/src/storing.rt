//! Bytes with their digests.

ghost use Rattle.std.specs.Prelude.{◌≡◌, ◌<◌, ◌≤◌, ◌*◌, ◌^◌, ◌++◌, ℕ, List, IfOk, length};
ghost use Rattle.sha2.specs.Sha256.{sha256};
ghost use Rattle.table_checked_pages.specs.Pages.{page_digests, page_of, root_of, stored};

use crate::sizes::{PAGE_LEN, pages_in};
use heap_memory::{Heap, NoMemory};
use sha2::{Digest, Sha256};

/// Bytes with their digests, and their root.
#[derive(Drop)]
pub struct Stored {
    /// The page digests of all levels, and then the bytes.
    pub bytes: Vec<u8, Heap>,
    /// The SHA-256 of the highest level.
    pub root: [u8; 32],
}

/// A page of bytes.
fn page_of(bytes: &[u8], index: u64) -> &[u8]
    requires { 4096 * index < length bytes.now }
    ensures { result.now ≡ page_of bytes.now index }
{
    let rest = bytes.split_at((PAGE_LEN * index) as usize).1;
    rest.split_at(rest.len().min(PAGE_LEN as usize)).0
}

/// The SHA-256 of each page, one after another.
fn page_digests(heap: Heap, bytes: &[u8]) -> Result<Vec<u8, Heap>, NoMemory>
    ensures { IfOk result (λ digests. digests.items ≡ page_digests bytes.now) }
{
    let mut digests = Vec::new(heap);
    'pages: for index in 0..pages_in(bytes.len() as u64) {
        digests.extend_from_slice(&Sha256::digest(page_of(bytes, index)))?;
    }
    Ok(digests)
}

/// The digests that are stored before bytes, and the root.
pub(crate) fn digests_over(heap: &Heap, bytes: &[u8]) -> Result<Stored, NoMemory>
    ensures stored { IfOk result (λ over. over.bytes.items ++ bytes.now ≡ stored bytes.now) }
    ensures root { IfOk result (λ over. over.root ≡ root_of bytes.now) }
{
    if bytes.len() as u64 <= PAGE_LEN {
        let root = Sha256::digest(bytes);
        return Ok(Stored {
            bytes: Vec::new(heap.share()),
            root,
        });
    }
    store(heap, page_digests(heap.share(), bytes)?)
}

/// Bytes with their digests, as they are stored.
pub fn store(heap: &Heap, bytes: Vec<u8, Heap>) -> Result<Stored, NoMemory>
    ensures stored { IfOk result (λ made. made.bytes.items ≡ stored bytes.items) }
    ensures root { IfOk result (λ made. made.root ≡ root_of bytes.items) }
{
    if bytes.len() as u64 <= PAGE_LEN {
        let root = Sha256::digest(&bytes[..]);
        return Ok(Stored { bytes, root });
    }
    let digests = page_digests(heap.share(), &bytes)?;
    let mut above = store(heap, digests)?;
    above.bytes.extend_from_slice(&bytes)?;
    Ok(above)
}
