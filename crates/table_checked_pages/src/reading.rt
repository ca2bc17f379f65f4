//! Stored bytes, read page by page.

ghost use Rattle.std.specs.Prelude.{◌≡◌, ◌+◌, ◌-◌, ◌*◌, ◌/◌, ◌%◌, ◌<◌, ◌≤◌, ◌↔◌, ℕ, List, IsTrue, OnOk, IfOk, Some};
ghost use Rattle.std.specs.Prelude.{length, take, drop, min};
ghost use Rattle.sha2.specs.Sha256.{sha256};
ghost use Rattle.table_checked_pages.specs.Pages.{AreKeptLevels, AreStored, digests_size, first_of, height, level_of};
ghost use Rattle.table_checked_pages.specs.Pages.{level_size, page_of};
ghost use Rattle.table_checked_pages.specs.Views.{ArePagesOf, KeepsPages, claim_view, kept_view, page_at};
ghost use Rattle.table_checked_pages.specs.Reading.{ReadsStored};

use crate::checking::read_checked;
use crate::level::Level;
use crate::sizes::{DIGEST_LEN, FAN_OUT, PAGE_LEN, digests_len, level_size};
use crate::{CheckFault, Pages};
use byte_device::Placed;
use heap_memory::{Heap, NoMemory};

impl Pages {
    /// The number of bytes.
    pub fn size(&self) -> u64
        ensures { result ≡ self.now.claim.size }
    {
        self.claim.size
    }

    /// Drops the pages of bytes, but no digests. A page is read again when one of its bytes is needed.
    #[tactic(auto, unfolding(crate::specs::Pages::AreKeptLevels))]
    pub fn forget(&mut self)
        ensures claim { self.new.claim ≡ self.old.claim }
        ensures keeps { (text all : List ℕ) → ArePagesOf self.old text all → ArePagesOf self.new text all }
    {
        if self.levels.len() > 0 {
            self.levels[0] = Level::new(self.heap.share());
        }
    }

    /// The size of a page of a level in bytes.
    fn page_len(&self, level: usize, index: u64) -> u64
        requires { 4096 * index < level_size level self.now.claim.size }
        ensures { result ≡ min 4096 (level_size level self.now.claim.size - 4096 * index) }
    {
        (level_size(self.claim.size, level) - PAGE_LEN * index).min(PAGE_LEN)
    }

    /// The offset of a page in the device.
    fn page_offset(&self, level: usize, index: u64) -> u64
        requires level { level ≤ height self.now.claim.size }
        requires page { 4096 * index < level_size level self.now.claim.size }
        ensures { result ≡ first_of (claim_view self.now.claim) level + 4096 * index }
    {
        let size = level_size(self.claim.size, level);
        self.claim.offset + digests_len(size) + PAGE_LEN * index
    }

    /// A page of a level; empty if it is not kept.
    fn page(&self, level: usize, index: u64) -> &[u8]
        ensures { result.now ≡ page_at self.now level index }
    {
        match self.levels.get(level) {
            Some(pages) => pages.page(index),
            None => &[],
        }
    }

    /// Whether a page of a level is kept.
    fn is_kept(&self, level: usize, index: u64) -> bool
        requires { 4096 * index < level_size level self.now.claim.size }
        ensures { IsTrue result
            ↔ (length (page_at self.now level index) ≡ min 4096 (level_size level self.now.claim.size - 4096 * index)) }
    {
        self.page(level, index).len() as u64 == self.page_len(level, index)
    }

    /// The digest of a page of a level, in the page above it, which is kept.
    fn digest(&self, level: usize, index: u64) -> [u8; 32]
        requires { 32 * (index % 128) + 32 ≤ length (page_at self.now (level + 1) (index / 128)) }
        ensures { result ≡ take 32 (drop (32 * (index % 128)) (page_at self.now (level + 1) (index / 128))) }
    {
        let from = (DIGEST_LEN * (index % FAN_OUT)) as usize;
        let page = self.page(level + 1, index / FAN_OUT);
        let mut digest = [0; 32];
        digest.copy_from_slice(&page[from..from + DIGEST_LEN as usize]);
        digest
    }

    /// Makes room for the pages of a level.
    fn make_level(&mut self, level: usize) -> Result<(), NoMemory>
        ensures room { OnOk result (level < length self.new.levels.items) }
        ensures claim { self.new.claim ≡ self.old.claim }
        ensures keeps { (all : List ℕ) → AreKeptLevels (kept_view self.old) all
            → AreKeptLevels (kept_view self.new) all }
    {
        'room: while self.levels.len() <= level {
            self.levels.push(Level::new(self.heap.share()))?;
        }
        Ok(())
    }

    /// Keeps a page of a level.
    fn keep(&mut self, level: usize, index: u64, page: Vec<u8, Heap>) -> Result<(), NoMemory>
        ensures kept { OnOk result (page_at self.new level index ≡ page.items) }
        ensures claim { self.new.claim ≡ self.old.claim }
        ensures keeps { (all : List ℕ) → page.items ≡ page_of (level_of level all) index
            → AreKeptLevels (kept_view self.old) all → AreKeptLevels (kept_view self.new) all }
    {
        self.make_level(level)?;
        let heap = self.heap.share();
        let pages = &mut self.levels[level];
        pages.keep(&heap, index, page)
    }

    /// Reads a page of a level, compares it with a digest, and keeps it. The errors are those of [`read_checked`].
    fn fetch<P: Placed>(
        &mut self,
        device: &mut P,
        level: usize,
        index: u64,
        digest: &[u8],
    ) -> Result<(), CheckFault>
        requires level { level ≤ height self.old.claim.size }
        requires page { 4096 * index < level_size level self.old.claim.size }
        ensures long { OnOk result (length (page_at self.new level index)
            ≡ min 4096 (level_size level self.old.claim.size - 4096 * index)) }
        ensures claim { self.new.claim ≡ self.old.claim }
        ensures keeps { (text all : List ℕ) → P.whole device.old ≡ Some text
            → digest.now ≡ sha256 (page_of (level_of level all) index)
            → ArePagesOf self.old text all → ArePagesOf self.new text all }
        ensures read { ReadsStored P.whole P.failures device.old device.new result
            (λ _ _. Unit {0})
            (λ text. (all : List ℕ) → AreStored text (claim_view self.old.claim) all
            → digest.now ≡ sha256 (page_of (level_of level all) index) → ⊥) }
    {
        let offset = self.page_offset(level, index);
        let len = self.page_len(level, index);
        let page = read_checked(self.heap.share(), device, offset, len, digest)?;
        match self.keep(level, index, page) {
            Ok(()) => Ok(()),
            Err(NoMemory) => Err(CheckFault::OutOfMemory),
        }
    }

    /// Keeps a page of a level, unless it is kept. It keeps the page above it first, which has its digest; the digest
    /// of the highest level is the root.
    fn bring<P: Placed>(
        &mut self,
        device: &mut P,
        level: usize,
        index: u64,
    ) -> Result<(), CheckFault>
        requires level { level ≤ height self.old.claim.size }
        requires page { 4096 * index < level_size level self.old.claim.size }
        ensures long { OnOk result (length (page_at self.new level index)
            ≡ min 4096 (level_size level self.old.claim.size - 4096 * index)) }
        ensures claim { self.new.claim ≡ self.old.claim }
        ensures keeps { KeepsPages P.whole device.old self.old self.new }
        ensures read { ReadsStored P.whole P.failures device.old device.new result
            (λ _ _. Unit {0})
            (λ text. (all : List ℕ) → AreStored text (claim_view self.old.claim) all → ArePagesOf self.old text all
            → ⊥) }
    {
        if self.is_kept(level, index) {
            return Ok(());
        }
        if level_size(self.claim.size, level) <= PAGE_LEN {
            let root = self.claim.root;
            return self.fetch(device, level, index, &root);
        }
        self.bring(device, level + 1, index / FAN_OUT)?;
        let digest = self.digest(level, index);
        self.fetch(device, level, index, &digest)
    }

    /// Fills a buffer with bytes of a page, from an offset in the page on.
    fn part<P: Placed>(
        &mut self,
        device: &mut P,
        index: u64,
        skip: usize,
        buf: &mut [u8],
    ) -> Result<(), CheckFault>
        requires page { 4096 * index < self.old.claim.size }
        requires inside { skip + length buf.old ≤ min 4096 (self.old.claim.size - 4096 * index) }
        ensures claim { self.new.claim ≡ self.old.claim }
        ensures keeps { KeepsPages P.whole device.old self.old self.new }
        ensures read { ReadsStored P.whole P.failures device.old device.new result
            (λ text _. (all : List ℕ) → ArePagesOf self.old text all
            → buf.new ≡ take (length buf.new) (drop (4096 * index + skip) all))
            (λ text. (all : List ℕ) → AreStored text (claim_view self.old.claim) all → ArePagesOf self.old text all
            → ⊥) }
    {
        self.bring(device, 0, index)?;
        let page = self.page(0, index);
        buf.copy_from_slice(&page[skip..skip + buf.len()]);
        Ok(())
    }

    /// Fills a buffer with the bytes from an offset on. The error is `Changed` if a page differs from its digest or the
    /// buffer passes the end, `Device` or `OutOfMemory`.
    pub fn read<P: Placed>(
        &mut self,
        device: &mut P,
        offset: u64,
        buf: &mut [u8],
    ) -> Result<(), CheckFault>
        ensures claim { self.new.claim ≡ self.old.claim }
        ensures keeps { KeepsPages P.whole device.old self.old self.new }
        ensures read { ReadsStored P.whole P.failures device.old device.new result
            (λ text _. (all : List ℕ) → ArePagesOf self.old text all
            → buf.new ≡ take (length buf.new) (drop offset all))
            (λ text. (all : List ℕ) → AreStored text (claim_view self.old.claim) all → ArePagesOf self.old text all
            → offset + length buf.new ≤ length all → ⊥) }
        ensures within { OnOk result (0 < length buf.new → offset + length buf.new ≤ self.old.claim.size) }
    {
        let mut done = 0;
        'pages: while done < buf.len() {
            let Some(place) = offset.checked_add(done as u64) else {
                return Err(CheckFault::Changed);
            };
            if place >= self.claim.size {
                return Err(CheckFault::Changed);
            }
            let index = place / PAGE_LEN;
            let skip = (place % PAGE_LEN) as usize;
            let n = (self.page_len(0, index) as usize - skip).min(buf.len() - done);
            self.part(device, index, skip, &mut buf[done..done + n])?;
            done += n;
        }
        Ok(())
    }
}
