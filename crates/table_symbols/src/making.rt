//! The table of an image: its building and writing.

ghost use Rattle.std.specs.Prelude.{◌≡◌, ◌<◌, ◌+◌, ◌*◌, ◌^◌, ◌++◌, ◌≤◌, ◌↔◌, IfOk, IsTrue, length, take, drop};
ghost use Rattle.sha2.specs.Sha256.{sha256};
ghost use Rattle.byte_device.specs.Writes.{Puts};
ghost use Rattle.table_checked_pages.specs.Pages.{page_digests, page_of, root_of, stored};
ghost use Rattle.macho_symbols.specs.Fault.{HasSymbols};
ghost use Rattle.table_symbols.specs.Table.{IsTableWith};

use crate::text::{push_head, push_rows, push_sections};
use byte_device::{Sink, WriteFault, put};
use heap_memory::{Heap, NoMemory};
use macho_image::Image;
use macho_symbols::{Symbols, collect_sections, steps, strings_of};
use sha2::{Digest, Sha256};
use std::marker::Model;
use table_checked_pages::{PAGE_LEN, Stored, pages_in, store};

/// The bytes of the table of an image: its head, sections and rows, its strings, which are borrowed from the image, and
/// its lines. A contract sees all of them, one after another.
#[derive(Drop)]
pub struct TableText<'a> {
    own: Vec<u8, Heap>,
    strings: &'a [u8],
    lines: Vec<u8, Heap>,
}

impl<'a> Model for TableText<'a> {
    ghost use Rattle.std.specs.Prelude.{ℕ, List, ◌++◌, ◌+◌, ◌<◌, ◌^◌, length};

    ghost Value = { List ℕ };

    ghost view = { λ t. t.own.items ++ (t.strings.now ++ t.lines.items) };

    ghost invariant = { λ t. length t.own.items + length t.strings.now + length t.lines.items < 2 ^ 64 };
}

/// Whether parts of these sizes have fewer than 2^64 bytes together.
fn is_counted(own: usize, strings: usize, lines: usize) -> bool
    ensures { IsTrue result ↔ (own + strings + lines < 2 ^ 64) }
{
    own as u128 + strings as u128 + lines as u128 <= u128::from(u64::MAX)
}

/// The `len` bytes from an offset on, or all that there are if there are fewer.
fn part(bytes: &[u8], from: usize, len: usize) -> &[u8]
    ensures { result.now ≡ take len (drop from bytes.now) }
{
    let rest = bytes.split_at(bytes.len().min(from)).1;
    rest.split_at(rest.len().min(len)).0
}

impl<'a> TableText<'a> {
    /// The table of an image whose symbols can be read, with these bytes as its lines. It needs 24 bytes for each
    /// candidate and 45 for each row, and no copy of the strings or the lines; and up to two for each byte of the
    /// strings, if names that are compared overlap. The error is `NoMemory`, also for a table of 2^64 bytes or more.
    pub fn new(
        heap: Heap,
        image: &Image<'a>,
        lines: Vec<u8, Heap>,
    ) -> Result<TableText<'a>, NoMemory>
        requires { HasSymbols image.now }
        ensures { IfOk result (λ text. IsTableWith image.now lines.items text) }
    {
        let sections = collect_sections(heap.share(), image)?;
        let rows = steps(heap.share(), &Symbols::of_read(image))?;
        let strings = strings_of(image);
        let mut own = Vec::new(heap);
        push_head(
            &mut own,
            image.text_base(),
            sections.len(),
            rows.len(),
            strings.len(),
            lines.len(),
        )?;
        push_sections(&mut own, &sections)?;
        push_rows(&mut own, &rows)?;
        if !is_counted(own.len(), strings.len(), lines.len()) {
            return Err(NoMemory);
        }
        Ok(TableText {
            own,
            strings,
            lines,
        })
    }

    /// The size of the table in bytes.
    pub fn size(&self) -> u64
        ensures { result ≡ length self.now }
    {
        self.own.len() as u64 + self.strings.len() as u64 + self.lines.len() as u64
    }

    /// The SHA-256 of a page. Its parts of the strings and the lines are not copied.
    fn page_digest(&self, index: u64) -> [u8; 32]
        requires { 4096 * index < 2 ^ 64 }
        ensures { result ≡ sha256 (page_of self.now index) }
    {
        let from = PAGE_LEN as usize * index as usize;
        let first = part(&self.own, from, PAGE_LEN as usize);
        let after = from.saturating_sub(self.own.len());
        let second = part(self.strings, after, PAGE_LEN as usize - first.len());
        let left = PAGE_LEN as usize - first.len() - second.len();
        let past = after.saturating_sub(self.strings.len());
        let third = part(&self.lines, past, left);
        let mut hasher = Sha256::new();
        hasher.update(first);
        hasher.update(second);
        hasher.update(third);
        hasher.finalize()
    }

    /// The SHA-256 of each page, one after another.
    fn page_digests(&self, heap: Heap) -> Result<Vec<u8, Heap>, NoMemory>
        ensures { IfOk result (λ digests. digests.items ≡ page_digests self.now) }
    {
        let mut digests = Vec::new(heap);
        'pages: for index in 0..pages_in(self.size()) {
            digests.extend_from_slice(&self.page_digest(index))?;
        }
        Ok(digests)
    }

    /// The digests that are stored before the table, and its root. Each page is hashed once.
    pub fn above(&self, heap: &Heap) -> Result<Stored, NoMemory>
        ensures stored { IfOk result (λ above. above.bytes.items ++ self.now ≡ stored self.now) }
        ensures root { IfOk result (λ above. above.root ≡ root_of self.now) }
    {
        if self.size() <= PAGE_LEN {
            return Ok(Stored {
                bytes: Vec::new(heap.share()),
                root: self.page_digest(0),
            });
        }
        let digests = self.page_digests(heap.share())?;
        store(heap, digests)
    }

    /// Writes the table as it is stored, after the first `done` bytes of a text, and returns the new number of bytes.
    /// The digests `above` are written first.
    pub fn write<W: Sink>(&self, above: &[u8], w: &mut W, done: u128) -> Result<u128, WriteFault>
        requires above { above.now ++ self.now ≡ stored self.now }
        requires fits { done < 2 ^ 127 }
        ensures { Puts W.held W.failures (λ n. n) w.old w.new done (stored self.now) result }
    {
        let between = put(w, done, above)?;
        let before = put(w, between, &self.own)?;
        let after = put(w, before, self.strings)?;
        put(w, after, &self.lines)
    }
}
