//! The line table of an image.

ghost use Rattle.std.specs.Prelude.{◌≡◌, IfOk};
ghost use Rattle.table_source_frames.specs.LineTable.{IsLineTable, room_of};

use crate::laws::table_by_turns;
use crate::sink::StoreSink;
use crate::store::LineStore;
use dwarf_frame_changes::push_turns;
use heap_memory::{Heap, NoMemory};
use macho_image::Image;
use macho_symbols::strings_of;
use table_source_frames::HEAD_LEN;

/// The largest size in bytes of the table of an image.
fn room_for(image: &Image) -> u64
    ensures { result ≡ room_of image.now }
{
    let most = 4 * image.bytes().len() as u64;
    let least = HEAD_LEN as u64;
    if most < least { least } else { most }
}

/// The line table of an image: the table of its steps, if it fits into four times the bytes of the image, and else one
/// without lines. The time is that of [`push_turns`], of a sort of the turns and of two searches for each string of the
/// image; the memory is that of the texts, files, scopes and locations of frames, each stored once, of 16 bytes for
/// each turn, and of the table, with its steps twice.
pub fn line_table(heap: Heap, image: &Image) -> Result<Vec<u8, Heap>, NoMemory>
    ensures { IfOk result (λ bytes. IsLineTable image.now bytes.items) }
{
    table_by_turns();
    let store = LineStore::new(heap.share());
    let mut sink = StoreSink { store };
    push_turns(heap.share(), image, &mut sink)?;
    sink.store.finish(heap, strings_of(image), room_for(image))
}
