//! Memory for bytes that are read.

ghost use Rattle.std.specs.Prelude.{◌≡◌, ◌≤◌, ◌*◌, OnOk, max, vec_capacity};

use heap_memory::{Heap, NoMemory};

// From this capacity, memory grows by a quarter.
const LARGE_ROOM: usize = 64 * 1024 * 1024;

/// The next capacity: twice as much, or a quarter more from `LARGE_ROOM`.
fn next_room(room: usize) -> usize
    ensures { result ≤ 2 * room }
{
    if room < LARGE_ROOM {
        room * 2
    } else {
        room.saturating_add(room / 4)
    }
}

/// Makes room for `least` bytes in all, if there is less: twice the old capacity, from 64 MiB a quarter more, but no
/// more than `most`. So the last growth is to the exact length if that is known, and a length that is only claimed uses
/// no memory: the capacity is at most twice the bytes that were read.
pub fn make_room(bytes: &mut Vec<u8, Heap>, least: usize, most: usize) -> Result<(), NoMemory>
    requires within { least ≤ most }
    ensures same { bytes.new.items ≡ bytes.old.items }
    ensures room { OnOk result (least ≤ vec_capacity bytes.new) }
    ensures growth { OnOk result (vec_capacity bytes.new ≤ max least (2 * vec_capacity bytes.old)) }
    ensures most { OnOk result (vec_capacity bytes.new ≤ max (vec_capacity bytes.old) most) }
{
    if least <= bytes.capacity() {
        return Ok(());
    }
    let room = next_room(bytes.capacity()).max(least).min(most);
    bytes.reserve_exact(room - bytes.len())
}
