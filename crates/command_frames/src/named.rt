//! The keys of frames, and their UUIDs.

ghost use Rattle.std.specs.Prelude.{◌≡◌, ◌++◌, All, IfOk, length, map};
ghost use Rattle.std.specs.List.Sorted.{IsSortedByKey, IsStrictlySortedBy};
ghost use Rattle.std.specs.Ordering.{nat_cmp};
ghost use Rattle.std.specs.Cmp.Lexicographic.{slice_cmp};
ghost use Rattle.archive_core.specs.Key.{IsKey};
ghost use Rattle.command_queries.specs.Frames.{frame_keys};
ghost use Rattle.command_queries.specs.Slices.{AreUuidsOf};
ghost use Rattle.command_frames.specs.Asking.{AreAskedUuids};

use archive_core::SliceKey;
use command_common::uuid_bytes;
use heap_memory::{Heap, NoMemory};
use std::cmp::Ordering;
use text_input_files::Frame;
use uuid::Uuid;

/// The key itself; its parts have their widths.
pub(crate) fn whole_key(key: SliceKey) -> SliceKey
    ensures same { result ≡ key }
    ensures key { IsKey key }
{
    key
}

/// The key of each frame.
pub(crate) fn frame_keys(heap: Heap, frames: &[Frame]) -> Result<Vec<SliceKey, Heap>, NoMemory>
    ensures are { IfOk result (λ keys. keys.items ≡ frame_keys frames.now) }
    ensures keyed { IfOk result (λ keys. All IsKey keys.items) }
{
    let mut keys = Vec::with_capacity(heap, frames.len())?;
    'frames: for frame in frames {
        keys.push(whole_key(frame.key))?;
    }
    Ok(keys)
}

fn compare_uuids(a: &Uuid, b: &Uuid) -> Ordering
    ensures { result ≡ slice_cmp nat_cmp a.now b.now }
{
    a.as_bytes()[..].cmp(&b.as_bytes()[..])
}

/// The UUID of each key.
fn each_uuid(heap: Heap, keys: &[SliceKey]) -> Result<Vec<Uuid, Heap>, NoMemory>
    ensures { IfOk result (λ uuids. uuids.items ≡ map (λ key. key.uuid) keys.now) }
{
    keys.iter().map(|key| key.uuid).collect(heap)
}

/// The UUIDs of keys, each once, in the order of their bytes.
pub(crate) fn uuids_of(heap: Heap, keys: &[SliceKey]) -> Result<Vec<Uuid, Heap>, NoMemory>
    ensures are { IfOk result (λ uuids. AreUuidsOf keys.now uuids.items) }
    ensures sorted { IfOk result (λ uuids. IsSortedByKey (λ uuid. uuid) (slice_cmp nat_cmp) uuids.items) }
    ensures ascending { IfOk result (λ uuids. IsStrictlySortedBy (slice_cmp nat_cmp) uuids.items) }
{
    let mut uuids = each_uuid(heap, keys)?;
    uuids.sort_unstable_by(|a, b| compare_uuids(a, b));
    uuids.dedup_by(|a, b| compare_uuids(a, b).is_eq());
    Ok(uuids)
}

/// The bytes of UUIDs.
fn bytes_of_each(heap: Heap, uuids: &[Uuid]) -> Result<Vec<[u8; 16], Heap>, NoMemory>
    ensures same { IfOk result (λ bytes. bytes.items ≡ uuids.now) }
    ensures long { IfOk result (λ bytes. All (λ uuid. length uuid ≡ 16) bytes.items) }
{
    let mut bytes = Vec::with_capacity(heap, uuids.len())?;
    'uuids: for uuid in uuids {
        bytes.push(uuid_bytes(*uuid))?;
    }
    Ok(bytes)
}

/// These keys, and those of the frames.
fn keys_with(
    heap: &Heap,
    keys: &[SliceKey],
    frames: &[Frame],
) -> Result<Vec<SliceKey, Heap>, NoMemory>
    ensures { IfOk result (λ all. all.items ≡ keys.now ++ frame_keys frames.now) }
{
    let mut all = Vec::new(heap.share());
    all.extend_from_slice(keys)?;
    let framed = frame_keys(heap.share(), frames)?;
    all.extend_from_slice(&framed)?;
    Ok(all)
}

/// The UUIDs of these keys and of those of the frames, each once, in the order of their bytes.
pub(crate) fn asked_uuids(
    heap: &Heap,
    keys: &[SliceKey],
    frames: &[Frame],
) -> Result<Vec<[u8; 16], Heap>, NoMemory>
    ensures { IfOk result (λ uuids. AreAskedUuids (keys.now ++ frame_keys frames.now) uuids.items) }
{
    let all = keys_with(heap, keys, frames)?;
    let uuids = uuids_of(heap.share(), &all)?;
    bytes_of_each(heap.share(), &uuids)
}
