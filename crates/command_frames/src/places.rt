//! The keys of frames, and the addresses of the frames under these.
ghost use Rattle.std.specs.Prelude.{◌≡◌, ◌≤◌, IfOk, length, map};
ghost use Rattle.std.specs.List.{prefix_len};
ghost use Rattle.std.specs.List.Sorted.{IsSortedByKey, IsStrictlySortedBy};
ghost use Rattle.std.specs.Ordering.{nat_cmp};
ghost use Rattle.std.specs.Cmp.Lexicographic.{slice_cmp};
ghost use Rattle.archive_core.specs.Key.{key_bytes};
ghost use Rattle.archive_from_records.specs.Keys.{AreInOrder as AreKeysInOrder};
ghost use Rattle.command_frames.specs.InnerPlaces.{AreAskedOf, AreGrouped, AreKeysOf};
ghost use Rattle.command_frames.specs.InnerPlaces.{asked_cmp, has_key, numbers_of, place_cmp, place_of};

use archive_core::{SliceKey, Where, compare_keys};
use command_queries::asked_of;
use heap_memory::{Heap, NoMemory};
use std::cmp::Ordering;
use text_input_files::Frame;

/// An address that is asked for under a key.
#[derive(Clone, Copy)]
pub(crate) struct AskedPlace {
    pub(crate) key: SliceKey,
    pub(crate) place: Where,
}

/// A key that is asked for, and the addresses under it, each once, ascending.
#[derive(Drop)]
pub(crate) struct AskedKey {
    pub(crate) key: SliceKey,
    pub(crate) places: Vec<Where, Heap>,
}

/// An address as numbers; different addresses have different numbers.
fn numbers_of(place: Where) -> [u64; 3]
    ensures { result ≡ numbers_of place }
{
    match place {
        Where::File(address) => [0, 0, address],
        Where::Loaded { load, address } => [1, load, address],
    }
}

/// Compares two addresses: those of a file come first, loaded ones are ordered by their load address.
pub(crate) fn compare_places(a: Where, b: Where) -> Ordering
    ensures { result ≡ place_cmp a b }
{
    numbers_of(a)[..].cmp(&numbers_of(b)[..])
}

impl AskedPlace {
    /// The address of a frame, under its key.
    pub(crate) fn of(frame: &Frame) -> AskedPlace
        ensures { result ≡ place_of frame.now }
    {
        AskedPlace {
            key: frame.key,
            place: asked_of(frame.load, frame.address),
        }
    }

    /// Compares by keys, and under one key by addresses.
    fn compare(&self, other: &AskedPlace) -> Ordering
        ensures { result ≡ asked_cmp self.now other.now }
    {
        compare_keys(&self.key, &other.key).then(compare_places(self.place, other.place))
    }
}

/// The addresses of frames, in the order of these.
fn places_of_each(heap: Heap, frames: &[Frame]) -> Result<Vec<AskedPlace, Heap>, NoMemory>
    ensures { IfOk result (λ asked. asked.items ≡ map place_of frames.now) }
{
    frames
        .iter()
        .map(|frame| AskedPlace::of(frame))
        .collect(heap)
}

/// The addresses of frames, each once, in the order of their keys.
fn asked_places(heap: Heap, frames: &[Frame]) -> Result<Vec<AskedPlace, Heap>, NoMemory>
    ensures are { IfOk result (λ asked. AreAskedOf frames.now asked.items) }
    ensures sorted { IfOk result (λ asked. IsStrictlySortedBy asked_cmp asked.items) }
{
    let mut asked = places_of_each(heap, frames)?;
    asked.sort_unstable_by(|a, b| a.compare(b));
    asked.dedup_by(|a, b| a.compare(b).is_eq());
    Ok(asked)
}

/// The number of first addresses that have this key.
fn run_len(asked: &[AskedPlace], key: &SliceKey) -> usize
    ensures len { result ≡ prefix_len (has_key key.now) asked.now }
    ensures within { result ≤ length asked.now }
{
    asked
        .iter()
        .take_while(|one| compare_keys(&one.key, key).is_eq())
        .count()
}

/// The addresses without their keys.
fn places_in(heap: Heap, asked: &[AskedPlace]) -> Result<Vec<Where, Heap>, NoMemory>
    ensures { IfOk result (λ places. places.items ≡ map (λ one. one.place) asked.now) }
{
    asked.iter().map(|one| one.place).collect(heap)
}

/// Groups addresses, each once and in the order of their keys, by key.
fn under_keys(heap: &Heap, asked: &[AskedPlace]) -> Result<Vec<AskedKey, Heap>, NoMemory>
    requires { IsStrictlySortedBy asked_cmp asked.now }
    ensures { IfOk result (λ keys. AreGrouped asked.now keys.items) }
{
    let mut keys = Vec::new(heap.share());
    let mut left = asked;
    'places: while let Some(first) = left.first() {
        let key = first.key;
        let (run, rest) = left.split_at(run_len(left, &key));
        let places = places_in(heap.share(), run)?;
        keys.push(AskedKey { key, places })?;
        left = rest;
    }
    Ok(keys)
}

/// The keys of frames, each once and in order, with the addresses of the frames under them.
pub(crate) fn asked_keys(heap: &Heap, frames: &[Frame]) -> Result<Vec<AskedKey, Heap>, NoMemory>
    ensures are { IfOk result (λ keys. AreKeysOf frames.now keys.items) }
    ensures order { IfOk result (λ keys. AreKeysInOrder (map (λ one. one.key) keys.items)) }
    ensures sorted { IfOk result (λ keys.
        IsSortedByKey (λ one. key_bytes one.key) (slice_cmp nat_cmp) keys.items) }
{
    let asked = asked_places(heap.share(), frames)?;
    let keys = under_keys(heap, &asked)?;
    Ok(keys)
}
