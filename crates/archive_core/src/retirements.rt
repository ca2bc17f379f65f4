//! Retirements, and the slices that they cover.
ghost use Rattle.std.specs.Prelude.{◌≡◌, ◌∷◌, ◌++◌, ℕ, List, [], length, take, true, false, not, OnOk, IfOk};
ghost use Rattle.std.specs.Prelude.{OnErr, ◌⊎◌};
ghost use Rattle.std.specs.FinSet as set;
ghost use Rattle.std.specs.Ordering.{nat_cmp, is_gt};
ghost use Rattle.std.specs.Cmp.Lexicographic.{slice_cmp};
ghost use Rattle.std.specs.List.Sorted.{IsStrictlySortedBy, IsSearchInRange};
ghost use Rattle.sha2.specs.Sha256.{sha256};
ghost use Rattle.join_core.specs.InnerSearch.{IsFound};
ghost use Rattle.archive_core.specs.Key.{key_bytes};
ghost use Rattle.archive_core.specs.Valid.{key_of};
ghost use Rattle.archive_core.specs.Record.{retirement_record};

use crate::layout::{RETIREMENT, RETIREMENT_LEN, key_prefix, retirement_bytes};
use crate::{CheckedSlice, SliceKey};
use heap_memory::{Heap, NoMemory};
use std::cmp::Ordering;
use std::collections::BTreeSet;
use std::marker::Model;

// The number of bytes of the tag and the key in a record.
const PREFIX_LEN: usize = 25;

/// The records of retirements. A contract sees them as a list whose order has no meaning.
///
/// Those of an archive ascend, and need 57 bytes each. They may be added in any order.
#[derive(Drop)]
pub struct Retirements {
    // Those that were added in ascending order.
    ascending: Vec<[u8; RETIREMENT_LEN], Heap>,
    others: BTreeSet<[u8; RETIREMENT_LEN], Heap>,
}

impl Model for Retirements {
    ghost use Rattle.std.specs.Prelude.{◌++◌, ℕ, List};
    ghost use Rattle.std.specs.Ordering.{nat_cmp};
    ghost use Rattle.std.specs.Cmp.Lexicographic.{slice_cmp};
    ghost use Rattle.std.specs.List.Sorted.{IsStrictlySortedBy};

    ghost Value = { List (List ℕ) };

    ghost view = { λ retirements. retirements.ascending.items ++ retirements.others.keys };

    ghost invariant = { λ retirements. IsStrictlySortedBy (slice_cmp nat_cmp) retirements.ascending.items };
}

// The tag and the key of the retirements of a key.
fn prefix_of(key: &SliceKey) -> [u8; PREFIX_LEN]
    ensures prefix { result ≡ 1 ∷ key_bytes key.now }
    ensures long { length (key_bytes key.now) ≡ 24 }
{
    let mut prefix = [0; PREFIX_LEN];
    prefix[0] = RETIREMENT;
    prefix[1..].copy_from_slice(&key_prefix(key));
    prefix
}

// Compares the tag and the key of a record with the prefix.
fn compare_prefix(kept: &[u8; RETIREMENT_LEN], prefix: &[u8; PREFIX_LEN]) -> Ordering
    ensures { result ≡ slice_cmp nat_cmp (take 25 kept.now) prefix.now }
{
    kept[..PREFIX_LEN].cmp(&prefix[..])
}

// Compares two records.
fn compare_whole(a: &[u8; RETIREMENT_LEN], b: &[u8; RETIREMENT_LEN]) -> Ordering
    ensures { result ≡ slice_cmp nat_cmp a.now b.now }
{
    a[..].cmp(&b[..])
}

// The index of the record among these, which ascend, or the index where it would be inserted.
fn search(
    records: &[[u8; RETIREMENT_LEN]],
    retirement: &[u8; RETIREMENT_LEN],
) -> Result<usize, usize>
    requires { IsStrictlySortedBy (slice_cmp nat_cmp) records.now }
    ensures found { IsFound (slice_cmp nat_cmp) records.now retirement.now result }
    ensures within { IsSearchInRange result (length records.now) }
{
    records.binary_search_by(|kept| compare_whole(kept, retirement))
}

// Removes the last of these if it is this record.
fn pop_if_last(records: &mut Vec<[u8; RETIREMENT_LEN], Heap>, retirement: &[u8; RETIREMENT_LEN])
    ensures { (records.new.items ≡ records.old.items)
        ⊎ (records.old.items ≡ records.new.items ++ retirement.now ∷ []) }
{
    if records.last() == Some(retirement) {
        let _popped = records.pop();
    }
}

// Whether a record with the prefix is among these, which ascend.
fn has_prefix(records: &[[u8; RETIREMENT_LEN]], prefix: &[u8; PREFIX_LEN]) -> bool
    requires { IsStrictlySortedBy (slice_cmp nat_cmp) records.now }
    ensures { (r : List ℕ) → take 25 r ≡ prefix.now
        → set.contains (set.from_list {R = slice_cmp nat_cmp} records.now) r ≡ true → result ≡ true }
{
    records
        .binary_search_by(|kept| compare_prefix(kept, prefix))
        .is_ok()
}

// The least record with the prefix.
fn least_of(prefix: &[u8; PREFIX_LEN]) -> [u8; RETIREMENT_LEN]
    ensures prefix { take 25 result ≡ prefix.now }
    ensures least { (r : List ℕ) → take 25 r ≡ prefix.now → length r ≡ 57
        → is_gt (slice_cmp nat_cmp result r) ≡ false }
{
    let mut least = [0; RETIREMENT_LEN];
    least[..PREFIX_LEN].copy_from_slice(prefix);
    least
}

// Whether a record with the prefix is among these.
fn has_other_prefix(
    records: &BTreeSet<[u8; RETIREMENT_LEN], Heap>,
    prefix: &[u8; PREFIX_LEN],
) -> bool
    ensures { (r : List ℕ) → take 25 r ≡ prefix.now → length r ≡ 57
        → set.contains (set.from_list {R = slice_cmp nat_cmp} records.now.keys) r ≡ true → result ≡ true }
{
    match records.range(least_of(prefix)..).next() {
        Some(first) => compare_prefix(first, prefix).is_eq(),
        None => false,
    }
}

impl Retirements {
    /// Creates an empty set of retirements.
    pub fn none(heap: &Heap) -> Retirements
        ensures { result ≡ [] }
    {
        Retirements {
            ascending: Vec::new(heap.share()),
            others: BTreeSet::new(heap.share()),
        }
    }

    // Whether there is a retirement with the key.
    fn has_key(&self, key: &SliceKey) -> bool
        ensures { (digest : List ℕ) → length digest ≡ 32
            → set.contains (set.from_list {R = slice_cmp nat_cmp} self.now) (retirement_record key.now digest) ≡ true
            → result ≡ true }
    {
        let prefix = prefix_of(key);
        has_prefix(&self.ascending, &prefix) || has_other_prefix(&self.others, &prefix)
    }

    // Whether the retirement is in the set.
    fn contains(&self, retirement: &[u8; RETIREMENT_LEN]) -> bool
        ensures { result ≡ set.contains (set.from_list {R = slice_cmp nat_cmp} self.now) retirement.now }
    {
        search(&self.ascending, retirement).is_ok() || self.others.contains(retirement)
    }

    /// Whether a retirement in the set covers the slice. If one has the slice's key, the slice's digest is computed and
    /// kept; otherwise it is not needed.
    pub fn covers(&self, slice: &mut CheckedSlice<'_>) -> bool
        ensures covers { result ≡ set.contains (set.from_list {R = slice_cmp nat_cmp} self.now)
            (retirement_record (key_of slice.old) (sha256 slice.old)) }
        ensures same { slice.new ≡ slice.old }
    {
        let key = slice.key();
        if !self.has_key(&key) {
            return false;
        }
        slice.keep_digest();
        self.contains(&retirement_bytes(&key, &slice.digest()))
    }

    /// Adds the record of a retirement, and returns whether it was new. Fails only if memory runs out.
    pub fn keep(&mut self, retirement: [u8; RETIREMENT_LEN]) -> Result<bool, NoMemory>
        ensures kept { OnOk result (set.from_list {R = slice_cmp nat_cmp} self.new
            ≡ set.insert (set.from_list self.old) retirement) }
        ensures first { IfOk result (λ first.
            first ≡ not (set.contains (set.from_list {R = slice_cmp nat_cmp} self.old) retirement)) }
        ensures refused { OnErr result (self.new ≡ self.old) }
    {
        let Err(at) = search(&self.ascending, &retirement) else {
            return Ok(false);
        };
        if at < self.ascending.len() {
            return Ok(self.others.insert(retirement)?);
        }
        if self.others.contains(&retirement) {
            return Ok(false);
        }
        self.ascending.push(retirement)?;
        Ok(true)
    }

    /// Removes the record of a retirement if it is the last that was added in ascending order; otherwise changes
    /// nothing. If the record is also kept in another set, the two sets together still have the same records.
    pub fn forget(&mut self, retirement: &[u8; RETIREMENT_LEN])
        ensures { set.insert (set.from_list {R = slice_cmp nat_cmp} self.new) retirement.now
            ≡ set.insert (set.from_list self.old) retirement.now }
    {
        pop_if_last(&mut self.ascending, retirement);
    }
}
