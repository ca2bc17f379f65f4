//! An archive as a sorted list of operations.
ghost use Rattle.std.specs.Prelude.{◌≡◌, ◌≤◌, ◌++◌, ◌||◌, true, not, length, map, filter, IfOk, OnOk, OnErr};
ghost use Rattle.std.specs.FinSet as set;
ghost use Rattle.std.specs.Ordering.{nat_cmp, is_lt};
ghost use Rattle.std.specs.Cmp.Lexicographic.{slice_cmp};
ghost use Rattle.std.specs.List.{list_all, AllZip, AllByRecursion};
ghost use Rattle.std.specs.List.Sorted.{IsPermutation, IsSortedBy, IsStrictlySortedBy, IsSearchInRange};
ghost use Rattle.join_core.specs.InnerSearch.{IsFound};
ghost use Rattle.join_core.specs.Listing.{listing};
ghost use Rattle.archive_core.specs.Record.{IsOperation, admission_record, record_bytes};
ghost use Rattle.archive_core.specs.Valid.{IsValid};
ghost use Rattle.archive_core.specs.Content.{IsContent, is_covered, changes, with_record, joined};
ghost use Rattle.archive_core.specs.InnerHeld.{IsHeld};
ghost use Rattle.archive_index.specs.InnerOrder.{IsOrderOf};
ghost use Rattle.archive_index.specs.InnerScan.{held_in, held_among, IsAnsweringOf};
ghost use Rattle.archive_index.specs.PutAt.{IsPutAt};
ghost use Rattle.archive_index.specs.Taking.{Takes};
ghost use Rattle.archive_core.specs.declared.operations.Operation.TheVariants.{Admit, Retire};
ghost use Rattle.archive_core.specs.Lookup.{IsOwnRow, IsAnswerOf, own_row, answer_view};
ghost use Rattle.archive_core.specs.Names.{name_view};
ghost use Rattle.archive_index.specs.InnerNames.{names_of, names_among};

use crate::asked::{Answering, AskedSlice, answer_of_one, is_kind};
use crate::covered::{BorrowedOperations, drop_covered, drop_retired};
use crate::hashed::{HashedRecord, rows_of};
use crate::name_rows::{put_in_order, rows_in};
use crate::range::{
    RecordKind, is_companion, keep_digests_under, keep_each_table, under, under_uuid,
};
use archive_core::{
    Answer, Archive, Contents, Digest, FindRow, NameRow, Operation, Own, Record, Slice, SliceKey,
    Where, is_key, retirement,
};
use heap_memory::{Heap, NoMemory};
use join_core::Join;
use std::marker::Model;
use uuid::Uuid;

/// An archive as a list of operations, strictly ascending by their records.
///
/// It is searched by binary search. A `take` above the last operation only appends; any other shifts the operations
/// after it. A join copies the missing operations before it changes anything, and merges them with the list. Absorbed
/// operations are merged, too, or inserted one by one if they are few. A slice is hashed only if a retirement of its
/// key is present or arrives, once, and is dropped if that covers it.
#[derive(Drop)]
pub struct PlainArchive {
    operations: Vec<Operation, Heap>,
    // The index of the last search for retirements. No result depends on it: for slices in the order of their keys, few
    // comparisons show whether they are covered.
    near: usize,
}

impl Model for PlainArchive {
    ghost use Rattle.std.specs.Prelude.{map};
    ghost use Rattle.std.specs.Ordering.{nat_cmp};
    ghost use Rattle.std.specs.Cmp.Lexicographic.{slice_cmp};
    ghost use Rattle.std.specs.FinSet as set;
    ghost use Rattle.std.specs.Coded.{coded_list, coded_ℕ};
    ghost use Rattle.archive_core.specs.Record.{record_bytes};
    ghost use Rattle.archive_core.specs.InnerHeld.{IsHeld};

    ghost Value = { set.FinSet (slice_cmp nat_cmp) };

    ghost coded = { set.code (coded_list coded_ℕ) };

    ghost view = { λ archive. set.from_list (map record_bytes archive.operations.items) };

    ghost invariant = { λ archive. IsHeld archive.operations.items };
}

// At most this number of operations is inserted one by one into an archive that has as many, each with a search and a
// shift of the operations after it. A merge goes through the whole list, and costs about as much.
const FEW: usize = 8;

// The index of an operation among others that ascend, or where it would be inserted.
pub(crate) fn search(operations: &[Operation], operation: &Operation) -> Result<usize, usize>
    requires { IsStrictlySortedBy (slice_cmp nat_cmp) (map record_bytes operations.now) }
    ensures bound { IsSearchInRange result (length operations.now) }
    ensures found { IsFound (slice_cmp nat_cmp) (map record_bytes operations.now) (record_bytes operation.now) result }
{
    operations.binary_search_by(|held| held.compare(operation))
}

// The same, with the end tried first: no search is needed for operations in ascending order.
fn search_from_end(operations: &[Operation], operation: &Operation) -> Result<usize, usize>
    requires { IsStrictlySortedBy (slice_cmp nat_cmp) (map record_bytes operations.now) }
    ensures bound { IsSearchInRange result (length operations.now) }
    ensures found { IsFound (slice_cmp nat_cmp) (map record_bytes operations.now) (record_bytes operation.now) result }
{
    if let Some(last) = operations.last() {
        if last.compare(operation).is_lt() {
            return Err(operations.len());
        }
    }
    search(operations, operation)
}

// Sorts operations by their records. Ascending runs are merged, if there is memory for it.
fn sort(operations: &mut Vec<Operation, Heap>)
    ensures permutation { IsPermutation operations.old.items operations.new.items }
    ensures sorted { IsSortedBy (λ x y. is_lt (slice_cmp nat_cmp (record_bytes x)
        (record_bytes y))) operations.new.items }
{
    if operations.sort_by(|a, b| a.compare(b)).is_err() {
        operations.sort_unstable_by(|a, b| a.compare(b));
    }
}

// Sorts operations by their records, and keeps each once.
pub(crate) fn order(operations: &mut Vec<Operation, Heap>)
    ensures { IsOrderOf operations.old.items operations.new.items }
{
    sort(operations);
    operations.dedup_by(|a, b| a.compare(b).is_eq());
}

impl PlainArchive {
    /// The heap of the archive.
    pub fn heap(&self) -> &Heap {
        self.operations.allocator()
    }

    /// Builds tables of addresses for the slices that have none. No other result depends on them. Fails only if memory
    /// runs out.
    pub fn keep_tables(&mut self) -> Result<(), NoMemory>
        ensures { self.new ≡ self.old }
    {
        let heap = self.operations.allocator().share();
        keep_each_table(&mut self.operations, &heap)
    }

    /// Whether a lookup of the key may return digests: if two of its slices are of one kind, which holds for any three.
    pub fn may_answer_digests(&self, key: &SliceKey) -> bool {
        let count = self.operations.len();
        if count > 1
            && is_key(&self.operations[count - 1].key(), key)
            && !is_key(&self.operations[count - 2].key(), key)
        {
            return false;
        }
        let slices = under(&self.operations, RecordKind::Admission, *key);
        match slices.len() {
            0 | 1 => false,
            2 => is_companion(&slices[0]) == is_companion(&slices[1]),
            _ => true,
        }
    }

    /// Keeps the digests of the slices with a key, if a lookup of the key may return them.
    pub fn keep_digests(&mut self, key: &SliceKey)
        ensures { self.new ≡ self.old }
    {
        if self.may_answer_digests(key) {
            keep_digests_under(&mut self.operations, *key);
        }
    }

    /// The same for each of the keys.
    pub fn keep_digests_of(&mut self, keys: &[SliceKey])
        ensures { self.new ≡ self.old }
    {
        'keys: for key in keys {
            self.keep_digests(key);
        }
    }

    /// The keys of the operations: those of the retirements, then those of the admissions, each once.
    pub fn keys(&self) -> Result<Vec<SliceKey, Heap>, NoMemory> {
        let heap = self.operations.allocator().share();
        let mut keys: Vec<SliceKey, Heap> = self
            .operations
            .iter()
            .map(|operation| operation.key())
            .collect(heap)?;
        keys.dedup_by(|a, b| is_key(a, b));
        Ok(keys)
    }

    /// Keeps the digest of an operation's slice if there is a retirement with its key: adding the slice needs it.
    pub fn keep_asked(&self, operation: &mut Operation)
        ensures { operation.new ≡ operation.old }
    {
        self.lend().keep_digest_of(operation, &mut 0);
    }

    // The operations, borrowed.
    fn lend(&self) -> BorrowedOperations<'_>
        ensures borrowed { result ≡ self.now }
        ensures content { IsContent self.now }
    {
        BorrowedOperations::of(&self.operations)
    }

    /// Whether an operation is present, or admits a slice that a retirement covers, so that adding it would change
    /// nothing. A slice is hashed only if there is a retirement with its key.
    pub fn knows(&self, operation: &Operation) -> bool
        ensures changes { changes self.now (record_bytes operation.now) ≡ not result }
        ensures same { result ≡ true → with_record self.now (record_bytes operation.now) ≡ self.now }
    {
        self.lend().knows(operation, &mut 0)
    }

    // Whether the archive knows each of the operations: it is present, or covered.
    fn knows_each(&self, operations: &[Operation]) -> bool
        ensures knows { result
            ≡ list_all (λ operation. set.contains self.now (record_bytes operation) || is_covered self.now
            (record_bytes operation))
            operations.now }
        ensures content { IsContent self.now }
    {
        let borrowed = self.lend();
        operations
            .iter()
            .all(|operation| borrowed.knows(operation, &mut 0))
    }

    /// The operations, in the order of their records.
    pub fn operations(&self) -> &[Operation]
        ensures listed { map record_bytes result.now ≡ listing self.now }
        ensures are { AllByRecursion IsOperation result.now }
        ensures content { IsContent self.now }
    {
        &self.operations
    }

    /// Adds an admission, and returns its index among the operations, or none if it changes nothing. Fails only if
    /// memory runs out.
    pub fn admit_at(&mut self, mut slice: Slice) -> Result<Option<usize>, NoMemory>
        ensures taken { OnOk result (self.new ≡ with_record self.old (admission_record slice)) }
        ensures place { IfOk result (λ index. IsPutAt self.old self.new (admission_record slice) index) }
        ensures valid { IsValid slice }
        ensures refused { OnErr result (self.new ≡ self.old) }
    {
        let borrowed = BorrowedOperations::of(&self.operations);
        borrowed.keep_digest(&mut slice, &mut self.near);
        if borrowed.retires(&slice, &mut self.near) {
            return Ok(None);
        }
        let admission = Operation::Admit(slice);
        match search_from_end(&self.operations, &admission) {
            Ok(_) => Ok(None),
            Err(index) => {
                self.operations.insert(index, admission)?;
                Ok(Some(index))
            }
        }
    }

    // Adds an admission.
    fn admit(&mut self, slice: Slice) -> Result<bool, NoMemory>
        ensures taken { OnOk result (self.new ≡ with_record self.old (record_bytes (Admit slice))) }
        ensures answer { IfOk result (λ changed. changed ≡ changes self.old (record_bytes (Admit slice))) }
        ensures refused { OnErr result (self.new ≡ self.old) }
    {
        Ok(self.admit_at(slice)?.is_some())
    }

    // Adds a retirement. The slices that it covers are dropped afterwards, which cannot fail.
    fn retire(&mut self, key: SliceKey, digest: Digest) -> Result<bool, NoMemory>
        ensures taken { OnOk result (self.new ≡ with_record self.old (record_bytes (Retire key digest))) }
        ensures answer { IfOk result (λ changed. changed ≡ changes self.old (record_bytes (Retire key digest))) }
        ensures refused { OnErr result (self.new ≡ self.old) }
    {
        let retirement = retirement(key, digest);
        match search_from_end(&self.operations, &retirement) {
            Ok(_) => Ok(false),
            Err(index) => {
                self.operations.insert(index, retirement)?;
                drop_retired(&mut self.operations, &key, &digest);
                Ok(true)
            }
        }
    }

    // Adds operations, each with its row.
    fn gather<'a>(
        hashed: &mut Vec<HashedRecord<'a>, Heap>,
        operations: &'a [Operation],
    ) -> Result<(), NoMemory>
        ensures { OnOk result (hashed.new.items ≡ hashed.old.items ++ operations.now) }
    {
        'operations: for operation in operations {
            hashed.push(HashedRecord::of(operation.lend()))?;
        }
        Ok(())
    }

    // The slice of an operation, if it has the key, and is a companion or not. Each slice that is held is live.
    #[tactic(auto, unfolding(crate::specs::InnerScan::is_held_kind))]
    fn held<'a>(operation: &'a Operation, key: &SliceKey, dsym: bool) -> Option<AskedSlice<'a>>
        ensures { result ≡ held_in key.now dsym operation.now }
    {
        let Operation::Admit(slice) = operation else {
            return None;
        };
        if !is_key(&slice.key(), key) || !is_kind(dsym, slice) {
            return None;
        }
        Some(AskedSlice::of(slice))
    }

    // The live slices of a key, companions or not, counted; the only one is kept.
    fn answering<'a>(operations: &'a [Operation], key: &SliceKey, dsym: bool) -> Answering<'a>
        ensures { IsAnsweringOf result (held_among key.now dsym operations.now) }
    {
        let mut answering = Answering::Nothing;
        'operations: for operation in operations {
            if let Some(slice) = PlainArchive::held(operation, key, dsym) {
                answering = answering.and(slice);
            }
        }
        answering
    }

    // The live slices of a key, companions or not.
    fn live_slices<'a>(
        &self,
        operations: &'a [Operation],
        key: &SliceKey,
        dsym: bool,
    ) -> Result<Vec<&'a Slice, Heap>, NoMemory>
        ensures { IfOk result (λ slices.
            map (λ slice. slice.now) slices.items ≡ held_among key.now dsym operations.now) }
    {
        let mut slices = Vec::new(self.operations.allocator().share());
        'operations: for operation in operations {
            if let Some(asked) = PlainArchive::held(operation, key, dsym) {
                slices.push(asked.slice())?;
            }
        }
        Ok(slices)
    }

    // The answer for an address of each of the live slices of a key, companions or not.
    fn own_rows<'a>(
        &self,
        operations: &'a [Operation],
        key: &SliceKey,
        dsym: bool,
        asked: Where,
    ) -> Result<Vec<(Digest, Own<'a>), Heap>, NoMemory>
        ensures { IfOk result (λ rows.
            AllZip (IsOwnRow asked) (held_among key.now dsym operations.now) (map own_row rows.items)) }
    {
        let mut rows = Vec::new(self.operations.allocator().share());
        'operations: for operation in operations {
            if let Some(slice) = PlainArchive::held(operation, key, dsym) {
                rows.push(slice.row(asked))?;
            }
        }
        Ok(rows)
    }

    // The answer of the live slices of a key, companions or not, together, from their count.
    fn answer_of<'a>(
        &self,
        operations: &'a [Operation],
        key: &SliceKey,
        dsym: bool,
        answering: Answering<'a>,
        asked: Where,
    ) -> Result<Answer<'a>, NoMemory>
        requires { IsAnsweringOf answering (held_among key.now dsym operations.now) }
        ensures answer { IfOk result (λ answer.
            IsAnswerOf asked (held_among key.now dsym operations.now) (answer_view answer)) }
        ensures memory { OnErr result (2 ≤ length (held_among key.now dsym operations.now)) }
    {
        match answering {
            Answering::Nothing => Ok(Answer::Unknown),
            Answering::One(slice) => Ok(answer_of_one(slice.own(asked))),
            Answering::Several => Ok(Answer::Conflict(self.own_rows(
                operations, key, dsym, asked,
            )?)),
        }
    }

    // The rows of a name in the slice of an operation. A slice without the name is not hashed.
    fn names_of<'a>(
        &self,
        operation: &'a Operation,
        name: &[u8],
    ) -> Result<Vec<NameRow<'a>, Heap>, NoMemory>
        ensures { IfOk result (λ rows. map name_view rows.items ≡ names_of name.now operation.now) }
    {
        let heap = self.operations.allocator().share();
        let Operation::Admit(slice) = operation else {
            return Ok(Vec::new(heap));
        };
        if !slice.lend().has_name(name) {
            return Ok(Vec::new(heap));
        }
        rows_in(heap, slice, name)
    }

    // The rows of a name in operations, in their order.
    fn gather_names<'a>(
        &self,
        operations: &'a [Operation],
        name: &[u8],
    ) -> Result<Vec<NameRow<'a>, Heap>, NoMemory>
        ensures { IfOk result (λ rows. map name_view rows.items ≡ names_among name.now operations.now) }
    {
        let mut rows = Vec::new(self.operations.allocator().share());
        'operations: for operation in operations {
            let mut more = self.names_of(operation, name)?;
            rows.append(&mut more)?;
        }
        Ok(rows)
    }

    // Copies of those operations that the archive does not know.
    fn copy_missing(&self, operations: &[Operation]) -> Result<Vec<Operation, Heap>, NoMemory>
        ensures { IfOk result (λ missing.
            missing.items ≡ filter (λ operation. changes self.now (record_bytes operation)) operations.now) }
    {
        let heap = self.operations.allocator();
        let mut missing = Vec::new(heap.share());
        let borrowed = self.lend();
        let mut near = 0;
        'operations: for operation in operations {
            if !borrowed.knows(operation, &mut near) {
                let copy = operation.copy(heap.share())?;
                missing.push(copy)?;
            }
        }
        Ok(missing)
    }

    // Adds operations one after another.
    fn take_in_turn(&mut self, operations: Vec<Operation, Heap>) -> Result<(), NoMemory>
        requires { IsContent self.now }
        ensures { Takes self.old self.new (map record_bytes operations.items) result }
    {
        'operations: for operation in operations {
            self.take(operation)?;
        }
        Ok(())
    }

    // Moves the operations of another archive into this one, together. Memory is reserved for them first, and only this
    // may fail: the slices that they cover are dropped only when they are added.
    fn merge(&mut self, other: PlainArchive) -> Result<(), NoMemory>
        ensures merged { OnOk result (self.new ≡ joined self.old other) }
        ensures refused { OnErr result (self.new ≡ self.old) }
    {
        self.operations.reserve(other.operations.len())?;
        drop_covered(&mut self.operations, &other.lend());
        let PlainArchive { mut operations, .. } = other;
        drop_covered(&mut operations, &self.lend());
        self.operations.append(&mut operations)?;
        order(&mut self.operations);
        Ok(())
    }
}

impl Join for PlainArchive {
    ghost use Rattle.archive_core.specs.Content.{IsContent, IsBelow};
    ghost use Rattle.archive_core.specs.Order.{below_reflexive, below_transitive, below_antisymmetric, join_of};

    type Content = Contents;

    ghost content = { λ archive. archive };

    ghost is_content = { IsContent };

    ghost below = { IsBelow };

    ghost reflexive = { below_reflexive };

    ghost transitive = { below_transitive };

    ghost antisymmetric = { below_antisymmetric };

    ghost joins = { join_of };

    fn join(&mut self, other: &Self) -> Result<(), NoMemory> {
        let mut missing = self.copy_missing(&other.operations)?;
        self.operations.append(&mut missing)?;
        drop_covered(&mut self.operations, &other.lend());
        order(&mut self.operations);
        Ok(())
    }

    fn absorb(&mut self, other: Self) -> Result<(), NoMemory> {
        if other.operations.len() <= FEW.min(self.operations.len()) {
            let PlainArchive { operations, .. } = other;
            return self.take_in_turn(operations);
        }
        self.merge(other)
    }

    fn covers(&self, other: &Self) -> bool {
        self.knows_each(&other.operations)
    }
}

impl Archive for PlainArchive {
    ghost is_content_is = { λ _. (λ h. h, λ h. h) };

    ghost below_is = { λ _ _. (λ h. h, λ h. h) };

    fn empty(heap: Heap) -> Self {
        PlainArchive {
            operations: Vec::new(heap),
            near: 0,
        }
    }

    fn take(&mut self, operation: Operation) -> Result<bool, NoMemory> {
        match operation {
            Operation::Admit(slice) => self.admit(slice),
            Operation::Retire(key, digest) => self.retire(key, digest),
        }
    }

    fn holds(&self, operation: &Operation) -> bool {
        search(&self.operations, operation).is_ok()
    }

    fn find(&self, uuid: &Uuid) -> Result<Vec<FindRow, Heap>, NoMemory> {
        let retirements = under_uuid(&self.operations, RecordKind::Retirement, *uuid);
        let admissions = under_uuid(&self.operations, RecordKind::Admission, *uuid);
        let mut hashed = Vec::new(self.operations.allocator().share());
        PlainArchive::gather(&mut hashed, retirements)?;
        PlainArchive::gather(&mut hashed, admissions)?;
        hashed.sort_unstable_by(|a, b| a.compare(b));
        rows_of(self.operations.allocator().share(), &hashed)
    }

    fn lookup(&self, key: &SliceKey, asked: Where) -> Result<Answer<'_>, NoMemory> {
        let admissions = under(&self.operations, RecordKind::Admission, *key);
        match PlainArchive::answering(admissions, key, true) {
            Answering::Nothing => {
                let images = PlainArchive::answering(admissions, key, false);
                self.answer_of(admissions, key, false, images, asked)
            }
            companions => self.answer_of(admissions, key, true, companions, asked),
        }
    }

    fn answering_slices(&self, key: &SliceKey) -> Result<Vec<&Slice, Heap>, NoMemory> {
        let admissions = under(&self.operations, RecordKind::Admission, *key);
        let companions = self.live_slices(admissions, key, true)?;
        if companions.is_empty() {
            return self.live_slices(admissions, key, false);
        }
        Ok(companions)
    }

    fn find_name(&self, name: &[u8]) -> Result<Vec<NameRow<'_>, Heap>, NoMemory> {
        let mut rows = self.gather_names(&self.operations, name)?;
        put_in_order(&mut rows);
        Ok(rows)
    }

    fn len(&self) -> u64 {
        self.operations.len() as u64
    }

    fn record_at(&self, index: u64) -> Record<'_> {
        self.operations[index as usize].lend()
    }
}
