//! An archive whose slices have tables of addresses.
use crate::PlainArchive;
use archive_core::{
    Answer, Archive, Contents, FindRow, NameRow, Operation, Record, Slice, SliceKey, Where,
};
use heap_memory::{Heap, NoMemory};
use join_core::Join;
use std::marker::Model;
use uuid::Uuid;

/// An archive with tables of addresses in memory; they are unrelated to the indexes of `--index`.
///
/// It is a sorted list of operations. Each slice has its table, and its digest if a lookup of its key may return it.
///
/// A table is built before its slice is added, unless the slice is present, and moves with it; a copy that a join adds
/// gets its own. So a lookup scans no symbols.
#[derive(Drop)]
pub struct IndexedArchive {
    held: PlainArchive,
}

impl Model for IndexedArchive {
    ghost use Rattle.std.specs.Ordering.{nat_cmp};
    ghost use Rattle.std.specs.Cmp.Lexicographic.{slice_cmp};
    ghost use Rattle.std.specs.FinSet as set;
    ghost use Rattle.std.specs.Coded.{coded_list, coded_ℕ};

    ghost Value = { set.FinSet (slice_cmp nat_cmp) };

    ghost coded = { set.code (coded_list coded_ℕ) };

    ghost view = { λ archive. archive.held };
}

impl Join for IndexedArchive {
    ghost use Rattle.archive_core.specs.Content.{IsContent, IsBelow};
    ghost use Rattle.archive_core.specs.Order.{below_reflexive, below_transitive, below_antisymmetric, join_of};

    type Content = Contents;

    ghost content = { λ archive. archive };

    ghost is_content = { IsContent };

    ghost below = { IsBelow };

    ghost reflexive = { below_reflexive };

    ghost transitive = { below_transitive };

    ghost antisymmetric = { below_antisymmetric };

    ghost joins = { join_of };

    #[tactic(auto, using(crate::proofs::Reached::reached))]
    fn join(&mut self, other: &Self) -> Result<(), NoMemory> {
        self.held.join(&other.held)?;
        self.held.keep_tables()?;
        if let Ok(keys) = other.held.keys() {
            self.held.keep_digests_of(&keys);
        }
        Ok(())
    }

    fn absorb(&mut self, other: Self) -> Result<(), NoMemory> {
        let IndexedArchive { held } = other;
        let keys = held.keys();
        self.held.absorb(held)?;
        if let Ok(keys) = keys {
            self.held.keep_digests_of(&keys);
        }
        Ok(())
    }

    fn covers(&self, other: &Self) -> bool {
        self.held.covers(&other.held)
    }
}

impl Archive for IndexedArchive {
    ghost is_content_is = { λ _. (λ h. h, λ h. h) };

    ghost below_is = { λ _ _. (λ h. h, λ h. h) };

    fn empty(heap: Heap) -> Self {
        IndexedArchive {
            held: PlainArchive::empty(heap),
        }
    }

    fn take(&mut self, mut operation: Operation) -> Result<bool, NoMemory> {
        self.held.keep_asked(&mut operation);
        if self.held.knows(&operation) {
            return Ok(false);
        }
        let key = operation.key();
        let told = self.held.may_answer_digests(&key);
        operation.keep_table(self.held.heap())?;
        if told {
            operation.keep_digest();
        }
        let changed = self.held.take(operation)?;
        if !told {
            self.held.keep_digests(&key);
        }
        Ok(changed)
    }

    fn holds(&self, operation: &Operation) -> bool {
        self.held.holds(operation)
    }

    fn find(&self, uuid: &Uuid) -> Result<Vec<FindRow, Heap>, NoMemory> {
        self.held.find(uuid)
    }

    fn lookup(&self, key: &SliceKey, asked: Where) -> Result<Answer<'_>, NoMemory> {
        self.held.lookup(key, asked)
    }

    fn answering_slices(&self, key: &SliceKey) -> Result<Vec<&Slice, Heap>, NoMemory> {
        self.held.answering_slices(key)
    }

    fn find_name(&self, name: &[u8]) -> Result<Vec<NameRow<'_>, Heap>, NoMemory> {
        self.held.find_name(name)
    }

    fn len(&self) -> u64 {
        self.held.len()
    }

    fn record_at(&self, index: u64) -> Record<'_> {
        self.held.record_at(index)
    }
}
