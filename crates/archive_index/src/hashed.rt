//! An operation with its row for a search.
ghost use Rattle.std.specs.Prelude.{◌≡◌, map, IfOk};
ghost use Rattle.archive_core.specs.Find.{find_cmp, row_of};
ghost use Rattle.archive_core.specs.Record.{IsOperation, operation_borrowed};

use archive_core::{FindRow, Record};
use heap_memory::{Heap, NoMemory};
use std::cmp::Ordering;
use std::marker::Model;

/// An operation that a search found, with its row, so that a slice is hashed once. A contract sees it as the operation.
#[derive(Drop)]
pub struct HashedRecord<'a> {
    operation: Record<'a>,
    row: FindRow,
}

impl<'a> Model for HashedRecord<'a> {
    ghost use Rattle.std.specs.Prelude.{◌≡◌};
    ghost use Rattle.archive_core.specs.Find.{row_of};
    ghost use Rattle.archive_core.specs.Record.{operation_borrowed};
    ghost use Rattle.archive_core.specs.declared.operations.Operation.{Operation};

    ghost Value = { Operation };

    ghost view = { λ hashed. operation_borrowed hashed.operation };

    ghost invariant = { λ hashed. hashed.row ≡ row_of (operation_borrowed hashed.operation) };
}

impl<'a> HashedRecord<'a> {
    /// The operation with its row.
    pub fn of(operation: Record<'a>) -> HashedRecord<'a>
        ensures seen_as { result ≡ operation_borrowed operation.entry }
        ensures operation { IsOperation (operation_borrowed operation.entry) }
    {
        HashedRecord {
            row: FindRow::of(&operation),
            operation,
        }
    }

    /// The row.
    pub fn row(&self) -> FindRow
        ensures { result ≡ row_of self.now }
    {
        self.row
    }

    /// Compares by architecture, then by record.
    pub fn compare(&self, other: &HashedRecord<'_>) -> Ordering
        ensures { result ≡ find_cmp self.now other.now }
    {
        let first = self.row.key.arch;
        let second = other.row.key.arch;
        first
            .cputype
            .cmp(&second.cputype)
            .then(first.cpusubtype.cmp(&second.cpusubtype))
            .then(self.operation.compare(&other.operation))
    }
}

/// The rows, in the order of their operations.
pub fn rows_of(heap: Heap, hashed: &[HashedRecord<'_>]) -> Result<Vec<FindRow, Heap>, NoMemory>
    ensures { IfOk result (λ rows. rows.items ≡ map row_of hashed.now) }
{
    hashed.iter().map(|one| one.row()).collect(heap)
}
