//! Waiting indexes. An index that no longer waits is skipped.

ghost use Rattle.std.specs.Prelude.{◌≡◌, ◌<◌, ◌+◌, ◌^◌, ℕ, IfOk, length};
ghost use Rattle.dwarf_asked_addresses.specs.Waiting.{AreNext, IsFirstWaiting, Waits, WaitTheSame, WaitWithout};

use heap_memory::{Heap, NoMemory};

/// Indexes, some of which wait. Each has a next index, at or above it; those from it on, below the next one, do not
/// wait. The last index always waits.
#[derive(Drop)]
pub struct Waiting {
    next: Vec<usize, Heap>,
    ghost are_next: { AreNext next.items },
}

impl Waiting {
    /// `count` indexes and a last one, which all wait.
    pub fn new(heap: Heap, count: usize) -> Result<Waiting, NoMemory>
        requires { count + 1 < 2 ^ 64 }
        ensures count { IfOk result (λ waiting. length waiting.next.items ≡ count + 1) }
        ensures all { IfOk result (λ waiting. (i : ℕ) → i < count + 1 → Waits waiting.next.items i) }
    {
        let mut next = Vec::new(heap);
        for index in 0..count + 1 {
            next.push(index)?;
        }
        Ok(Waiting { next })
    }

    /// The first waiting index, from `index` on.
    pub fn first_from(&mut self, index: usize) -> usize
        requires { index < length self.old.next.items }
        ensures found { IsFirstWaiting self.old.next.items index result }
        ensures same { WaitTheSame self.old.next.items self.new.next.items }
    {
        let mut found = index;
        'ahead: while self.next[found] != found {
            let after = self.next[self.next[found]];
            self.next[found] = after;
            found = after;
        }
        found
    }

    /// An index no longer waits.
    pub fn end(&mut self, index: usize)
        requires { index + 1 < length self.old.next.items }
        ensures { WaitWithout index self.old.next.items self.new.next.items }
    {
        self.next[index] = index + 1;
    }
}
