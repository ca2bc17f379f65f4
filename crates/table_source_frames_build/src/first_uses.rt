//! New numbers, from 1 on, for numbers in the order of their first use.

ghost use Rattle.std.specs.Prelude.{◌≡◌, ◌≤◌, ◌<◌, [], All, IfOk, OnOk, length, nat_eq, reverse};
ghost use Rattle.table_source_frames.specs.Numbering.{number_in, numbered_after, numbered_with};
ghost use Rattle.table_source_frames_build.specs.Numbering.{IsNumber};
ghost use Rattle.table_source_frames_build.specs.FirstUses.{AreGiven, some_number};

use heap_memory::{Heap, NoMemory};

/// The numbers that are used, in the order of their first use, and the new number of each.
#[derive(Drop)]
pub(crate) struct FirstUses {
    given: Vec<u32, Heap>,
    order: Vec<u32, Heap>,
    ghost are_given: { AreGiven given.items order.items },
}

impl FirstUses {
    /// `count` numbers, none of which is used.
    #[tactic(auto, unfolding(table_source_frames::specs::Numbering::number_in))]
    pub fn new(heap: Heap, count: usize) -> Result<FirstUses, NoMemory>
        ensures count { IfOk result (λ uses. length uses.given.items ≡ count) }
        ensures none { IfOk result (λ uses. uses.order.items ≡ []) }
    {
        Ok(FirstUses {
            given: vec![in heap.share(); 0; count]?,
            order: Vec::new(heap),
        })
    }

    /// The numbers that are used, in the order of their first use.
    pub fn order(&self) -> &[u32]
        ensures { result.now ≡ self.now.order.items }
    {
        &self.order
    }

    /// The new number of a number; 0 if it is not used.
    pub fn number_of(&self, number: u32) -> u32
        requires { number ≤ length self.now.given.items }
        ensures { result ≡ number_in nat_eq self.now.order.items number }
    {
        if number == 0 {
            return 0;
        }
        self.given[number as usize - 1]
    }

    /// Uses a number: it gets the next new number, unless it has one.
    pub fn take(&mut self, number: u32) -> Result<(), NoMemory>
        requires some { 0 < number }
        requires within { number ≤ length self.old.given.items }
        ensures count { length self.new.given.items ≡ length self.old.given.items }
        ensures taken { OnOk result (self.new.order.items ≡ numbered_with nat_eq self.old.order.items number) }
    {
        let place = number as usize - 1;
        if self.given[place] != 0 {
            return Ok(());
        }
        let Ok(next) = u32::try_from(self.order.len() + 1) else {
            return Err(NoMemory);
        };
        self.order.push(number)?;
        self.given[place] = next;
        Ok(())
    }

    /// Uses a number, if it is not 0.
    pub fn take_some(&mut self, number: u32) -> Result<(), NoMemory>
        requires { number ≤ length self.old.given.items }
        ensures count { length self.new.given.items ≡ length self.old.given.items }
        ensures taken { OnOk result (self.new.order.items
            ≡ numbered_after nat_eq self.old.order.items (some_number number)) }
    {
        if number == 0 {
            return Ok(());
        }
        self.take(number)
    }

    /// Removes each number from the end of the list and uses it, until the list is empty.
    pub fn take_back(&mut self, numbers: &mut Vec<u32, Heap>) -> Result<(), NoMemory>
        requires { All (IsNumber (length self.old.given.items)) numbers.old.items }
        ensures count { length self.new.given.items ≡ length self.old.given.items }
        ensures taken { OnOk result (self.new.order.items
            ≡ numbered_after nat_eq self.old.order.items (reverse numbers.old.items)) }
        ensures empty { OnOk result (numbers.new.items ≡ []) }
    {
        'numbers: while let Some(number) = numbers.pop() {
            self.take(number)?;
        }
        Ok(())
    }
}
