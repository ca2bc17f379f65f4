//! Numbers of keys, from 1 on, in the order of arrival.

ghost use Rattle.std.specs.Prelude.{◌≡◌, ◌-◌, [], IfOk, OnErr, Some, length, slice_get};
ghost use Rattle.table_source_frames_build.specs.Numbering.{IsNumber};
ghost use Rattle.table_source_frames_build.specs.Numbers.{IsFoundIn, IsNumbered};

use heap_memory::{Heap, NoMemory};
use std::collections::BTreeMap;
use std::marker::Model;

/// Keys and their numbers, from 1 on, in the order of arrival. A contract sees the keys.
#[derive(Drop)]
pub(crate) struct Numbers<K: Ord + Copy + Drop> {
    by_key: BTreeMap<K, u32, Heap>,
    keys: Vec<K, Heap>,
}

impl<K: Ord + Copy + Drop> Model for Numbers<K> {
    ghost use Rattle.std.specs.Prelude.{List};
    ghost use Rattle.table_source_frames_build.specs.Numbers.{AreNumbered};

    ghost Value = { List K };

    ghost view = { λ n. n.keys.items };

    ghost invariant = { λ n. AreNumbered K.cmp n.by_key n.keys.items };
}

impl<K: Ord + Copy + Drop> Numbers<K> {
    /// No keys.
    pub fn new(heap: Heap) -> Numbers<K>
        ensures { result ≡ [] }
    {
        Numbers {
            by_key: BTreeMap::new(heap.share()),
            keys: Vec::new(heap),
        }
    }

    /// The number of a key; a new key gets the next number. The error is `NoMemory` if there are more than 2^32 - 1
    /// keys.
    pub fn number(&mut self, key: K) -> Result<u32, NoMemory>
        ensures numbered { IfOk result (λ number. IsNumbered K.cmp self.old key number self.new) }
        ensures unchanged { OnErr result (self.new ≡ self.old) }
    {
        if let Some(number) = self.by_key.get(&key) {
            return Ok(*number);
        }
        let Ok(number) = u32::try_from(self.keys.len() + 1) else {
            return Err(NoMemory);
        };
        self.keys.push(key)?;
        if let Err(refused) = self.by_key.insert(key, number) {
            self.keys.pop();
            return Err(NoMemory::from(refused));
        }
        Ok(number)
    }

    /// The number that a key has; `None` if it has none.
    pub fn find(&self, key: &K) -> Option<u32>
        ensures { IsFoundIn K.cmp self.now key.now result }
    {
        self.by_key.get(key).copied()
    }

    /// The number of keys.
    pub fn len(&self) -> usize
        ensures { result ≡ length self.now }
    {
        self.keys.len()
    }

    /// The key with a number.
    pub fn key(&self, number: u32) -> K
        requires { IsNumber (length self.now) number }
        ensures { slice_get self.now (number - 1) ≡ Some result }
    {
        self.keys[number as usize - 1]
    }
}
