//! The memory of every collection of the archive: a handle, which is passed by value and shared with a second owner. A
//! test can choose the growth at which the memory runs out.
#![tactic(auto)]

use std::alloc::{AllocError, Allocator, Global};
use std::cell::Cell;
use std::mem::size_of;
use std::rc::Rc;

/// There was no memory for a request.
pub use std::alloc::AllocError as NoMemory;

/// The memory of the archive's types.
pub type Heap = Memory<Global>;

/// A handle to the memory of `B`: it passes each call on. It refuses every growth after its number of growths is used
/// up, and each that asks for more bytes than are left. Handles share these numbers.
///
/// A growth is an allocation, or a block that is made larger; that counts as one growth, however `B` makes it larger,
/// and asks for all bytes of the new block. A block that is made smaller, or is freed, is no growth, and returns no
/// bytes to the number. The contract of an allocator does not say when it refuses, so cases of `test_acceptance` show
/// that growths and bytes are counted, and no clause does.
pub struct Memory<B: Allocator> {
    inner: B,
    left: Granted,
}

// The growths and bytes that are left.
#[derive(Clone, Copy)]
struct Allowance {
    growths: u64,
    bytes: u64,
}

// The allowance that handles share, or none: then every growth is refused.
#[derive(Drop)]
struct Granted {
    shared: Option<Rc<Cell<Allowance>>>,
}

impl Granted {
    // The same allowance; none if more handles share it than can be counted.
    fn share(&self) -> Granted {
        let Some(left) = &self.shared else {
            return Granted { shared: None };
        };
        match left.clone() {
            Ok(left) => Granted { shared: Some(left) },
            Err(_) => Granted { shared: None },
        }
    }
}

impl Memory<Global> {
    /// Creates memory that refuses only what `global` refuses: it has 2^64 - 1 growths, and as many bytes. Fails with
    /// `NoMemory` if there is no room for the counts.
    pub fn new(global: Global) -> Result<Heap, NoMemory> {
        Heap::with_growths(global, u64::MAX)
    }

    /// Creates memory that grants `growths` growths, fewer if `global` refuses one, and then none. Fails with
    /// `NoMemory` if there is no room for the counts.
    pub fn with_growths(global: Global, growths: u64) -> Result<Heap, NoMemory> {
        let left = Allowance {
            growths,
            bytes: u64::MAX,
        };
        let shared = Rc::new(global, Cell::new(left))?;
        Ok(Memory {
            inner: global,
            left: Granted {
                shared: Some(shared),
            },
        })
    }

    /// Creates a second handle to the same memory, which shares the growths that are left.
    pub fn share(&self) -> Heap {
        Memory {
            inner: self.inner,
            left: self.left.share(),
        }
    }
}

impl<B: Allocator> Memory<B> {
    /// Sets the number of growths that are left to `growths`, for this handle and its clones.
    pub fn grant(&self, growths: u64) {
        let Some(left) = &self.left.shared else {
            return;
        };
        let bytes = left.get().bytes;
        left.set(Allowance { growths, bytes });
    }

    /// Sets the number of bytes that are left to `bytes`, for this handle and its clones.
    pub fn grant_bytes(&self, bytes: u64) {
        let Some(left) = &self.left.shared else {
            return;
        };
        let growths = left.get().growths;
        left.set(Allowance { growths, bytes });
    }
}

impl<B: Allocator + Clone> Clone for Memory<B> {
    fn clone(&self) -> Result<Self, AllocError> {
        Ok(Memory {
            inner: self.inner.clone()?,
            left: self.left.share(),
        })
    }
}

impl<B: Allocator> Drop for Memory<B> {
    fn drop(self) {
        let Self { inner: _, left: _ } = self;
    }
}

// Uses up a growth to this number of items of a size, with its bytes. Returns whether one was left.
fn take_growth(left: &Granted, items: usize, size: usize) -> bool {
    let Some(left) = &left.shared else {
        return false;
    };
    let Allowance { growths, bytes } = left.get();
    let asked = (items as u64).saturating_mul(size as u64);
    if growths == 0 || asked > bytes {
        return false;
    }
    left.set(Allowance {
        growths: growths - 1,
        bytes: bytes - asked,
    });
    true
}

unsafe impl<B: Allocator> Allocator for Memory<B> {
    ghost dealloc_token = { λ memory ty ptr. B.dealloc_token memory.inner ty ptr };

    fn allocate(&self, size: usize, align: usize) -> Result<*mut u8, AllocError> {
        if !take_growth(&self.left, size, 1) {
            return Err(AllocError);
        }
        self.inner.allocate(size, align)
    }

    unsafe fn deallocate(&self, ptr: *mut u8, size: usize, align: usize) {
        self.inner.deallocate(ptr, size, align);
    }

    unsafe fn grow<T>(
        &self,
        ptr: *mut T,
        len: usize,
        old_cap: usize,
        new_cap: usize,
    ) -> Result<*mut T, AllocError> {
        if !take_growth(&self.left, new_cap, size_of::<T>()) {
            return Err(AllocError);
        }
        self.inner.grow(ptr, len, old_cap, new_cap)
    }

    unsafe fn shrink<T>(
        &self,
        ptr: *mut T,
        len: usize,
        old_cap: usize,
        new_cap: usize,
    ) -> Result<*mut T, AllocError> {
        self.inner.shrink(ptr, len, old_cap, new_cap)
    }
}
