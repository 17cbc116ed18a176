//! An allocator for tests of running out of memory: it passes each call on to another allocator, and refuses one
//! allocation, given by its number.
#![tactic(auto)]

use std::alloc::{AllocError, Allocator};
use std::sync::atomic::{AtomicU64, Ordering};

/// An allocator that refuses one allocation and passes every other call on. To share it, use a `&Refusing`, which is
/// also an allocator and can be copied.
pub struct Refusing<B: Allocator> {
    inner: B,
    // the number, counted from the next one, of the allocation to refuse; it counts down past 0, which refuses none
    left: AtomicU64,
}

impl<B: Allocator> Refusing<B> {
    /// Makes an allocator over another one, which refuses nothing until `refuse` is called.
    pub fn new(inner: B) -> Refusing<B> {
        Refusing {
            inner,
            left: AtomicU64::new(0),
        }
    }

    /// Refuses the allocation with this number, once. The next allocation is number 1; 0 refuses none.
    pub fn refuse(&self, number: u64) {
        self.left.store(number, Ordering::SeqCst);
    }

    /// How many allocations there were since `refuse(number)`, including the refused one. If this is at least `number`,
    /// and `number` is not 0, that one was refused.
    pub fn asked_since(&self, number: u64) -> u64 {
        number.wrapping_sub(self.left.load(Ordering::SeqCst))
    }
}

impl<B: Allocator> Drop for Refusing<B> {
    fn drop(self) {
        let Self { inner: _, left: _ } = self;
    }
}

/// Counts one allocation, and returns whether it is the one to refuse.
fn refuses(left: &AtomicU64) -> bool {
    left.fetch_sub(1, Ordering::SeqCst) == 1
}

unsafe impl<B: Allocator> Allocator for Refusing<B> {
    ghost dealloc_token = { λ heap ty ptr. B.dealloc_token heap.inner ty ptr };

    fn allocate(&self, size: usize, align: usize) -> Result<*mut u8, AllocError> {
        if refuses(&self.left) {
            return Err(AllocError);
        }
        self.inner.allocate(size, align)
    }

    unsafe fn deallocate(&self, ptr: *mut u8, size: usize, align: usize) {
        self.inner.deallocate(ptr, size, align);
    }
}
