//! An allocator that refuses one request.
ghost use Rattle.std.specs.Prelude.{◌<◌};

use std::alloc::{AllocError, Allocator};
use std::cell::Cell;

/// An allocator that passes each request on to another and refuses one, which its
/// maker names by number.
///
/// A `&` to it is an allocator that is `Copy`. A growth is a request of its own, as is a shrinking.
pub struct Refusing<B: Allocator> {
    inner: B,
    /// How many requests are still to come, with the one that is refused; 0 from then on.
    left: Cell<u64>,
}

impl<B: Allocator> Refusing<B> {
    /// Refuses the `nth` request, counted from 1.
    pub fn new(inner: B, nth: u64) -> Refusing<B>
        requires { 0 < nth }
    {
        Refusing {
            inner,
            left: Cell::new(nth),
        }
    }

    /// How many requests are still to come, with the one that is refused; 0 from then on.
    pub fn left(&self) -> u64 {
        self.left.get()
    }

    /// Whether the request that is refused was made.
    pub fn has_refused(&self) -> bool {
        self.left.get() == 0
    }
}

impl<B: Allocator> Drop for Refusing<B> {
    fn drop(self) {
        let Self { inner: _, left: _ } = self;
    }
}

/// Counts a request, and says whether it is the one to refuse.
fn is_refused(left: &Cell<u64>) -> bool {
    let requests = left.get();
    left.set(requests.saturating_sub(1));
    requests == 1
}

unsafe impl<B: Allocator> Allocator for Refusing<B> {
    ghost dealloc_token = { λ heap ty ptr. B.dealloc_token heap.inner ty ptr };

    fn allocate(&self, size: usize, align: usize) -> Result<*mut u8, AllocError> {
        if is_refused(&self.left) {
            return Err(AllocError);
        }
        self.inner.allocate(size, align)
    }

    unsafe fn deallocate(&self, ptr: *mut u8, size: usize, align: usize) {
        self.inner.deallocate(ptr, size, align);
    }
}
