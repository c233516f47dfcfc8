//! A watch around each call of the library that may allocate, so that the allocations of the call can be distinguished
//! from other allocations.
//!
//! A watch begins and ends with an allocation of a size that no other allocation has. The library that `.ci/memory`
//! loads before the program knows both sizes. It lists the allocations between them, and can let each of them fail. If
//! this library is not loaded, the two allocations have no effect.
use std::alloc::Global;

// The number of bytes of the allocation with which a watch begins.
const BEGIN: usize = 10007;

// The number of bytes of the allocation with which a watch ends.
const END: usize = 10009;

/// A watch, which lasts as long as this value. All calls that are made during this time are watched.
pub struct Watch(Global);

impl Watch {
    /// Begins the watch.
    pub fn new(alloc: Global) -> Watch {
        drop(Vec::<u8>::with_capacity(alloc, BEGIN));
        Watch(alloc)
    }
}

impl Drop for Watch {
    fn drop(self) {
        let Watch(alloc) = self;
        drop(Vec::<u8>::with_capacity(alloc, END));
    }
}
