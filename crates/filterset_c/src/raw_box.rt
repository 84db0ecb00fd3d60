//! A box as its address and its allocator.
ghost use Rattle.std.specs.{Prelude.◌≡◌, Box.Ownership.box_owns};

use std::alloc::Allocator;
use std::marker::Model;

/// What a box consists of. It owns the value at the address, as the box does.
pub struct RawBox<T, A: Allocator> {
    pub(crate) address: *mut T,
    pub(crate) allocator: A,
    pub ghost value: { T },
}

impl<T, A: Allocator> Model for RawBox<T, A> {
    ghost also_owns = { λ raw. box_owns (A.dealloc_token raw.allocator) T.row raw.address raw.value };
}

impl<T: Drop, A: Allocator> RawBox<T, A> {
    /// Takes the box apart.
    pub fn open(whole: Box<T, A>) -> RawBox<T, A>
        ensures { result.value ≡ whole.value }
    {
        let (address, allocator) = Box::into_raw_with_allocator(whole);
        RawBox { address, allocator }
    }

    /// Makes the box again.
    pub fn close(self) -> Box<T, A>
        ensures { result.value ≡ self.value }
    {
        let RawBox { address, allocator } = self;
        unsafe { Box::from_raw(allocator, address) }
    }
}
