//! What C holds: the address of a box, or null.
ghost use Rattle.std.specs.{Prelude.◌≡◌, Option.MatchOption};
ghost use Rattle.std.specs.declared.option.Option.{Option, TheVariants.None, TheVariants.Some};
ghost use Rattle.filterset_c.specs.{declared.object.Object.Object, Owning.held_coded, Owning.handle_owns};

use crate::object::Object;
use crate::raw_box::RawBox;
use std::alloc::Global;
use std::marker::Model;
use std::ptr::null_mut;

/// A handle of C: one word, which is null if the handle is empty.
#[repr(C)]
pub struct Handle {
    address: *mut (),
    pub ghost held: { Option Object } by { held_coded },
}

impl Model for Handle {
    ghost also_owns = { λ handle. handle_owns handle.address handle.held };
}

impl Handle {
    /// Returns the empty handle.
    pub fn empty() -> Handle
        ensures { result.held ≡ None }
    {
        Handle {
            address: null_mut(),
        }
    }

    /// Makes a handle that owns what the box owns.
    pub fn of_box(object: Box<Object>) -> Handle
        ensures { result.held ≡ Some object.value }
    {
        Handle::of_raw(RawBox::open(object))
    }

    /// Returns the box that the handle owns, or `None` if the handle is empty.
    pub fn into_box(self, alloc: Global) -> Option<Box<Object>>
        ensures { MatchOption result (self.held ≡ None) (λ object. self.held ≡ Some object.value) }
    {
        match self.into_raw(alloc) {
            Some(raw) => Some(raw.close()),
            None => None,
        }
    }

    fn of_raw(raw: RawBox<Object, Global>) -> Handle
        ensures { result.held ≡ Some raw.value }
    {
        let RawBox {
            address,
            allocator: _,
        } = raw;
        Handle {
            address: address as *mut (),
        }
    }

    fn into_raw(self, alloc: Global) -> Option<RawBox<Object, Global>>
        ensures { MatchOption result (self.held ≡ None) (λ raw. self.held ≡ Some raw.value) }
    {
        let Handle { address } = self;
        if address.is_null() {
            None
        } else {
            Some(RawBox {
                address: address as *mut Object,
                allocator: alloc,
            })
        }
    }
}
