//! What C holds: the address of an object's box, or null.
ghost use Rattle.std.specs.Prelude.{◌≡◌, MatchOption, None, Option};
ghost use Rattle.capi.specs.declared.object.Object.{Object};
ghost use Rattle.std.specs.contracts.option.Option as option;
ghost use Rattle.capi.specs.contracts.object.Object as object;

use crate::loose::Loose;
use crate::object::Object;
use std::alloc::Global;
use std::marker::Model;

/// A handle of C. It has no object if the address is null.
#[repr(C)]
#[derive(Drop)]
pub struct Handle {
    at: *mut u8,
    alloc: Global,
    ghost value: { Option Object } by { (option.the_row object.the_row).coded },
}

impl Model for Handle {
    ghost use Rattle.std.specs.contracts.option.Option as option;
    ghost use Rattle.capi.specs.contracts.object.Object as object;
    ghost use Rattle.capi.specs.Owning.{held};

    ghost also_owns = { λ h. held object.the_row h.alloc h.at h.value };
}

impl Handle {
    /// The handle of a box.
    pub(crate) fn of(slot: Box<Option<Object>>) -> Handle
        ensures { result.value ≡ slot.value }
    {
        Handle::pack(Loose::of(slot))
    }

    /// The box, if there is one.
    pub(crate) fn into_box(self) -> Option<Box<Option<Object>>>
        ensures { MatchOption result (self.value ≡ None) (λ b. b.value ≡ self.value) }
    {
        match self.unpack() {
            Some(loose) => Some(loose.into_box()),
            None => None,
        }
    }

    /// The null handle.
    pub(crate) fn none(alloc: Global) -> Handle
        ensures { result.value ≡ None }
    {
        Handle {
            at: std::ptr::null_mut(),
            alloc,
        }
    }

    fn pack(loose: Loose<Option<Object>, Global>) -> Handle
        ensures { result.value ≡ loose.value }
    {
        let Loose { at, alloc } = loose;
        Handle {
            at: at as *mut u8,
            alloc,
        }
    }

    fn unpack(self) -> Option<Loose<Option<Object>, Global>>
        ensures { MatchOption result (self.value ≡ None) (λ l. l.value ≡ self.value) }
    {
        let Handle { at, alloc } = self;
        if at.is_null() {
            None
        } else {
            Some(Loose {
                at: at as *mut Option<Object>,
                alloc,
            })
        }
    }
}
