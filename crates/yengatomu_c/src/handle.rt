//! What C holds of a segmenter: its box behind a pointer, or nothing.

ghost use Rattle.std.specs.Prelude.{◌≡◌, Bool, Option, Some, None, true, false};
ghost use denote.RawPtr.{Ptr};
ghost use Rattle.yengatomu_segmenter.specs.declared.segmenter.Segmenter.{Segmenter};
ghost use Rattle.yengatomu_c.specs.Owned.{owned, held_coded, is_held};

use crate::parts::Parts;
use std::alloc::Global;
use std::marker::Model;
use yengatomu_segmenter::segmenter::Segmenter;

/// What owns the box, unless that is lent. It has no bytes.
#[repr(C)]
#[derive(Drop)]
pub struct Holds {
    alloc: Global,
    pub ghost at: { Ptr },
    pub ghost held: { Option Segmenter } by { held_coded },
    pub ghost lent: { Bool },
}

impl Model for Holds {
    ghost also_owns = { λ h. owned h.alloc h.at h.lent h.held };
}

unsafe impl Send for Holds {}

unsafe impl Sync for Holds {}

/// A box behind a pointer, or nothing. `&` to it reads the pointer alone.
#[repr(C)]
#[derive(Drop)]
pub struct Handle {
    pub(crate) at: *mut u8,
    pub(crate) holds: Holds,
    ghost same: { at ≡ holds.at },
}

unsafe impl Send for Handle {}

unsafe impl Sync for Handle {}

impl Handle {
    /// A handle that holds nothing.
    pub fn empty(alloc: Global) -> Handle
        ensures { (result.holds.held ≡ None) × (result.holds.lent ≡ false) }
    {
        Handle {
            at: std::ptr::null_mut(),
            holds: Holds { alloc },
        }
    }

    /// A handle that holds a box.
    pub fn of_parts(parts: Parts<Segmenter, Global>) -> Handle
        ensures { (result.holds.held ≡ Some parts.value) × (result.holds.lent ≡ false) }
    {
        let Parts { ptr, alloc } = parts;
        Handle {
            at: ptr as *mut u8,
            holds: Holds { alloc },
        }
    }

    /// The box, which mustn't be lent.
    pub fn into_parts(self) -> Parts<Segmenter, Global>
        requires { (is_held self.holds.held ≡ true) × (self.holds.lent ≡ false) }
        ensures { self.holds.held ≡ Some result.value }
    {
        let Handle { at, holds } = self;
        let Holds { alloc } = holds;
        Parts {
            ptr: at as *mut Segmenter,
            alloc,
        }
    }
}
