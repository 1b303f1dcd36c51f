//! What C has room for: a handle, and whether it is full.

ghost use Rattle.std.specs.Prelude.{◌≡◌, Some, None, MatchOption, MatchResult, false};
ghost use Rattle.yengatomu_c.specs.Owned.{is_held};

use crate::handle::Handle;
use crate::loan::{Lease, Loan};
use crate::parts::Parts;
use std::alloc::Global;
use std::mem;
use yengatomu_segmenter::segmenter::Segmenter;

/// Zero bytes are an empty one. C reads and writes nothing of it.
#[repr(C)]
#[derive(Drop)]
pub struct Slot {
    full: bool,
    pub(crate) handle: Handle,
    ghost agrees: { full ≡ is_held handle.holds.held },
}

impl Slot {
    ghost use Rattle.yengatomu_c.specs.Lent.{IsLentBy, loan_of};

    /// Takes what is held, and leaves nothing.
    pub fn take(&mut self, alloc: Global) -> Option<Box<Segmenter>>
        requires { self.old.handle.holds.lent ≡ false }
        ensures taken { MatchOption result (self.old.handle.holds.held ≡ None) (λ seg. self.old.handle.holds.held ≡ Some seg.value) }
        ensures left { (self.new.handle.holds.held ≡ None) × (self.new.handle.holds.lent ≡ false) }
    {
        let nothing = Slot {
            full: false,
            handle: Handle::empty(alloc),
        };
        let Slot { full, handle } = mem::replace(self, nothing);
        if full {
            Some(handle.into_parts().into_box())
        } else {
            None
        }
    }

    /// Holds this from now on. What was held before must have been taken.
    pub fn put(&mut self, seg: Box<Segmenter>)
        requires { self.old.handle.holds.held ≡ None }
        ensures { (self.new.handle.holds.held ≡ Some seg.value) × (self.new.handle.holds.lent ≡ false) }
    {
        *self = Slot {
            full: true,
            handle: Handle::of_parts(Parts::of(seg)),
        };
    }

    /// A lease of what is held, or the loan back where there is nothing.
    pub fn lend(&self, loan: Loan) -> Result<Lease, Loan>
        requires { IsLentBy self.now loan }
        ensures { MatchResult result (λ lease. (self.now.handle.holds.held ≡ Some lease.segmenter) × (loan ≡ loan_of lease)) (λ back. (self.now.handle.holds.held ≡ None) × (back ≡ loan)) }
    {
        if self.full {
            Ok(Lease::of(self.handle.at, loan))
        } else {
            Err(loan)
        }
    }
}
