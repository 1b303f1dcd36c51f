//! What a call has of a slot that others may read at once: a loan of what it holds.

ghost use Rattle.std.specs.Prelude.{◌≡◌, Option, Some, true};
ghost use base.Fml.{Lft, Share};
ghost use denote.RawPtr.{Ptr};
ghost use Rattle.yengatomu_segmenter.specs.declared.segmenter.Segmenter.{Segmenter};
ghost use Rattle.yengatomu_c.specs.Owned.{loan_owns, lease_owns, lease_shares, held_coded, value_coded, share_coded, is_held};

use std::marker::Model;
use yengatomu_segmenter::segmenter::Segmenter;

/// A `&` to what a slot's box holds for the time for which it is lent, and a share of the right to end that time; of an empty slot nothing.
/// It has no bytes, so C passes nothing for it.
#[repr(C)]
#[derive(Drop)]
pub struct Loan {
    pub ghost at: { Ptr },
    pub ghost held: { Option Segmenter } by { held_coded },
    pub ghost life: { Lft },
    pub ghost share: { Share } by { share_coded },
}

impl Model for Loan {
    ghost also_owns = { λ l. loan_owns l.at l.held l.life l.share };
}

unsafe impl Send for Loan {}

/// A loan of a box, with its pointer.
#[derive(Drop)]
pub struct Lease {
    at: *const Segmenter,
    pub ghost segmenter: { Segmenter } by { value_coded },
    pub ghost life: { Lft },
    pub ghost share: { Share } by { share_coded },
}

impl Model for Lease {
    ghost also_owns = { λ l. lease_owns l.at l.segmenter l.life l.share };

    ghost also_shares = { λ l _ κ. lease_shares l.at l.segmenter κ };
}

impl Lease {
    ghost use Rattle.yengatomu_c.specs.Lent.{loan_of};

    /// A loan with the pointer to what is lent.
    pub fn of(at: *mut u8, loan: Loan) -> Lease
        requires { (at ≡ loan.at) × (is_held loan.held ≡ true) }
        ensures { loan ≡ loan_of result }
    {
        let Loan {} = loan;
        Lease {
            at: at as *const Segmenter,
        }
    }

    /// What is lent.
    pub fn get(&self) -> &Segmenter
        ensures { result.now ≡ self.now.segmenter }
    {
        unsafe { &*self.at }
    }

    /// The loan again.
    pub fn back(self) -> Loan
        ensures { result ≡ loan_of self }
    {
        let Lease { at: _ } = self;
        Loan {}
    }
}
