ghost use Rattle.std.specs.Prelude.{◌≡◌, Option, None, Some, MatchOption};
ghost use Rattle.msa.specs.declared.seat.Seat.{Seat};
ghost use Rattle.msa.specs.Owning.{seat_owns, seat_coded};

use crate::parts::Parts;
use crate::seat::Seat;
use std::alloc::Global;
use std::marker::Model;
use std::ptr;

#[repr(C)]
pub struct Handle {
    is_open: bool,
    at: *mut u8,
    alloc: Global,
    pub ghost seat: { Option Seat } by { seat_coded },
}

impl Model for Handle {
    ghost also_owns = { λ h. seat_owns h.is_open h.alloc h.at h.seat };
}

impl Handle {
    /// With nothing in it.
    pub fn closed(alloc: Global) -> Handle
        ensures { result.seat ≡ None }
    {
        Handle {
            is_open: false,
            at: ptr::null_mut(),
            alloc,
        }
    }

    /// With a seat in it.
    pub fn of(parts: Parts<Seat, Global>) -> Handle
        ensures { result.seat ≡ Some parts.value }
    {
        let Parts { at, alloc } = parts;
        Handle {
            is_open: true,
            at: at.cast::<u8>(),
            alloc,
        }
    }

    /// What is in it.
    pub fn into_parts(self) -> Option<Parts<Seat, Global>>
        ensures { MatchOption result (self.seat ≡ None) (λ parts. self.seat ≡ Some parts.value) }
    {
        let Handle { is_open, at, alloc } = self;
        if is_open {
            Some(Parts {
                at: at.cast::<Seat>(),
                alloc,
            })
        } else {
            None
        }
    }
}
