// What is in a handle, taken out and put back.
ghost use Rattle.std.specs.Prelude.{◌≡◌, None, Some, MatchOption};

use crate::handle::Handle;
use crate::parts::Parts;
use crate::seat::Seat;
use std::alloc::Global;
use std::mem;

/// Takes out what is in the handle.
pub fn take(alloc: Global, handle: &mut Handle) -> Option<Box<Seat>>
    ensures emptied { handle.new.seat ≡ None }
    ensures taken { MatchOption result (handle.old.seat ≡ None) (λ seat. handle.old.seat ≡ Some seat.value) }
{
    match mem::replace(handle, Handle::closed(alloc)).into_parts() {
        Some(parts) => Some(parts.into_box()),
        None => None,
    }
}

/// Puts a seat where there is none.
pub fn put(handle: &mut Handle, seat: Box<Seat>)
    requires { handle.old.seat ≡ None }
    ensures { handle.new.seat ≡ Some seat.value }
{
    match mem::replace(handle, Handle::of(Parts::of(seat))).into_parts() {
        None => {}
        Some(_) => unreachable!(),
    }
}
