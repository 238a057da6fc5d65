// What is in a handle may go to another thread.
ghost use Rattle.std.specs.Prelude.{◌≡◌};

use crate::seat::Seat;

// Takes what may go to another thread, and nothing else.
fn sent<T: Send>(value: T) -> T
    ensures { result ≡ value }
{
    value
}

/// A seat may go to another thread: what it owns is its own.
pub fn seat_may_be_sent(seat: Box<Seat>) -> Box<Seat>
    ensures { result ≡ seat }
{
    sent(seat)
}
