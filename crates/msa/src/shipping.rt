// What the medium has to see, taken by C.
ghost use Rattle.std.specs.Prelude.{◌≡◌, ◌↔◌, ◌+◌, ◌<◌, ◌≤◌, ◌^◌, Some, None, IsNone, IsSome, IsSomeAnd, IsTrue, MatchOption, List, length};
ghost use Rattle.ct_call.specs.Mounted.{Volume};
ghost use Rattle.ct_fs.specs.Mounts.{mounts};
ghost use Rattle.msa.specs.Mounts.{asks_of};
ghost use Rattle.msa.specs.Ships.{Begins, Gives, Promises, Restarts, Shown, Shows, Takes, entry_of};
ghost use Rattle.msa.specs.Seats.{mount_in};
ghost use Rattle.msa.specs.declared.shipping.Entry.{Entry};

use crate::codes::CLOSED;
use crate::handle::Handle;
use crate::seat::{Seat, put_back};
use crate::taking::{put, take};
use ct_fs::Fs;
use pm_outbox::{Ask, OutboxPm};
use std::alloc::Global;

/// What the medium has to see: a line of 64 bytes, by its number and its words, or a sync of all that was written.
#[repr(C)]
#[derive(Clone, Copy)]
pub struct Entry {
    pub is_sync: bool,
    pub line: u64,
    pub words: [u64; 8],
}

// What is asked, as C reads it.
fn of_ask(ask: Ask) -> Entry
    ensures { result ≡ entry_of ask }
{
    match ask {
        Ask::Write { line, words } => Entry {
            is_sync: false,
            line,
            words,
        },
        Ask::Sync => Entry {
            is_sync: true,
            line: 0,
            words: [0; 8],
        },
    }
}

// Shows one thing more of what was asked from a place on.
#[tactic(auto, using(crate::proofs::Showing::shown_more))]
fn show_one(dev: &OutboxPm, place: usize, at: usize, entries: &mut [Entry])
    requires asked { place + at < length (asks_of dev.now) }
    requires fits { at < length entries.old }
    ensures shown { (old : List Entry) → Shown (asks_of dev.now) place old entries.old at → Shown (asks_of dev.now) place old entries.new (at + 1) }
    ensures size { length entries.new ≡ length entries.old }
{
    match dev.ask_at(place + at) {
        Some(ask) => entries[at] = of_ask(ask),
        None => unreachable!(),
    }
}

// Shows what was asked from a place on, as much as there is and fits.
#[tactic(auto, using(crate::proofs::Showing::shown_none, crate::proofs::Showing::shows_all))]
fn show(dev: &OutboxPm, place: usize, entries: &mut [Entry]) -> usize
    requires { place ≤ length (asks_of dev.now) }
    ensures shows { Shows (asks_of dev.now) place entries.old entries.new result }
    ensures fits { place + result < 2 ^ 64 }
{
    let count = entries.len().min(dev.asked() - place);
    let mut at = 0;
    'entries: while at < count {
        show_one(dev, place, at, entries);
        at += 1;
    }
    count
}

// Begins the history of a mount again.
fn restarted(fs: Fs<OutboxPm>) -> Fs<OutboxPm>
    requires { IsSome (mounts fs) }
    ensures { Restarts fs result }
{
    match fs.into_parts() {
        Ok((mut dev, frames)) => {
            dev.restart();
            Fs::from_parts(dev, frames)
        }
        Err(_) => unreachable!(),
    }
}

// Begins the history of a seat again, all of which was taken.
fn restart_in(seat: &mut Seat)
    requires ready { IsSome (mount_in seat.old) }
    requires end { (before : Volume OutboxPm) → mount_in seat.old ≡ Some before → seat.old.taken ≡ length (asks_of before.dev) }
    ensures { Begins seat.old seat.new }
{
    match seat.fs.take() {
        Some(fs) => {
            put_back(&mut seat.fs, restarted(fs));
            seat.taken = 0;
        }
        None => unreachable!(),
    }
}

// Whether all that was asked was taken, and nothing after a fault.
pub fn is_at_end(seat: &Seat) -> Option<bool>
    ensures { MatchOption result (IsNone (mount_in seat.now)) (λ ends. IsSomeAnd (mount_in seat.now) (λ before. IsTrue ends ↔ (seat.now.taken ≡ length (asks_of before.dev)))) }
{
    match &seat.fs {
        Some(fs) => match fs.device() {
            Some(dev) => Some(dev.asked() == seat.taken),
            None => None,
        },
        None => unreachable!(),
    }
}

// Shows what is asked next.
fn show_next(seat: &Seat, entries: &mut [Entry]) -> usize
    requires { IsSome (mount_in seat.now) }
    ensures shows { (before : Volume OutboxPm) → mount_in seat.now ≡ Some before → Shows (asks_of before.dev) seat.now.taken entries.old entries.new result }
    ensures fits { seat.now.taken + result < 2 ^ 64 }
{
    match &seat.fs {
        Some(fs) => match fs.device() {
            Some(dev) => show(dev, seat.taken, entries),
            None => unreachable!(),
        },
        None => unreachable!(),
    }
}

// Not the device is wanted, but what its contract says: the mount is at rest, so nothing is pending, and the laws on media
// say what C may promise.
fn promise_of(fs: &Fs<OutboxPm>)
    ensures { (before : Volume OutboxPm) → mounts fs.now ≡ Some before → Promises before.dev }
{
    let _ = fs.device();
}

fn promise(seat: &Seat)
    ensures { (before : Volume OutboxPm) → mount_in seat.now ≡ Some before → Promises before.dev }
{
    match &seat.fs {
        Some(fs) => promise_of(fs),
        None => unreachable!(),
    }
}

// Shows what is asked next and takes it; where all was taken the history begins again.
fn take_next(seat: &mut Seat, entries: &mut [Entry]) -> usize
    ensures { Gives seat.old seat.new entries.old entries.new result }
{
    promise(seat);
    match is_at_end(seat) {
        Some(true) => {
            restart_in(seat);
            0
        }
        Some(false) => {
            let count = show_next(seat, entries);
            seat.taken += count;
            count
        }
        None => 0,
    }
}

/// Takes what the medium has to see next, in order, as much as there is and fits: `count` says how much. Where nothing is
/// left, all that was taken before is done. Before and after, whatever the medium may hold is what a crash may leave.
#[unsafe(no_mangle)]
pub extern "C" fn msa_take(
    alloc: Global,
    handle: &mut Handle,
    entries: &mut [Entry],
    count: &mut usize,
) -> u32
    ensures { Takes handle.old.seat handle.new.seat entries.old entries.new count.old count.new result }
{
    let Some(mut seat) = take(alloc, handle) else {
        return CLOSED;
    };
    *count = take_next(&mut seat, entries);
    put(handle, seat);
    0
}
