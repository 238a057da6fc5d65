// What there is of space, for C.
ghost use Rattle.std.specs.Prelude.{◌≡◌, IsSome};
ghost use Rattle.ct_fs.specs.Mounts.{mounts};
ghost use Rattle.msa.specs.Seats.{mount_in};
ghost use Rattle.msa.specs.Spaces.{Counts, CountsIn, Counted};

use crate::codes::{CLOSED, DEAD};
use crate::handle::Handle;
use crate::seat::{Seat, put_back};
use crate::shipping::is_at_end;
use crate::taking::{put, take};
use ct_fs::Fs;
use ct_pm::Pm;
use pm_outbox::OutboxPm;
use std::alloc::Global;

/// The numbers of the last refusal for space, and how many pages are free, of all.
#[repr(C)]
#[derive(Clone, Copy)]
pub struct Numbers {
    pub level: u32,
    pub were_free: u64,
    pub needed: u64,
    pub free: u64,
    pub pages: u64,
}

// The pages of a mount, free ones and all.
struct Pages {
    fs: Fs<OutboxPm>,
    free: u64,
    all: u64,
}

// Counts the pages of a mount. Only its parts tell how many are free.
fn counted(fs: Fs<OutboxPm>) -> Pages
    requires { IsSome (mounts fs) }
    ensures { Counted fs result.fs result.free result.all }
{
    match fs.into_parts() {
        Ok((dev, frames)) => {
            let free = frames.free();
            let all = dev.pages();
            Pages {
                fs: Fs::from_parts(dev, frames),
                free,
                all,
            }
        }
        Err(_) => unreachable!(),
    }
}

// The numbers of a seat.
fn count_in(seat: &mut Seat) -> Numbers
    requires { IsSome (mount_in seat.old) }
    ensures { CountsIn seat.old seat.new result }
{
    match seat.fs.take() {
        Some(fs) => {
            let Pages { fs, free, all } = counted(fs);
            put_back(&mut seat.fs, fs);
            Numbers {
                level: seat.space.level,
                were_free: seat.space.free,
                needed: seat.space.need,
                free,
                pages: all,
            }
        }
        None => unreachable!(),
    }
}

/// Tells the numbers of the last refusal for space, and how many pages are free, of all.
#[unsafe(no_mangle)]
pub extern "C" fn msa_space(alloc: Global, handle: &mut Handle, numbers: &mut Numbers) -> u32
    ensures { Counts numbers.old numbers.new handle.old.seat handle.new.seat result }
{
    let Some(mut seat) = take(alloc, handle) else {
        return CLOSED;
    };
    if is_at_end(&seat).is_none() {
        put(handle, seat);
        return DEAD;
    }
    *numbers = count_in(&mut seat);
    put(handle, seat);
    0
}
