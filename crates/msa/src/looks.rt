// The calls that only look, for C.
ghost use Rattle.std.specs.Prelude.{◌≡◌, ◌≢◌, ◌≤◌, length, Option, Some, None, IfOk, IfSome};
ghost use Rattle.ct_base.specs.Walk.{byte};
ghost use Rattle.ct_call.specs.Seen.{device_in};
ghost use Rattle.msa.specs.Codes.{code_of};
ghost use Rattle.msa.specs.Mounts.{state_of};
ghost use Rattle.pm_outbox.specs.Outbox.{words_of};
ghost use Rattle.msa.specs.Looks.{Locates, LooksAt, PeeksAt, Reads, SeeksData, Stats, next_of, tells, tells_next, tells_place, tells_stat, told_of};

use crate::codes::{CLOSED, MISUSE, code};
use crate::handle::Handle;
use crate::seat::Seat;
use crate::taking::{put, take};
use ct_base::Vaddr;
use ct_call::FsError;
use ct_fs::Stat;
use std::alloc::Global;

/// What a path leads to: a file and its bytes, or a directory and its entries.
#[repr(C)]
#[derive(Clone, Copy)]
pub struct Told {
    pub is_directory: bool,
    pub size: u64,
}

/// The most bytes that one read tells.
const READ_BYTES: u64 = 1_048_576;

fn read_in(seat: &Seat, path: &[u8], off: u64, bytes: &mut [u8]) -> Result<u64, FsError>
    ensures { Reads path.now off (length bytes.old) seat.now bytes.old bytes.new result }
{
    let len = bytes.len() as u64;
    match &seat.fs {
        Some(fs) => fs.read(path, off, len, bytes),
        None => unreachable!(),
    }
}

fn stat_in(seat: &Seat, path: &[u8]) -> Result<Stat, FsError>
    ensures { Stats path.now seat.now result }
{
    match &seat.fs {
        Some(fs) => fs.stat(path),
        None => unreachable!(),
    }
}

// Tells a number, where there is one.
fn tell(place: &mut u64, answer: Result<u64, FsError>) -> u32
    ensures code { result ≡ code_of answer }
    ensures told { tells place.old place.new answer }
{
    if let Ok(value) = answer {
        *place = value;
    }
    code(answer)
}

fn tell_stat(place: &mut Told, answer: Result<Stat, FsError>) -> u32
    ensures code { result ≡ code_of answer }
    ensures told { tells_stat place.old place.new answer }
{
    match answer {
        Ok(Stat::File { size }) => {
            *place = Told {
                is_directory: false,
                size,
            };
        }
        Ok(Stat::Dir { count }) => {
            *place = Told {
                is_directory: true,
                size: count,
            };
        }
        Err(_) => {}
    }
    code(answer)
}

/// Puts bytes of a file, from an offset on, at the front of a buffer, as many as it has room for.
#[unsafe(no_mangle)]
pub extern "C" fn msa_read(
    alloc: Global,
    handle: &mut Handle,
    path: &[u8],
    off: u64,
    bytes: &mut [u8],
    read: &mut u64,
) -> u32
    ensures { LooksAt (λ seat answer. Reads path.now off (length bytes.old) seat bytes.old bytes.new answer) (λ answer. tells read.old read.new answer) ((bytes.new ≡ bytes.old) × (read.new ≡ read.old)) handle.old.seat handle.new.seat result }
{
    let Some(seat) = take(alloc, handle) else {
        return CLOSED;
    };
    let answer = read_in(&seat, path, off, bytes);
    put(handle, seat);
    tell(read, answer)
}

/// Tells what a path leads to.
#[unsafe(no_mangle)]
pub extern "C" fn msa_stat(alloc: Global, handle: &mut Handle, path: &[u8], told: &mut Told) -> u32
    ensures { LooksAt (Stats path.now) (λ answer. tells_stat told.old told.new answer) (told.new ≡ told.old) handle.old.seat handle.new.seat result }
{
    let Some(seat) = take(alloc, handle) else {
        return CLOSED;
    };
    let answer = stat_in(&seat, path);
    put(handle, seat);
    tell_stat(told, answer)
}

fn data_in(seat: &Seat, path: &[u8], off: u64) -> Result<Option<u64>, FsError>
    ensures { SeeksData path.now off seat.now result }
{
    match &seat.fs {
        Some(fs) => fs.seek_data(path, off),
        None => unreachable!(),
    }
}

fn place_in(seat: &Seat, path: &[u8]) -> Result<(u64, u32), FsError>
    ensures { Locates path.now seat.now result }
{
    match &seat.fs {
        Some(fs) => fs.locate(path),
        None => unreachable!(),
    }
}

// Tells where data come next, and the largest number where none do.
fn tell_next(next: &mut u64, answer: Result<Option<u64>, FsError>) -> u32
    ensures code { result ≡ code_of answer }
    ensures told { tells_next next.old next.new answer }
{
    match answer {
        Ok(Some(found)) => *next = found,
        Ok(None) => *next = u64::MAX,
        Err(_) => {}
    }
    code(answer)
}

fn tell_place(address: &mut u64, level: &mut u32, answer: Result<(u64, u32), FsError>) -> u32
    ensures code { result ≡ code_of answer }
    ensures told { tells_place address.old level.old address.new level.new answer }
{
    if let Ok((base, at_level)) = answer {
        *address = base;
        *level = at_level;
    }
    code(answer)
}

/// Tells where data of a file come next, from an offset on; the largest number where only zeros come.
#[unsafe(no_mangle)]
pub extern "C" fn msa_seek_data(
    alloc: Global,
    handle: &mut Handle,
    path: &[u8],
    off: u64,
    next: &mut u64,
) -> u32
    ensures { LooksAt (SeeksData path.now off) (λ answer. tells_next next.old next.new answer) (next.new ≡ next.old) handle.old.seat handle.new.seat result }
{
    let Some(seat) = take(alloc, handle) else {
        return CLOSED;
    };
    let answer = data_in(&seat, path, off);
    put(handle, seat);
    tell_next(next, answer)
}

/// Tells where a file lies: the address and the level of its partition, 0 and 15 where it has none.
#[unsafe(no_mangle)]
pub extern "C" fn msa_locate(
    alloc: Global,
    handle: &mut Handle,
    path: &[u8],
    address: &mut u64,
    level: &mut u32,
) -> u32
    ensures { LooksAt (Locates path.now) (λ answer. tells_place address.old level.old address.new level.new answer) ((address.new ≡ address.old) × (level.new ≡ level.old)) handle.old.seat handle.new.seat result }
{
    let Some(seat) = take(alloc, handle) else {
        return CLOSED;
    };
    let answer = place_in(&seat, path);
    put(handle, seat);
    tell_place(address, level, answer)
}

fn byte_in(seat: &Seat, address: Vaddr) -> u8
    ensures { IfSome (device_in (state_of seat.now.fs)) (λ dev. result ≡ byte (words_of dev) address) }
{
    match &seat.fs {
        Some(fs) => fs.peek(address),
        None => unreachable!(),
    }
}

/// Tells the byte at an address, 0 where no page is there; after a fault too.
#[unsafe(no_mangle)]
pub extern "C" fn msa_peek(alloc: Global, handle: &mut Handle, address: u64, told: &mut u8) -> u32
    ensures { PeeksAt address told.old told.new handle.old.seat handle.new.seat result }
{
    let Some(seat) = take(alloc, handle) else {
        return CLOSED;
    };
    let Some(v) = Vaddr::new(address) else {
        put(handle, seat);
        return MISUSE;
    };
    *told = byte_in(&seat, v);
    put(handle, seat);
    0
}
